ghost use Rattle.std.specs.Prelude.{◌≡◌, ◌<◌, ◌↔◌, ◌+◌, ℕ, Option, IsTrue};
ghost use Rattle.words.specs.declared.entry.Entry.{Entry as EntryValue};

use words::Entry;

/// What is done with the entry of a step. It is heard where the step made it, so that none is made where nobody asks.
pub trait Listener {
    /// What comes of hearing this entry, or that a step gave none.
    ghost hears: { Self → Option EntryValue → Self → Type 0 };

    /// A step gave this entry, or none.
    fn hear(&mut self, entry: &Option<Entry>)
        ensures { hears self.old entry.now self.new };
}

/// Who hears the words of a row, and has room for so many of them: the row goes on as long as there is. It is handed over by value, so that the compiler keeps it in
/// registers, or in the row's frame.
pub trait Meter: Copy {
    /// There is room for one more word, of any hart.
    ghost fits: { Self → Type 0 };

    /// How much room there is. It falls with each word, so that a row ends.
    ghost room: { Self → ℕ };

    /// What comes of hearing the entry of a word.
    ghost meters: { Self → EntryValue → Self → Type 0 };

    /// Whether there is room for one more word.
    fn has_room(&self) -> bool
        ensures { IsTrue result ↔ fits self.now };

    /// A word gave this entry. The answer is whether there is room for one more.
    fn hear(&mut self, entry: &Entry) -> bool
        requires { fits self.old }
        ensures meters { meters self.old entry.now self.new }
        ensures room { room self.new < room self.old }
        ensures fits { IsTrue result ↔ fits self.new };
}

/// So many words, of which nobody hears.
#[derive(Clone, Copy)]
pub(crate) struct Left {
    pub(crate) words: u32,
}

impl Meter for Left {
    ghost fits = { λ left. 0 < left.words };

    ghost room = { λ left. left.words };

    ghost meters = { λ before _ after. before.words ≡ after.words + 1 };

    #[inline(always)]
    fn has_room(&self) -> bool {
        self.words > 0
    }

    #[inline(always)]
    fn hear(&mut self, _entry: &Entry) -> bool {
        self.words -= 1;
        self.has_room()
    }
}

/// Nobody asks for entries.
#[derive(Clone, Copy, Debug)]
pub struct Nobody;

impl Listener for Nobody {
    ghost hears = { λ nobody _ after. after ≡ nobody };

    #[inline(always)]
    fn hear(&mut self, _entry: &Option<Entry>) {}
}

/// Whoever makes a step is answered its entry, and doesn't listen too.
#[derive(Clone, Copy, Debug)]
pub(crate) struct Caller;

impl Listener for Caller {
    ghost hears = { λ caller _ after. after ≡ caller };

    #[inline(always)]
    fn hear(&mut self, _entry: &Option<Entry>) {}
}
