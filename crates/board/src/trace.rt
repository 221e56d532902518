ghost use Rattle.std.specs.Prelude.{◌≡◌, ◌<◌, ◌≤◌, ◌+◌, ℕ, [], List, length, IsTrue, IsFalse};
ghost use Rattle.words.specs.declared.entry.Entry.{Entry as EntryValue};
ghost use Rattle.hart.specs.declared.reply.Local.TheVariants.{NeedsMachine};
ghost use Rattle.hart.specs.Locals.{FollowsAlone};
ghost use Rattle.hart.specs.Rows.{setting_of};
ghost use Rattle.machine.specs.Lent.{RetiresAlone};
ghost use Rattle.board.specs.Leases.{most_steps, HasRun, TracesMore};

use arrayvec::ArrayVec;
use hart::{Hart, Local};
use std::marker::Model;
use table::Text;
use words::{AbortCause, Entry, HartId};

/// The most steps that a lease has which keeps their entries.
pub const STEPS: usize = 64;

/// The most steps that any lease has.
pub(crate) const MOST_STEPS: usize = 4096;

/// The place where the quick steps of a hart that is lent are inlined. The machine's own places have other numbers: a step with two callers is inlined
/// in neither.
const LENT: usize = 5;

/// What a lease keeps of the entries of its steps.
pub trait Trace<const SETS: usize, const WAYS: usize>: Drop {
    /// These are the entries, as the trace tells them.
    ghost traces: { Self → List EntryValue → Type 0 };

    /// The entries of how many steps it can tell.
    ghost room: { ℕ };

    /// How many steps a lease may have.
    fn room() -> usize
        ensures value { result ≡ room }
        ensures few { result ≤ most_steps };

    /// That of no step.
    fn new() -> Self
        ensures { traces result [] };

    /// Becomes that of no step.
    fn clear(&mut self)
        ensures { traces self.new [] };

    /// Has a hart retire words by itself, one after another, so many at most, and keeps their entries. The answer is how many: none only where the hart
    /// needs its machine for the next.
    fn retire(&mut self, hart: &mut Hart<SETS, WAYS>, text: &Text<'_>, most: usize) -> usize
        requires some { 0 < most }
        requires room { (es : List EntryValue) × traces self.old es × (length es + most ≤ room) }
        ensures ran { HasRun SETS (λ es. TracesMore traces self.old es self.new) text.now.segments.now result hart.old hart.new }
        ensures most { result ≤ most }
        ensures none { result ≡ 0 → FollowsAlone SETS (setting_of text.now.segments.now hart.old) hart.old hart.new NeedsMachine × (self.new ≡ self.old) };
}

/// Keeps no entry, and tells of any.
#[derive(Clone, Copy, Debug, PartialEq, Eq)]
pub struct Untraced;

impl<const SETS: usize, const WAYS: usize> Trace<SETS, WAYS> for Untraced {
    ghost traces = { λ _ es. Unit {0} };

    ghost room = { most_steps };

    fn room() -> usize {
        MOST_STEPS
    }

    fn new() -> Self {
        Untraced
    }

    fn clear(&mut self) {}

    #[inline(always)]
    fn retire(&mut self, hart: &mut Hart<SETS, WAYS>, text: &Text<'_>, most: usize) -> usize {
        let made = skim(hart, text, most);
        if made > 0 {
            return made;
        }
        if retire_any(hart, text) { 1 } else { 0 }
    }
}

/// Has a hart retire plain words quickly, one after another, so many at most. The answer is how many. It may stop at any word, which costs time alone.
#[inline(never)]
fn skim<const SETS: usize, const WAYS: usize>(
    hart: &mut Hart<SETS, WAYS>,
    text: &Text<'_>,
    most: usize,
) -> usize
    ensures ran { HasRun SETS (λ _. Unit {0}) text.now.segments.now result hart.old hart.new }
    ensures most { result ≤ most }
{
    if !hart.is_active() {
        return 0;
    }
    let mut made = 0;
    while made < most {
        let Some(_entry) = hart.advance_active::<LENT>(text) else {
            break;
        };
        made += 1;
    }
    made
}

/// Has a hart retire any word that it retires by itself. The answer is whether there was one.
#[inline(never)]
fn retire_any<const SETS: usize, const WAYS: usize>(
    hart: &mut Hart<SETS, WAYS>,
    text: &Text<'_>,
) -> bool
    ensures made { IsTrue result → (e : EntryValue) × RetiresAlone SETS text.now.segments.now hart.old e hart.new }
    ensures none { IsFalse result → FollowsAlone SETS (setting_of text.now.segments.now hart.old) hart.old hart.new NeedsMachine }
{
    match hart.local(text) {
        Local::Retired(_) => true,
        Local::NeedsMachine => false,
    }
}

/// The entry of a step. `Entry` has no default value, which the places of a list that aren't used yet have to have.
#[derive(Clone, Copy, Debug, PartialEq, Eq)]
pub(crate) struct Retired {
    pub(crate) entry: Entry,
}

impl Model for Retired {
    ghost use Rattle.words.specs.declared.entry.Entry.{Entry};

    ghost Value = { Entry };

    ghost view = { λ r. r.entry };

    ghost inverse = { λ e. record { entry = e } };
}

impl Default for Retired {
    fn default() -> Self {
        let nobody = HartId::new(0);
        Retired {
            entry: Entry::Abort {
                hart: nobody,
                cause: AbortCause::Asked,
            },
        }
    }
}

/// Keeps all entries.
#[derive(Drop)]
pub struct Traced {
    entries: ArrayVec<Retired, STEPS>,
}

impl Model for Traced {
    ghost use Rattle.std.specs.Prelude.{List};
    ghost use Rattle.words.specs.declared.entry.Entry.{Entry};

    ghost Value = { List Entry };

    ghost view = { λ t. t.entries.items };
}

impl Traced {
    pub(crate) fn entries(&self) -> &[Retired]
        ensures { result.now ≡ self.now }
    {
        self.entries.as_slice()
    }
}

impl<const SETS: usize, const WAYS: usize> Trace<SETS, WAYS> for Traced {
    ghost traces = { λ t es. t ≡ es };

    ghost room = { 64 };

    fn room() -> usize {
        STEPS
    }

    fn new() -> Self {
        Traced {
            entries: ArrayVec::new(),
        }
    }

    fn clear(&mut self) {
        self.entries.clear();
    }

    fn retire(&mut self, hart: &mut Hart<SETS, WAYS>, text: &Text<'_>, _most: usize) -> usize {
        match hart.local(text) {
            Local::Retired(entry) => {
                self.entries.push(Retired { entry });
                1
            }
            Local::NeedsMachine => 0,
        }
    }
}
