//! Plain words that are counted in one number.
ghost use Rattle.std.specs.Prelude.{◌≡◌, ◌<◌, ◌≤◌, ◌+◌, ◌-◌, ◌*◌, ℕ, get_or, length, nat_lt, if◌then◌else◌};
ghost use Rattle.watch.specs.Runs.{CountsTogether, hart_in, loads_of, room_in, stores_of, unit_of, words_together, words_of};

use machine::Meter;
use words::{Entry, HARTS, HartId};

/// How many words a batch may have.
pub(crate) const LONGEST_BATCH: u32 = 1023;

/// What a plain word adds to a batch, by what it did to memory.
const NEITHER: u32 = 1048576;

const LOADED: u32 = NEITHER + 1024;

const STORED: u32 = NEITHER + 1;

/// A batch with this number, or a greater one, has no room.
const FULL: u32 = 2147483648;

/// Plain words of a hart in one number: from bit 20 on how many they are, from bit 10 on how many of them loaded and didn't store, and below how many stored. A row keeps
/// it in a register, and one addition counts a word, by what it did to memory, and tells too whether another may follow: the number of words begins so that the
/// highest bit is set behind the last.
#[derive(Clone, Copy)]
pub(crate) struct Batch {
    bits: u32,
}

impl Batch {
    /// No word, with room for so many.
    #[inline(always)]
    pub(crate) fn with_room(words: u32) -> Self
        requires { words ≤ 1023 }
        ensures { result.bits ≡ (2048 - words) * 1048576 }
    {
        Batch {
            bits: (2048 - words) * 1048576,
        }
    }

    /// How many words there were, above the number with which it began.
    #[inline(always)]
    pub(crate) fn words(&self) -> u32
        ensures { result ≡ words_of self.now.bits }
    {
        self.bits / 1048576
    }

    /// How many of them loaded, and didn't store.
    #[inline(always)]
    pub(crate) fn loads(&self) -> u32
        ensures { result ≡ loads_of self.now.bits }
    {
        self.bits / 1024 % 1024
    }

    /// How many of them stored.
    #[inline(always)]
    pub(crate) fn stores(&self) -> u32
        ensures { result ≡ stores_of self.now.bits }
    {
        self.bits % 1024
    }
}

/// What a plain word adds to a batch.
#[inline(always)]
fn unit(entry: &Entry) -> u32
    ensures { result ≡ unit_of entry.now }
{
    match entry {
        Entry::Retire { load, store, .. } => match (store, load) {
            (Some(_), _) => STORED,
            (None, Some(_)) => LOADED,
            (None, None) => NEITHER,
        },
        Entry::Abort { .. } | Entry::Trap { .. } | Entry::Refuse { .. } | Entry::Spill { .. } => {
            NEITHER
        }
    }
}

/// Words are counted where it is known that they are plain, all of one hart, and that hart isn't fresh.
impl Meter for Batch {
    ghost fits = { λ batch. batch.bits < 2147483648 };

    ghost room = { λ batch. 2147483648 - batch.bits };

    ghost meters = { λ before e after. after.bits ≡ before.bits + unit_of e };

    #[inline(always)]
    fn has_room(&self) -> bool {
        self.bits < FULL
    }

    /// Counts a plain word.
    #[inline(always)]
    fn hear(&mut self, entry: &Entry) -> bool {
        self.bits += unit(entry);
        self.has_room()
    }
}

/// A batch of each hart.
#[derive(Clone, Copy)]
pub(crate) struct Batches {
    bits: [u32; HARTS],
}

impl Batches {
    /// One like this of each hart.
    #[inline(always)]
    pub(crate) fn of_each(batch: Batch) -> Self
        ensures { (h : ℕ) → get_or result.bits h 0 ≡ if nat_lt h 8 then batch.bits else 0 }
    {
        Batches {
            bits: [batch.bits; HARTS],
        }
    }

    /// There is one for each hart.
    #[inline(always)]
    pub(crate) fn are_complete(&self)
        ensures { length self.now.bits ≡ 8 }
    {}

    /// A hart's.
    #[inline(always)]
    pub(crate) fn of(&self, hart: HartId) -> Batch
        ensures { result.bits ≡ get_or self.now.bits hart 0 }
    {
        Batch {
            bits: self.bits[hart.index()],
        }
    }

    /// How many words there were together, where each began with so many.
    pub(crate) fn words_together(&self, begun: u32) -> u32
        ensures { result ≡ words_together begun self.now }
    {
        let mut words = 0;
        for i in 0..HARTS {
            let batch = self.of(HartId::new(i as u8));
            words += batch.words().saturating_sub(begun);
        }
        words
    }
}

/// Whose entry it is.
#[inline(always)]
fn hart_of(entry: &Entry) -> HartId
    ensures { result ≡ hart_in entry.now }
{
    match entry {
        Entry::Retire { hart, .. }
        | Entry::Abort { hart, .. }
        | Entry::Trap { hart, .. }
        | Entry::Refuse { hart, .. }
        | Entry::Spill { hart, .. } => *hart,
    }
}

/// Words are counted where it is known that they are plain, and their harts aren't fresh.
impl Meter for Batches {
    ghost fits = { λ batches. (h : ℕ) → get_or batches.bits h 0 < 2147483648 };

    ghost room = { λ batches. room_in batches.bits };

    ghost meters = { λ before e after. CountsTogether before e after };

    #[inline(always)]
    fn has_room(&self) -> bool {
        for i in 0..HARTS {
            if self.bits[i] >= FULL {
                return false;
            }
        }
        true
    }

    /// Counts a plain word in its hart's batch.
    #[inline(always)]
    fn hear(&mut self, entry: &Entry) -> bool {
        self.are_complete();
        let place = hart_of(entry).index();
        self.bits[place] += unit(entry);
        self.bits[place] < FULL
    }
}
