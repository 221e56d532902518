ghost use Rattle.std.specs.Prelude.{◌≡◌, ◌<◌, ◌≤◌, ◌+◌, ◌*◌, ◌%◌, ℕ, get_or};
ghost use Rattle.watch.specs.Kinds.{Grows, place_of, count_at, is_count, number_in, number_of_use, of_words, one_if, counts_by_use, place_of_use, shares, words_at};
ghost use Rattle.watch.specs.Runs.{batch_shares};
ghost use Rattle.watch.specs.declared.kinds.Kind.{Kind};

use crate::batch::Batches;
use crate::kinds::Kind;
use words::{HARTS, HartId};

/// How many kinds there are.
const KINDS: usize = 16;

/// How many uses of memory are told apart.
const USES: usize = 3;

/// What a plain word did to memory.
#[derive(Clone, Copy)]
pub(crate) enum Use {
    /// It neither loaded nor stored.
    Neither,
    /// It loaded, and didn't store.
    Loaded,
    /// It stored, as an atomic operation does too.
    Stored,
}

impl Use {
    /// Its number, from 0.
    #[inline(always)]
    fn index(self) -> usize
        ensures value { result ≡ number_of_use self }
        ensures bound { result < 3 }
    {
        match self {
            Use::Neither => 0,
            Use::Loaded => 1,
            Use::Stored => 2,
        }
    }
}

/// The counts of all harts. Plain words are counted once each, by what they did to memory; their counts as retired and as hits are told with the rest.
#[derive(Clone, Copy)]
pub struct Counts {
    counts: [u64; HARTS * KINDS],
    words: [u64; HARTS * USES],
}

fn place(hart: HartId, kind: Kind) -> usize
    ensures value { result ≡ place_of hart kind }
    ensures bound { result < 128 }
{
    HARTS * kind.index() + hart.index()
}

/// The place of how many plain words of a hart did this.
#[inline(always)]
fn word_place(hart: HartId, did: Use) -> usize
    ensures value { result ≡ place_of_use hart did }
    ensures bound { result < 24 }
{
    HARTS * did.index() + hart.index()
}

fn zeros() -> [u64; HARTS * KINDS]
    ensures { (p : ℕ) → get_or result p 0 ≡ 0 }
{
    [0; HARTS * KINDS]
}

fn no_words() -> [u64; HARTS * USES]
    ensures { (p : ℕ) → get_or result p 0 ≡ 0 }
{
    [0; HARTS * USES]
}

impl Counts {
    /// All counts are 0.
    pub fn new() -> Self
        ensures { (h : ℕ) (k : Kind) → count_at result h k ≡ 0 }
    {
        Counts {
            counts: zeros(),
            words: no_words(),
        }
    }

    /// A hart's count of a kind.
    pub fn count(&self, hart: HartId, kind: Kind) -> u64
        ensures { result ≡ count_at self.now hart kind }
    {
        self.counts[place(hart, kind)].wrapping_add(self.of_words(hart, kind))
    }

    /// What a hart's plain words add to its count of a kind.
    fn of_words(&self, hart: HartId, kind: Kind) -> u64
        ensures { result ≡ of_words self.now hart kind % 18446744073709551616 }
    {
        let loads = self.words(hart, Use::Loaded);
        let stores = self.words(hart, Use::Stored);
        match kind {
            Kind::Retired => self
                .words(hart, Use::Neither)
                .wrapping_add(loads)
                .wrapping_add(stores),
            Kind::LoadHit => loads,
            Kind::StoreHit => stores,
            _ => 0,
        }
    }

    /// How many of a hart's plain words did this.
    fn words(&self, hart: HartId, did: Use) -> u64
        ensures { result ≡ words_at self.now hart did }
    {
        self.words[word_place(hart, did)]
    }

    /// Counts one more of a kind. Behind the greatest u64 a count goes on from 0; no run is so long.
    #[inline(always)]
    pub(crate) fn add(&mut self, hart: HartId, kind: Kind)
        ensures { (h : ℕ) (k : Kind) → Grows (count_at self.old h k) (one_if (is_count h k (hart, kind))) (count_at self.new h k) }
    {
        let place = place(hart, kind);
        self.counts[place] = self.counts[place].wrapping_add(1);
    }

    /// Counts so many more of a kind, likewise.
    #[inline(always)]
    pub(crate) fn add_some(&mut self, hart: HartId, kind: Kind, number: u64)
        ensures { (h : ℕ) (k : Kind) → Grows (count_at self.old h k) (number * one_if (is_count h k (hart, kind))) (count_at self.new h k) }
    {
        let place = place(hart, kind);
        self.counts[place] = self.counts[place].wrapping_add(number);
    }

    /// Counts so many plain words of a hart, which isn't fresh, as retired, and as hits those of them that loaded alone, and those that stored.
    #[inline(always)]
    pub(crate) fn add_words(&mut self, hart: HartId, words: u32, loads: u32, stores: u32)
        ensures { (h : ℕ) (k : Kind) → Grows (count_at self.old h k) (shares h k hart words loads stores) (count_at self.new h k) }
    {
        self.add_some(hart, Kind::Retired, u64::from(words));
        self.add_some(hart, Kind::LoadHit, u64::from(loads));
        self.add_some(hart, Kind::StoreHit, u64::from(stores));
    }

    /// The same of each hart's batch, where each began with so many words.
    #[inline(never)]
    pub(crate) fn add_batches(&mut self, batches: &Batches, begun: u32)
        ensures { (h : ℕ) (k : Kind) → Grows (count_at self.old h k) (batch_shares h k begun (get_or batches.now.bits h 0)) (count_at self.new h k) }
    {
        batches.are_complete();
        for i in 0..HARTS {
            let hart = HartId::new(i as u8);
            let batch = batches.of(hart);
            let words = batch.words().saturating_sub(begun);
            self.add_words(hart, words, batch.loads(), batch.stores());
        }
    }

    /// Counts a plain word of a hart, which isn't fresh, by what it did to memory, with one addition. Behind the greatest u64 it goes on from 0, likewise.
    #[inline(always)]
    pub(crate) fn add_word(&mut self, hart: HartId, did: Use)
        ensures { (h : ℕ) (k : Kind) → Grows (count_at self.old h k) (number_in h k (counts_by_use hart did)) (count_at self.new h k) }
    {
        let place = word_place(hart, did);
        self.words[place] = self.words[place].wrapping_add(1);
    }
}
