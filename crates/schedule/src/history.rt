ghost use Rattle.std.specs.Prelude.{◌≡◌, ◌≤◌, ◌<◌, ◌+◌, ◌++◌, [], IsTrue, IsFalse, OnOk, replicate, vec_len, vec_capacity};
ghost use Rattle.schedule.specs.Histories.{choices_in};

use crate::choices::Choice;
use std::alloc::{AllocError, Global};
use std::marker::Model;

/// A choice that was made so many times on end.
#[derive(Clone, Copy, Debug, PartialEq, Eq)]
pub(crate) struct Batch {
    pub(crate) choice: Choice,
    pub(crate) times: usize,
}

/// The choices of a run, in order. As often as the same was chosen on end, it takes one place.
#[derive(Drop)]
pub struct History {
    pub(crate) batches: Vec<Batch>,
}

impl Model for History {
    ghost use Rattle.std.specs.Prelude.{◌-◌, vec_len, vec_capacity};
    ghost use Rattle.schedule.specs.Histories.{Kept, choices_in};

    ghost Value = { Kept };

    ghost view = { λ h. record {
      choices = choices_in h.batches.items;
      room = vec_capacity h.batches - vec_len h.batches;
    } };
}

impl History {
    /// That of a run which has just begun.
    pub fn new(alloc: Global) -> Self
        ensures { result.choices ≡ [] }
    {
        History {
            batches: Vec::new(alloc),
        }
    }

    /// Makes room for a note. What was noted stays, whether it succeeds or not.
    pub fn make_room(&mut self) -> Result<(), AllocError>
        ensures room { OnOk result (0 < self.new.room) }
        ensures stays { self.new.choices ≡ self.old.choices }
    {
        self.batches.reserve(1)
    }

    /// A choice was made, so many times.
    pub fn note(&mut self, choice: Choice, times: usize)
        requires { 0 < self.old.room }
        ensures noted { self.new.choices ≡ self.old.choices ++ replicate times choice }
        ensures room { self.old.room ≤ self.new.room + 1 }
    {
        let batch = Batch { choice, times };
        if !lengthen(&mut self.batches, &batch) {
            self.batches.push_reserved(batch);
        }
    }
}

/// Adds a batch to the last one, if that is of the same choice.
fn lengthen(batches: &mut [Batch], more: &Batch) -> bool
    ensures longer { IsTrue result → choices_in batches.new ≡ choices_in batches.old ++ replicate more.now.times more.now.choice }
    ensures same { IsFalse result → batches.new ≡ batches.old }
{
    let Some(last) = batches.last_mut() else {
        return false;
    };
    if last.choice != more.choice {
        return false;
    }
    let Some(sum) = last.times.checked_add(more.times) else {
        return false;
    };
    last.times = sum;
    true
}
