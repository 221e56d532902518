ghost use Rattle.std.specs.Prelude.{◌≡◌, ◌≤◌, ◌<◌, ◌+◌, ◌*◌, ◌^◌, ◌⊎◌, ◌↔◌, if◌then◌else◌, List, length, IsTrue};
ghost use Rattle.words.specs.declared.entry.Entry.{Entry};
ghost use Rattle.hart.specs.declared.reply.Local.TheVariants.{NeedsMachine};
ghost use Rattle.hart.specs.Locals.{FollowsAlone};
ghost use Rattle.hart.specs.Rows.{setting_of};
ghost use Rattle.board.specs.Leases.{most_steps, HasRun, TracesMore, IsNew, FitsIn};

use crate::code::Code;
use crate::status::is_hart;
use crate::trace::{MOST_STEPS, Trace, Traced};
use hart::Hart;
use loader::Program;
use machine::Machine;
use std::marker::Model;
use table::Text;
use words::HartId;

/// A copy of a hart, how many steps it has made by itself since it was lent, and what is kept of their entries. A hart that hasn't begun is what it was
/// lent as, and is copied only then, so that lending copies it once.
///
/// Its pace says how many steps are worth while: the more, the less often the board is asked, but the later it is noticed that the hart has changed there.
#[derive(Drop)]
pub struct Lease<'p, const SETS: usize, const WAYS: usize, T: Trace<SETS, WAYS> = Traced> {
    code: Code<'p>,
    harts: u32,
    size: u32,
    id: HartId,
    before: Hart<SETS, WAYS>,
    after: Hart<SETS, WAYS>,
    begun: bool,
    steps: usize,
    pace: usize,
    trace: T,
}

impl<'p, const SETS: usize, const WAYS: usize, T: Trace<SETS, WAYS>> Model
    for Lease<'p, SETS, WAYS, T> {
    ghost use Rattle.board.specs.Leases.{Lent};

    ghost Value = { Lent T };

    ghost use Rattle.std.specs.Prelude.{◌≤◌, if◌then◌else◌};
    ghost use Rattle.board.specs.Leases.{most_steps, HasRun};

    ghost view = { λ l. record {
      program = l.code.program.now;
      harts = l.harts;
      size = l.size;
      id = l.id;
      before = l.before;
      after = if l.begun then l.after else l.before;
      steps = l.steps;
      trace = l.trace;
    } };

    ghost invariant = { λ l. HasRun SETS (T.traces l.trace) l.code.program.now.segments l.steps l.before (if l.begun then l.after else l.before)
        × (l.steps ≤ T.room) × (l.steps ≤ most_steps) × (64 ≤ l.pace) × (l.pace ≤ most_steps) };
}

impl<'p, const SETS: usize, const WAYS: usize, T: Trace<SETS, WAYS>> Lease<'p, SETS, WAYS, T> {
    /// A hart as it is lent.
    pub(crate) fn new(
        code: Code<'p>,
        harts: u32,
        size: u32,
        id: HartId,
        hart: &Hart<SETS, WAYS>,
    ) -> Self
        ensures { IsNew T.traces code.entry.program.now harts size id hart.now result }
    {
        Lease {
            code,
            harts,
            size,
            id,
            before: *hart,
            after: *hart,
            begun: false,
            steps: 0,
            pace: next_pace(0, 0),
            trace: T::new(),
        }
    }

    /// Becomes a lease of this hart, as it is lent. What it was a lease of before is forgotten.
    pub(crate) fn renew(
        &mut self,
        code: Code<'p>,
        harts: u32,
        size: u32,
        id: HartId,
        hart: &Hart<SETS, WAYS>,
    )
        ensures { IsNew T.traces code.entry.program.now harts size id hart.now self.new }
    {
        self.code = code;
        self.harts = harts;
        self.size = size;
        self.id = id;
        self.before.assign(hart);
        self.begun = false;
        self.pace = next_pace(self.pace, self.steps);
        self.steps = 0;
        self.trace.clear();
    }

    /// How many steps the hart has made since it was lent.
    pub fn len(&self) -> usize
        ensures value { result ≡ self.now.steps }
        ensures few { result ≤ most_steps }
        ensures traced { (es : List Entry) × T.traces self.now.trace es × (length es ≡ result) }
    {
        self.steps
    }

    /// How many steps are worth while before the lease is settled: 64 at first, twice as many behind a lease that made as many as that, up to 4,096, and 64
    /// behind another.
    pub fn pace(&self) -> usize
        ensures least { 64 ≤ result }
        ensures most { result ≤ most_steps }
    {
        self.pace
    }

    /// Whether it has made none.
    pub fn is_empty(&self) -> bool
        ensures { IsTrue result ↔ (self.now.steps ≡ 0) }
    {
        self.steps == 0
    }

    /// The number of the hart.
    pub fn hart(&self) -> HartId
        ensures { result ≡ self.now.id }
    {
        self.id
    }

    /// The hart as it is now.
    pub(crate) fn after(&self) -> &Hart<SETS, WAYS>
        ensures value { result.now ≡ self.now.after }
        ensures ran { HasRun SETS (T.traces self.now.trace) self.now.program.segments self.now.steps self.now.before self.now.after }
    {
        if self.begun {
            &self.after
        } else {
            &self.before
        }
    }

    /// What is kept of the entries of its steps.
    pub(crate) fn trace(&self) -> &T
        ensures { result.now ≡ self.now.trace }
    {
        &self.trace
    }

    /// Whether it is of this program, number of harts and size of memory, and its hart is still in the machine as it was lent.
    pub(crate) fn fits(
        &self,
        program: &Program,
        harts: u32,
        size: u32,
        machine: &Machine<SETS, WAYS>,
    ) -> bool
        requires { SETS * WAYS < 2 ^ 32 }
        ensures { IsTrue result ↔ FitsIn program.now harts size machine.now self.now }
    {
        self.harts == harts
            && self.size == size
            && is_hart(machine, self.id, &self.before)
            && self.code.program.same(program)
    }

    /// The hart goes on by itself until it has made so many steps more, the lease has as many as its trace has room for, or the hart needs its machine.
    /// The answer is how many it has made.
    pub fn run(&mut self, most: usize) -> usize
        ensures rest { self.new ≡ record self.old { after = self.new.after; steps = self.old.steps + result; trace = self.new.trace } }
        ensures ran { HasRun SETS (λ es. TracesMore T.traces self.old.trace es self.new.trace) self.old.program.segments result self.old.after self.new.after }
        ensures most { result ≤ most }
        ensures stops { (result ≡ most) ⊎ ((self.new.steps ≡ T.room)
            ⊎ FollowsAlone SETS (setting_of self.new.program.segments self.new.after) self.new.after self.new.after NeedsMachine) }
    {
        let room = T::room() - self.steps;
        begin(self.begun, &self.before, &mut self.after);
        self.begun = true;
        let made = retire_most(
            &mut self.after,
            &mut self.trace,
            self.code.text(),
            most.min(room),
        );
        self.steps += made;
        made
    }
}

/// The steps of the first lease, and behind one that ended before it had made as many as were worth while.
const FEW: usize = 64;

/// How many steps are worth while where so many were in the last lease, of which these were made.
fn next_pace(pace: usize, made: usize) -> usize
    ensures least { 64 ≤ result }
    ensures most { result ≤ most_steps }
{
    if made == 0 || made < pace {
        return FEW;
    }
    made.saturating_mul(2).min(MOST_STEPS).max(FEW)
}

/// Copies a hart as it was lent, if it hasn't begun.
fn begin<const SETS: usize, const WAYS: usize>(
    begun: bool,
    before: &Hart<SETS, WAYS>,
    after: &mut Hart<SETS, WAYS>,
)
    ensures { after.new ≡ (if begun then after.old else before.now) }
{
    if !begun {
        after.assign(before);
    }
}

/// Has a hart retire words by itself until they are so many, or it needs its machine, and keeps of their entries what the trace keeps. The answer is how
/// many they are.
fn retire_most<const SETS: usize, const WAYS: usize, T: Trace<SETS, WAYS>>(
    hart: &mut Hart<SETS, WAYS>,
    trace: &mut T,
    text: &Text<'_>,
    most: usize,
) -> usize
    requires { (es : List Entry) × T.traces trace.old es × (length es + most ≤ T.room) }
    ensures ran { HasRun SETS (λ es. TracesMore T.traces trace.old es trace.new) text.now.segments.now result hart.old hart.new }
    ensures most { result ≤ most }
    ensures stops { (result ≡ most) ⊎ FollowsAlone SETS (setting_of text.now.segments.now hart.new) hart.new hart.new NeedsMachine }
{
    let mut made = 0;
    while made < most {
        let more = trace.retire(hart, text, most - made);
        if more == 0 {
            return made;
        }
        made += more;
    }
    most
}
