ghost use Rattle.std.specs.Prelude.{◌≡◌, ℕ, List, Option, Ok};
ghost use Rattle.words.specs.declared.entry.Entry.{Entry};
ghost use Rattle.words.specs.declared.entry.Step.{Step};
ghost use Rattle.table.specs.declared.effect.Effect.{Effect};
ghost use Rattle.table.specs.declared.effect.MemoryAct.{MemoryAct};
ghost use Rattle.table.specs.declared.effect.Act.TheVariants as act;
ghost use Rattle.flat.specs.State.{Setting, FlatHart};
ghost use Rattle.flat.specs.Causes.{next_of};
ghost use Rattle.protocol.specs.Caches.{Geometry};
ghost use Rattle.protocol.specs.Machine.{Machine, Steps, Runs};
ghost use Rattle.protocol.specs.Start.{start};
ghost use Rattle.isolation.specs.Memory.{IsAccessWithin, IsWithinMemory};

/// Every block that a machine speaks of lies in memory: that of each line, log record, request and Put of its harts, and that of each
/// message in flight. So it is at the start of every program, after each step from such a machine, and after every run.
pub fn blocks_are_in_memory()
    ensures start { (s : Setting) (entry : ℕ) → IsWithinMemory (start s entry) }
    ensures step { (g : Geometry) (v w : Machine) (s : Step) (e : Option Entry) → IsWithinMemory v → Steps g v s e w → IsWithinMemory w }
    ensures run { (g : Geometry) (s : Setting) (entry : ℕ) (steps : List Step) (es : List Entry) (w : Machine) →
        Runs g (start s entry) steps es w → IsWithinMemory w }
{}

/// An access that has no cause against it, also one of a conditional store, is aligned, ends below the undo logs, and so lies within one block, which is in
/// memory.
pub fn accesses_lie_in_memory()
    ensures access { (s : Setting) (h : FlatHart) (e : Effect) (m : MemoryAct) → next_of s h ≡ Ok e → e.act ≡ act.Memory m → IsAccessWithin s m }
    ensures conditional { (s : Setting) (h : FlatHart) (e : Effect) (rd : ℕ) (m : MemoryAct) → next_of s h ≡ Ok e → e.act ≡ act.Conditional rd m → IsAccessWithin s m }
{}
