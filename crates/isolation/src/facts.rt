ghost use Rattle.std.specs.Prelude.{ℕ, ◌≡◌, ◌⊎◌, Option, None};
ghost use Rattle.words.specs.declared.entry.Entry.{Entry};
ghost use Rattle.words.specs.declared.entry.Step.TheVariants.{Core};
ghost use Rattle.words.specs.declared.message.Kind.{Kind};
ghost use Rattle.flat.specs.State.{Flat};
ghost use Rattle.protocol.specs.Caches.{Geometry, HasRoom};
ghost use Rattle.protocol.specs.Core.{Lacks, core_move};
ghost use Rattle.protocol.specs.Machine.{Machine, Steps};
ghost use Rattle.protocol.specs.Network.{LiesBelow};
ghost use Rattle.isolation.specs.Belongs.{Belongs};
ghost use Rattle.isolation.specs.Facts.{OneRequest, LinesAgree, Acknowledged, IsCovered, LogsUndo, LogsFit, UndosGoThrough, IsAwaited, RulesOutUnreachable, LinesFit};

/// A hart has at most one request and one Put out, for different blocks; the messages about a busy block are those of its one
/// request; and that is one that its hart waits for, or whose Done is in flight.
pub fn requests_are_one()
    ensures { (g : Geometry) (f : Flat) (w : Machine) → Belongs g f w → OneRequest w }
{}

/// An E or M line is the owner's and its block's only line, each line's hart is named, and all copies have one value.
pub fn lines_agree()
    ensures { (g : Geometry) (f : Flat) (w : Machine) (keys : ℕ) → Belongs g f w → LiesBelow keys w.net → LinesAgree keys w }
{}

/// No set of a cache has more lines than ways, and a hart that waits for a block has room for its line.
pub fn lines_fit()
    ensures { (g : Geometry) (f : Flat) (w : Machine) → Belongs g f w → LinesFit g w }
{}

/// A victim is evicted for the block that is lacked: after a core step of a hart that has no line of it there is room for one, unless
/// nothing happened.
pub fn victims_make_room()
    ensures { (g : Geometry) (f : Flat) (v w : Machine) (i b : ℕ) (kind : Kind) (e : Option Entry) →
        Belongs g f v → core_move v.setting i v.stamps (v.harts i) ≡ Lacks kind b → (v.harts i).lines b ≡ None →
        Steps g v (Core i) e w → (w ≡ v) ⊎ HasRoom g (w.harts i).lines b }
{}

/// Who acknowledged a write has no line and no claim to the block any more, and who acknowledged a read can't write it.
pub fn who_acknowledged_has_given_up()
    ensures { (g : Geometry) (f : Flat) (w : Machine) → Belongs g f w → Acknowledged w f }
{}

/// What a transaction has read or written is marked, or stands under the overflow bit, and the directory names its hart.
pub fn sets_are_covered()
    ensures { (g : Geometry) (f : Flat) (w : Machine) (keys : ℕ) → Belongs g f w → LiesBelow keys w.net → IsCovered keys w f }
{}

/// No two logs have a record of one block, and undoing all of them over what is in place gives flat memory.
pub fn logs_undo_to_memory()
    ensures { (g : Geometry) (f : Flat) (w : Machine) (keys : ℕ) → Belongs g f w → LiesBelow keys w.net → LogsUndo keys w f }
{}

/// A log has at most 113 records, for which 4,096 bytes have room.
pub fn logs_fit()
    ensures { (g : Geometry) (f : Flat) (w : Machine) → Belongs g f w → LogsFit w }
{}

/// An undo's request is forwarded to nobody and never refused.
pub fn undos_go_through()
    ensures { (g : Geometry) (f : Flat) (w : Machine) → Belongs g f w → UndosGoThrough w }
{}

/// No message comes where it isn't awaited, and of one sort, block and hart there is at most one.
pub fn each_message_is_awaited()
    ensures { (g : Geometry) (f : Flat) (w : Machine) → Belongs g f w → IsAwaited w }
{}

/// What the rows call unreachable is so: an owner beside sharers, S or E for a hart that has a line, a refusal outside transactions,
/// an answer that isn't expected, and a break that retires, or a commit or a TABORT outside a transaction.
pub fn unreachable_cases_never_occur()
    ensures { (g : Geometry) (f : Flat) (w : Machine) → Belongs g f w → RulesOutUnreachable w }
{}
