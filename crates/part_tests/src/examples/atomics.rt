//! Atomic operations: a load and a store at once.
ghost use Rattle.std.specs.Prelude.{◌≡◌, true, false, Some, None, [], ◌∷◌, ◌++◌};
ghost use Rattle.std.specs.Option.{option_map};
ghost use Rattle.words.specs.declared.entry.Entry.TheVariants.{Abort};
ghost use Rattle.words.specs.declared.cause.AbortCause.TheVariants.{Asked};
ghost use Rattle.words.specs.declared.message.Kind.TheVariants.{Write};
ghost use Rattle.words.specs.declared.message.LineState.TheVariants.{Shared, Modified};
ghost use Rattle.words.specs.Registers.{reg};
ghost use Rattle.words.specs.Marks.{no_marks};
ghost use Rattle.protocol.specs.Messages.{Get};
ghost use Rattle.protocol.specs.Directory.{Owned};
ghost use Rattle.protocol.specs.Values.{raw, peek};
ghost use Rattle.part_tests.specs.Programs.{lw_x6_x5, amoadd_x7_x5_x5, load_and_add, add_twice_and_abort};
ghost use Rattle.part_tests.specs.Examples.{cores, loads_word, operates_on_word, zeros, stored_block, a_line, Reaches};
ghost use Rattle.part_tests.specs.Atomics.{both_load_steps, added_steps, added_twice_steps, taken_back_steps};

/// A shared line isn't enough for an atomic operation, though it would be for its load: it asks for the block to write it, as a
/// store does, and then gives the old word to its register and stores the sum.
pub fn an_atomic_operation_asks_to_write()
    ensures asked { Reaches 4 2 load_and_add (both_load_steps ++ cores 0 1)
        (loads_word 0 4100 lw_x6_x5 6 8192 0 ∷ loads_word 1 4100 lw_x6_x5 6 8192 0 ∷ [])
        (λ w. ((w.harts 0).lines 256 ≡ a_line Shared zeros no_marks)
        × (w.net 0 ≡ Some (Get 0 256 Write None))) }
    ensures added { Reaches 4 2 load_and_add added_steps
        (loads_word 0 4100 lw_x6_x5 6 8192 0 ∷ loads_word 1 4100 lw_x6_x5 6 8192 0 ∷ operates_on_word 0 4104 amoadd_x7_x5_x5 7 8192 0 8192 ∷ [])
        (λ w. ((w.harts 0).lines 256 ≡ a_line Modified stored_block no_marks)
        × ((w.harts 1).lines 256 ≡ None)
        × ((w.entries 256).owner ≡ Owned 0)
        × (reg (w.harts 0).regs 7 ≡ 0)) }
{}

/// In a transaction an atomic operation marks its line as read and as written, and logs the block as a store does; a second one
/// works on what the first has stored, and needs no further record. An abort takes both back.
pub fn an_atomic_operation_is_undone()
    ensures added { Reaches 4 1 add_twice_and_abort added_twice_steps
        (operates_on_word 0 4104 amoadd_x7_x5_x5 7 8192 0 8192 ∷ operates_on_word 0 4108 amoadd_x7_x5_x5 7 8192 8192 16384 ∷ [])
        (λ w. (option_map (λ l. l.marks) ((w.harts 0).lines 256) ≡ Some (record { read = true; written = true; overflowed = false }))
        × (option_map (λ t. t.log) (w.harts 0).tx ≡ Some (record { block = 256; before = zeros } ∷ []))
        × (reg (w.harts 0).regs 7 ≡ 8192)
        × (raw 1 w 8193 ≡ 64)
        × (peek 1 w 8193 ≡ 0)) }
    ensures undone { Reaches 4 1 add_twice_and_abort taken_back_steps
        (operates_on_word 0 4104 amoadd_x7_x5_x5 7 8192 0 8192 ∷ operates_on_word 0 4108 amoadd_x7_x5_x5 7 8192 8192 16384 ∷ Abort 0 Asked ∷ [])
        (λ w. ((w.harts 0).lines 256 ≡ a_line Modified zeros no_marks)
        × ((w.harts 0).tx ≡ None)
        × (reg (w.harts 0).regs 7 ≡ 0)
        × (raw 1 w 8193 ≡ 0)) }
{}
