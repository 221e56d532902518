//! Nested transactions.
ghost use Rattle.std.specs.Prelude.{◌≡◌, true, Some, None, [], ◌∷◌, ◌++◌};
ghost use Rattle.std.specs.Option.{option_map};
ghost use Rattle.words.specs.declared.entry.Entry.TheVariants.{Abort};
ghost use Rattle.words.specs.declared.cause.AbortCause.TheVariants.{Asked};
ghost use Rattle.words.specs.declared.message.LineState.TheVariants.{Modified};
ghost use Rattle.words.specs.Registers.{reg};
ghost use Rattle.words.specs.Marks.{no_marks};
ghost use Rattle.protocol.specs.Values.{raw, peek};
ghost use Rattle.part_tests.specs.Programs.{sw_x5_x5, commit_twice, abort_within};
ghost use Rattle.part_tests.specs.Examples.{cores, stores_word, stored_block, a_line, Reaches};
ghost use Rattle.part_tests.specs.Nesting.{nested_steps, within_steps};

/// Nested transactions are one: an inner commit takes one off the depth, and what was stored is kept from others until the outer one.
pub fn an_inner_commit_ends_nothing()
    ensures begun { Reaches 4 1 commit_twice (cores 0 1) [] (λ w. option_map (λ t. t.depth) (w.harts 0).tx ≡ Some 1) }
    ensures stored { Reaches 4 1 commit_twice nested_steps
        (stores_word 0 4108 sw_x5_x5 8192 8192 ∷ [])
        (λ w. option_map (λ t. t.depth) (w.harts 0).tx ≡ Some 2) }
    ensures inner { Reaches 4 1 commit_twice (nested_steps ++ cores 0 1)
        (stores_word 0 4108 sw_x5_x5 8192 8192 ∷ [])
        (λ w. (option_map (λ t. t.depth) (w.harts 0).tx ≡ Some 1)
        × ((w.harts 0).lines 256 ≡ a_line Modified stored_block (record no_marks { written = true }))
        × (raw 1 w 8193 ≡ 32)
        × (peek 1 w 8193 ≡ 0)) }
    ensures outer { Reaches 4 1 commit_twice (nested_steps ++ cores 0 2)
        (stores_word 0 4108 sw_x5_x5 8192 8192 ∷ [])
        (λ w. ((w.harts 0).tx ≡ None)
        × ((w.harts 0).lines 256 ≡ a_line Modified stored_block no_marks)
        × (w.stamps ≡ 1)
        × (peek 1 w 8193 ≡ 32)) }
{}

/// An abort in an inner transaction goes back to the registers and the pc of the outermost begin.
pub fn an_inner_abort_goes_back_to_the_outermost_begin()
    ensures { Reaches 4 1 abort_within within_steps
        (stores_word 0 4112 sw_x5_x5 8192 8192 ∷ Abort 0 Asked ∷ [])
        (λ w. ((w.harts 0).pc ≡ 4100)
        × (reg (w.harts 0).regs 5 ≡ 8192)
        × (reg (w.harts 0).regs 6 ≡ 0)
        × ((w.harts 0).tx ≡ None)
        × (raw 1 w 8193 ≡ 0)) }
{}
