//! Conflicts: who is refused, and who is aborted.
ghost use Rattle.std.specs.Prelude.{◌≡◌, true, false, Some, None, [], ◌∷◌};
ghost use Rattle.std.specs.Option.{option_map};
ghost use Rattle.words.specs.declared.entry.Entry.TheVariants.{Abort, Refuse};
ghost use Rattle.words.specs.declared.cause.AbortCause.TheVariants.{Conflict};
ghost use Rattle.words.specs.declared.message.LineState.TheVariants.{Shared};
ghost use Rattle.words.specs.Marks.{no_marks};
ghost use Rattle.protocol.specs.Directory.{Nobody, Owned};
ghost use Rattle.protocol.specs.Values.{raw, peek, view};
ghost use Rattle.part_tests.specs.Programs.{lw_x6_x5, sw_x5_x5, sw_x5_x6, sw_x5_x7, store_and_commit, load_then_store, store_crosswise};
ghost use Rattle.part_tests.specs.Examples.{loads_word, stores_word, zeros, a_line, Reaches};
ghost use Rattle.part_tests.specs.Conflicts.{refused_steps, granted_steps, crossed_steps, resolved_steps, sharers_steps};

/// A running transaction keeps what it stored to: another hart's request is refused. In place is the new value; memory without the
/// transaction, and what the other hart sees, is the old one.
pub fn a_store_is_kept_until_the_commit()
    ensures refused { Reaches 4 2 store_and_commit refused_steps
        (stores_word 0 4104 sw_x5_x5 8192 8192 ∷ Refuse 0 1 256 ∷ [])
        (λ w. ((w.entries 256).owner ≡ Owned 0)
        × (raw 2 w 8193 ≡ 32)
        × (peek 2 w 8193 ≡ 0)
        × (view 2 w 0 8193 ≡ 32)
        × (view 2 w 1 8193 ≡ 0)) }
    ensures granted { Reaches 4 2 store_and_commit granted_steps
        (stores_word 0 4104 sw_x5_x5 8192 8192 ∷ Refuse 0 1 256 ∷ stores_word 1 4104 sw_x5_x5 8192 8192 ∷ [])
        (λ w. ((w.entries 256).owner ≡ Owned 1)
        × ((w.harts 0).lines 256 ≡ None)
        × (peek 2 w 8193 ≡ 32)
        × (view 2 w 0 8193 ≡ 32)) }
{}

/// Two transactions each want what the other has stored to: the later one aborts, and keeps its stamp.
pub fn the_later_of_two_gives_way()
    ensures aborted { Reaches 4 2 store_crosswise crossed_steps
        (stores_word 0 4112 sw_x5_x6 8192 8192 ∷ stores_word 1 4112 sw_x5_x6 8224 8192 ∷ Refuse 1 0 257 ∷ Refuse 0 1 256 ∷ Abort 1 Conflict ∷ [])
        (λ w. ((w.harts 1).kept_stamp ≡ Some (record { count = 1; hart = 1 }))
        × (option_map (λ t. t.cycle) (w.harts 0).tx ≡ Some false)
        × (peek 2 w 8225 ≡ 0)) }
    ensures resolved { Reaches 4 2 store_crosswise resolved_steps
        (stores_word 0 4112 sw_x5_x6 8192 8192 ∷ stores_word 1 4112 sw_x5_x6 8224 8192 ∷ Refuse 1 0 257 ∷ Refuse 0 1 256 ∷ Abort 1 Conflict ∷ stores_word 0 4128 sw_x5_x7 8224 8192 ∷ [])
        (λ w. (option_map (λ t. t.stamp) (w.harts 1).tx ≡ Some (record { count = 1; hart = 1 }))
        × (w.stamps ≡ 2)
        × (peek 2 w 8193 ≡ 32)
        × (peek 2 w 8225 ≡ 32)) }
{}

/// Of three sharers two give their lines up and one, which has read the block in its transaction, refuses: so the request ends
/// refused, its hart keeps its line, and the entry still names all four.
pub fn one_refusal_is_enough()
    ensures { Reaches 4 4 load_then_store sharers_steps
        (loads_word 0 4100 lw_x6_x5 6 8192 0 ∷ loads_word 1 4100 lw_x6_x5 6 8192 0 ∷ loads_word 2 4100 lw_x6_x5 6 8192 0 ∷ loads_word 3 4100 lw_x6_x5 6 8192 0 ∷ loads_word 3 4108 lw_x6_x5 6 8192 0 ∷ loads_word 0 4108 lw_x6_x5 6 8192 0 ∷ Refuse 3 0 256 ∷ [])
        (λ w. ((w.harts 0).lines 256 ≡ a_line Shared zeros (record no_marks { read = true }))
        × ((w.harts 0).request ≡ None)
        × ((w.harts 1).lines 256 ≡ None)
        × ((w.harts 2).lines 256 ≡ None)
        × ((w.harts 3).lines 256 ≡ a_line Shared zeros (record no_marks { read = true }))
        × ((w.entries 256).owner ≡ Nobody)
        × ((w.entries 256).sharers 0 ≡ true)
        × ((w.entries 256).sharers 1 ≡ true)
        × ((w.entries 256).sharers 2 ≡ true)
        × ((w.entries 256).sharers 3 ≡ true)) }
{}
