//! Lines that are given up, mostly with marks.
ghost use Rattle.std.specs.Prelude.{◌≡◌, ◌==◌, ℕ, true, Some, None, [], ◌∷◌};
ghost use Rattle.std.specs.Option.{option_map};
ghost use Rattle.words.specs.declared.entry.Entry.TheVariants.{Abort, Refuse, Spill};
ghost use Rattle.words.specs.declared.cause.AbortCause.TheVariants.{Asked};
ghost use Rattle.words.specs.declared.message.LineState.TheVariants.{Shared, Modified};
ghost use Rattle.protocol.specs.Messages.{Put, Ack};
ghost use Rattle.words.specs.Marks.{no_marks};
ghost use Rattle.protocol.specs.Directory.{Nobody, Owned, Sticky};
ghost use Rattle.protocol.specs.Values.{raw, peek};
ghost use Rattle.part_tests.specs.Programs.{lw_x6_x5, sw_x5_x5, sw_x5_x6, sw_x5_32_x5, store_and_abort, store_and_load, load_then_store, load_store_and_commit, store_to_both, store_crosswise};
ghost use Rattle.part_tests.specs.Examples.{loads_word, stores_word, zeros, stored_block, a_line, Reaches};
ghost use Rattle.part_tests.specs.Spills.{spilled_steps, undone_steps, refilled_steps, given_up_again_steps, committed_steps, marked_put_steps, answered_steps, forgotten_steps, dropped_steps, still_refused_steps, crowded_steps, second_put_steps, later_put_steps};

/// A transaction whose line was given up still keeps the block, by the sticky entry and its overflow bit. Its abort asks for the
/// block, is granted it without a forward, and puts the old words back.
pub fn a_spilled_store_is_kept_and_undone()
    ensures spilled { Reaches 4 2 store_and_abort spilled_steps
        (stores_word 0 4104 sw_x5_x5 8192 8192 ∷ Spill 0 256 ∷ Refuse 0 1 256 ∷ [])
        (λ w. ((w.entries 256).owner ≡ Sticky 0)
        × ((w.harts 0).lines 256 ≡ None)
        × (w.memory 256 ≡ stored_block)
        × (raw 2 w 8193 ≡ 32)
        × (peek 2 w 8193 ≡ 0)) }
    ensures undone { Reaches 4 2 store_and_abort undone_steps
        (stores_word 0 4104 sw_x5_x5 8192 8192 ∷ Spill 0 256 ∷ Refuse 0 1 256 ∷ Abort 0 Asked ∷ [])
        (λ w. ((w.harts 0).lines 256 ≡ a_line Modified zeros no_marks)
        × ((w.harts 0).pc ≡ 4096)
        × ((w.harts 0).tx ≡ None)
        × (raw 2 w 8193 ≡ 0)
        × (peek 2 w 8193 ≡ 0)) }
{}

/// A transaction that asks again for a block that it stored to and gave up is given M, also for a load. The line came after an overflow, so when it
/// is given up again the entry is sticky again. The commit leaves no marks.
pub fn a_sticky_owner_is_given_the_block_to_write()
    ensures refilled { Reaches 4 1 store_and_load refilled_steps
        (stores_word 0 4104 sw_x5_x5 8192 8192 ∷ Spill 0 256 ∷ [])
        (λ w. ((w.harts 0).lines 256 ≡ a_line Modified stored_block (record no_marks { overflowed = true }))
        × ((w.entries 256).owner ≡ Owned 0)) }
    ensures given_up { Reaches 4 1 store_and_load given_up_again_steps
        (stores_word 0 4104 sw_x5_x5 8192 8192 ∷ Spill 0 256 ∷ Spill 0 256 ∷ [])
        (λ w. ((w.harts 0).lines 256 ≡ None)
        × ((w.entries 256).owner ≡ Sticky 0)) }
    ensures committed { Reaches 4 1 store_and_load committed_steps
        (stores_word 0 4104 sw_x5_x5 8192 8192 ∷ Spill 0 256 ∷ Spill 0 256 ∷ loads_word 0 4108 lw_x6_x5 6 8192 8192 ∷ [])
        (λ w. ((w.harts 0).lines 256 ≡ a_line Modified stored_block no_marks)
        × ((w.harts 0).tx ≡ None)
        × ((w.harts 0).kept_stamp ≡ None)
        × (peek 2 w 8193 ≡ 32)) }
{}

/// A transaction gives up a line that it stored to, and commits. Its hart stays the sticky owner until another hart loads the block: it
/// acknowledges the forward without content, since memory has it, and the entry names no owner any more, and the reader as the only sharer.
pub fn a_sticky_owner_is_forgotten()
    ensures sticky { Reaches 4 2 load_store_and_commit marked_put_steps
        (loads_word 0 4100 lw_x6_x5 6 8192 0 ∷ stores_word 0 4108 sw_x5_x5 8192 8192 ∷ Spill 0 256 ∷ [])
        (λ w. ((w.entries 256).owner ≡ Sticky 0)
        × ((w.harts 0).put ≡ None)
        × (w.memory 256 ≡ stored_block)) }
    ensures acknowledged { Reaches 4 2 load_store_and_commit answered_steps
        (loads_word 0 4100 lw_x6_x5 6 8192 0 ∷ stores_word 0 4108 sw_x5_x5 8192 8192 ∷ Spill 0 256 ∷ [])
        (λ w. ((w.harts 0).tx ≡ None)
        × ((w.entries 256).owner ≡ Sticky 0)
        × (w.net 1 ≡ Some (Ack 0 1 256 None))) }
    ensures forgotten { Reaches 4 2 load_store_and_commit forgotten_steps
        (loads_word 0 4100 lw_x6_x5 6 8192 0 ∷ stores_word 0 4108 sw_x5_x5 8192 8192 ∷ Spill 0 256 ∷ loads_word 1 4100 lw_x6_x5 6 8192 8192 ∷ [])
        (λ w. ((w.entries 256).owner ≡ Nobody)
        × ((h : ℕ) → (w.entries 256).sharers h ≡ (h == 1))
        × ((w.entries 256).busy ≡ None)
        × ((w.harts 0).lines 256 ≡ None)
        × ((w.harts 1).lines 256 ≡ a_line Shared stored_block no_marks)) }
{}

/// A transaction gives up a shared line that it has read: no message goes out, and the directory still names its hart. So another
/// hart's write is forwarded to it, and refused by the overflow bit alone: there is neither a line nor a record.
pub fn a_dropped_line_still_refuses()
    ensures dropped { Reaches 4 2 load_then_store dropped_steps
        (loads_word 0 4100 lw_x6_x5 6 8192 0 ∷ loads_word 1 4100 lw_x6_x5 6 8192 0 ∷ loads_word 0 4108 lw_x6_x5 6 8192 0 ∷ Spill 0 256 ∷ [])
        (λ w. ((w.harts 0).lines 256 ≡ None)
        × ((w.harts 0).put ≡ None)
        × ((key : ℕ) → w.net key ≡ None)
        × (option_map (λ t. t.overflow) (w.harts 0).tx ≡ Some true)
        × ((w.entries 256).owner ≡ Nobody)
        × ((w.entries 256).sharers 0 ≡ true)) }
    ensures refused { Reaches 4 2 load_then_store still_refused_steps
        (loads_word 0 4100 lw_x6_x5 6 8192 0 ∷ loads_word 1 4100 lw_x6_x5 6 8192 0 ∷ loads_word 0 4108 lw_x6_x5 6 8192 0 ∷ Spill 0 256 ∷ loads_word 1 4108 lw_x6_x5 6 8192 0 ∷ Refuse 0 1 256 ∷ [])
        (λ w. ((w.harts 0).lines 256 ≡ None)
        × (option_map (λ t. t.log) (w.harts 0).tx ≡ Some [])
        × ((w.harts 1).lines 256 ≡ a_line Shared zeros (record no_marks { read = true }))
        × ((w.harts 1).request ≡ None)
        × ((w.entries 256).busy ≡ None)) }
{}

/// In a cache of one line a second block finds no room: the line is evicted first, with a Put and a Spill, and nothing is asked for yet.
pub fn a_full_set_evicts_a_line()
    ensures { Reaches 1 1 store_crosswise crowded_steps
        (stores_word 0 4112 sw_x5_x6 8192 8192 ∷ Spill 0 256 ∷ [])
        (λ w. ((w.harts 0).lines 256 ≡ None)
        × ((w.harts 0).request ≡ None)
        × (w.net 0 ≡ Some (Put 0 256 stored_block true))
        × (option_map (λ t. t.overflow) (w.harts 0).tx ≡ Some true)) }
{}

/// While a Put is out its hart gives up no second line that would need one: the eviction changes nothing, and comes about once the
/// Put is over.
pub fn a_second_put_waits()
    ensures waits { Reaches 4 1 store_to_both second_put_steps
        (stores_word 0 4104 sw_x5_32_x5 8224 8192 ∷ stores_word 0 4108 sw_x5_x5 8192 8192 ∷ Spill 0 257 ∷ [])
        (λ w. ((w.harts 0).lines 257 ≡ None)
        × (option_map (λ p. p.block) (w.harts 0).put ≡ Some 257)
        × ((w.harts 0).lines 256 ≡ a_line Modified stored_block (record no_marks { written = true }))) }
    ensures later { Reaches 4 1 store_to_both later_put_steps
        (stores_word 0 4104 sw_x5_32_x5 8224 8192 ∷ stores_word 0 4108 sw_x5_x5 8192 8192 ∷ Spill 0 257 ∷ Spill 0 256 ∷ [])
        (λ w. ((w.harts 0).lines 256 ≡ None)
        × (option_map (λ p. p.block) (w.harts 0).put ≡ Some 256)
        × ((w.entries 257).owner ≡ Sticky 0)
        × ((w.entries 256).owner ≡ Owned 0)) }
{}
