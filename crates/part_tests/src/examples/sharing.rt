//! How a block is shared, and handed from hart to hart.
ghost use Rattle.std.specs.Prelude.{◌≡◌, true, false, Some, None, [], ◌∷◌, ◌++◌};
ghost use Rattle.std.specs.Option.{option_map};
ghost use Rattle.words.specs.declared.message.Kind.TheVariants.{Write};
ghost use Rattle.words.specs.declared.message.LineState.TheVariants.{Shared, Exclusive, Modified};
ghost use Rattle.protocol.specs.Messages.{Put, Forward};
ghost use Rattle.words.specs.Marks.{no_marks};
ghost use Rattle.protocol.specs.Directory.{Nobody, Owned, first_entry};
ghost use Rattle.part_tests.specs.Programs.{lw_x6_x5, sw_x5_x5, sw_x10_x5, sw_x5_4_x5, load_and_store, store_number, load_then_store, store_and_upgrade};
ghost use Rattle.part_tests.specs.Examples.{cores, loads_word, stores_word, zeros, stored_block, a_line, Reaches};
ghost use Rattle.part_tests.specs.Sharing.{silent_steps, shared_steps, overtaken_steps, exclusive_steps, written_back_steps, returned_steps, untouched_steps, outdated_steps, forwarded_steps, upgraded_steps};

/// A block that nobody shares is granted E for a load, and the store after it needs no message.
pub fn a_store_to_an_exclusive_line_is_silent()
    ensures { Reaches 4 2 load_and_store silent_steps
        (loads_word 0 4100 lw_x6_x5 6 8192 0 ∷ stores_word 0 4104 sw_x5_x5 8192 8192 ∷ [])
        (λ w. ((w.harts 0).lines 256 ≡ a_line Modified stored_block no_marks)
        × ((w.entries 256).owner ≡ Owned 0)
        × (w.memory 256 ≡ zeros)) }
{}

/// Another hart's load is forwarded to the owner, which answers with its words; memory gets them too, and both share the block.
pub fn an_owner_answers_a_read()
    ensures { Reaches 4 2 load_and_store shared_steps
        (loads_word 0 4100 lw_x6_x5 6 8192 0 ∷ stores_word 0 4104 sw_x5_x5 8192 8192 ∷ loads_word 1 4100 lw_x6_x5 6 8192 8192 ∷ [])
        (λ w. ((w.harts 0).lines 256 ≡ a_line Shared stored_block no_marks)
        × ((w.harts 1).lines 256 ≡ a_line Shared stored_block no_marks)
        × ((w.entries 256).owner ≡ Nobody)
        × ((w.entries 256).sharers 0 ≡ true)
        × ((w.entries 256).sharers 1 ≡ true)
        × (w.memory 256 ≡ stored_block)) }
{}

/// A request overtakes the owner's Put: the forward is answered with the Put's words, and the Put, held until then, changes nothing.
pub fn a_put_is_overtaken()
    ensures { Reaches 4 2 load_and_store overtaken_steps
        (loads_word 0 4100 lw_x6_x5 6 8192 0 ∷ stores_word 0 4104 sw_x5_x5 8192 8192 ∷ loads_word 1 4100 lw_x6_x5 6 8192 8192 ∷ [])
        (λ w. ((w.harts 0).lines 256 ≡ None)
        × ((w.harts 0).put ≡ None)
        × ((w.entries 256).owner ≡ Nobody)
        × ((w.entries 256).sharers 0 ≡ true)
        × ((w.entries 256).sharers 1 ≡ true)
        × (w.memory 256 ≡ stored_block)) }
{}

/// A load of a block that nobody shares gives an E line. When it is given up it goes back with a Put, whose hart asks for nothing of the
/// block until the PutAck is there; then memory and the block's entry are as at the start.
pub fn an_exclusive_line_goes_back()
    ensures granted { Reaches 4 2 load_then_store exclusive_steps []
        (λ w. ((w.harts 0).lines 256 ≡ a_line Exclusive zeros no_marks)
        × ((w.entries 256).owner ≡ Owned 0)) }
    ensures given_up { Reaches 4 2 load_then_store written_back_steps
        (loads_word 0 4100 lw_x6_x5 6 8192 0 ∷ [])
        (λ w. ((w.harts 0).lines 256 ≡ None)
        × (w.net 0 ≡ Some (Put 0 256 zeros false))
        × ((w.entries 256).owner ≡ Owned 0)) }
    ensures over { Reaches 4 2 load_then_store returned_steps
        (loads_word 0 4100 lw_x6_x5 6 8192 0 ∷ [])
        (λ w. ((w.harts 0).lines 256 ≡ None)
        × ((w.harts 0).put ≡ None)
        × ((w.harts 0).request ≡ None)
        × (w.entries 256 ≡ first_entry)
        × (w.memory 256 ≡ zeros)) }
{}

/// A transaction shares a line that it has not used.
pub fn an_unused_line_is_shared()
    ensures { Reaches 4 2 load_then_store untouched_steps
        (loads_word 0 4100 lw_x6_x5 6 8192 0 ∷ loads_word 1 4100 lw_x6_x5 6 8192 0 ∷ [])
        (λ w. ((w.harts 0).lines 256 ≡ a_line Shared zeros no_marks)
        × ((w.harts 1).lines 256 ≡ a_line Shared zeros no_marks)
        × (option_map (λ t. t.depth) (w.harts 0).tx ≡ Some 1)) }
{}

/// A Put that comes when another hart has owned the block since, and given it up, overwrites nothing.
pub fn an_outdated_put_overwrites_nothing()
    ensures { Reaches 4 2 store_number outdated_steps
        (stores_word 0 4100 sw_x10_x5 8192 0 ∷ stores_word 1 4100 sw_x10_x5 8192 1 ∷ [])
        (λ w. (w.memory 256 ≡ 1 ∷ 0 ∷ 0 ∷ 0 ∷ 0 ∷ 0 ∷ 0 ∷ 0 ∷ [])
        × ((w.entries 256).owner ≡ Nobody)
        × ((w.harts 0).put ≡ None)
        × ((w.harts 1).put ≡ None)) }
{}

/// A hart that stores to a block that it shares asks for it to write: the other sharers are forwarded to, and their lines go. Its own
/// becomes modified, with the content and the marks that it had, and only then the store logs it and writes.
pub fn an_upgrade_keeps_the_line()
    ensures forwarded { Reaches 4 3 store_and_upgrade forwarded_steps
        (loads_word 0 4100 lw_x6_x5 6 8192 0 ∷ stores_word 0 4104 sw_x5_x5 8192 8192 ∷ loads_word 0 4112 lw_x6_x5 6 8192 8192 ∷ loads_word 1 4100 lw_x6_x5 6 8192 8192 ∷ loads_word 2 4100 lw_x6_x5 6 8192 8192 ∷ [])
        (λ w. (w.net 1 ≡ Some (Forward 1 256 Write 0 (Some (record { count = 0; hart = 0 }))))
        × (w.net 2 ≡ Some (Forward 2 256 Write 0 (Some (record { count = 0; hart = 0 }))))
        × ((w.harts 0).lines 256 ≡ a_line Shared stored_block (record no_marks { read = true }))) }
    ensures upgraded { Reaches 4 3 store_and_upgrade upgraded_steps
        (loads_word 0 4100 lw_x6_x5 6 8192 0 ∷ stores_word 0 4104 sw_x5_x5 8192 8192 ∷ loads_word 0 4112 lw_x6_x5 6 8192 8192 ∷ loads_word 1 4100 lw_x6_x5 6 8192 8192 ∷ loads_word 2 4100 lw_x6_x5 6 8192 8192 ∷ [])
        (λ w. ((w.harts 0).lines 256 ≡ a_line Modified stored_block (record no_marks { read = true }))
        × ((w.harts 1).lines 256 ≡ None)
        × ((w.harts 2).lines 256 ≡ None)
        × ((w.entries 256).owner ≡ Owned 0)
        × ((w.entries 256).sharers 1 ≡ false)
        × ((w.entries 256).sharers 2 ≡ false)) }
    ensures stored { Reaches 4 3 store_and_upgrade (upgraded_steps ++ cores 0 1)
        (loads_word 0 4100 lw_x6_x5 6 8192 0 ∷ stores_word 0 4104 sw_x5_x5 8192 8192 ∷ loads_word 0 4112 lw_x6_x5 6 8192 8192 ∷ loads_word 1 4100 lw_x6_x5 6 8192 8192 ∷ loads_word 2 4100 lw_x6_x5 6 8192 8192 ∷ stores_word 0 4116 sw_x5_4_x5 8196 8192 ∷ [])
        (λ w. ((w.harts 0).lines 256 ≡ a_line Modified (8192 ∷ 8192 ∷ 0 ∷ 0 ∷ 0 ∷ 0 ∷ 0 ∷ 0 ∷ []) (record { read = true; written = true; overflowed = false }))
        × (option_map (λ t. t.log) (w.harts 0).tx ≡ Some (record { block = 256; before = stored_block } ∷ []))) }
{}
