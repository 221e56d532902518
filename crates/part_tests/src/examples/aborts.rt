//! Aborts, and what stops a hart.
ghost use Rattle.std.specs.Prelude.{◌≡◌, length, true, false, Some, None, [], ◌∷◌};
ghost use Rattle.std.specs.Option.{option_map};
ghost use Rattle.words.specs.declared.entry.Entry.TheVariants.{Abort, Refuse, Spill};
ghost use Rattle.words.specs.declared.cause.AbortCause.TheVariants.{Asked, LogFull, Trapped};
ghost use Rattle.words.specs.declared.cause.Cause.TheVariants.{StoreText};
ghost use Rattle.words.specs.declared.cause.Status.TheVariants.{Running, Exited, Stopped};
ghost use Rattle.words.specs.declared.message.LineState.TheVariants.{Modified};
ghost use Rattle.words.specs.Marks.{no_marks};
ghost use Rattle.protocol.specs.Values.{raw, peek};
ghost use Rattle.part_tests.specs.Programs.{sw_x5_x5, sw_x11_x5, sw_x5_32_x5, store_and_abort, store_again_and_abort, store_to_text, exit};
ghost use Rattle.part_tests.specs.Examples.{cores, stores_word, zeros, stored_block, a_line, Leads, Reaches};
ghost use Rattle.part_tests.specs.Aborts.{aborting_steps, stored_again_steps, undone_twice_steps, logged};

/// A hart exits, and its next core step is not enabled.
pub fn an_exit_stops_a_hart()
    ensures { Reaches 4 1 exit (cores 0 4) [] (λ w. ((w.harts 0).status ≡ Exited 0) × ((w.harts 0).pc ≡ 4108)) }
{}

/// A trap in a transaction rolls it back first, and then stops the hart.
pub fn a_trap_rolls_the_transaction_back()
    ensures { Reaches 4 1 store_to_text (cores 0 5)
        (Abort 0 (Trapped StoreText 4104) ∷ [])
        (λ w. ((w.harts 0).status ≡ Stopped StoreText 4104)
        × ((w.harts 0).pc ≡ 4096)
        × ((w.harts 0).tx ≡ None)) }
{}

/// A transaction that is being aborted keeps others out until its log is undone.
pub fn an_abort_keeps_others_out()
    ensures { Reaches 4 2 store_and_abort aborting_steps
        (stores_word 0 4104 sw_x5_x5 8192 8192 ∷ Refuse 0 1 256 ∷ Abort 0 Asked ∷ [])
        (λ w. ((w.harts 0).lines 256 ≡ a_line Modified zeros no_marks)
        × ((w.harts 0).tx ≡ None)
        × ((w.harts 1).request ≡ None)
        × (raw 2 w 8193 ≡ 0)) }
{}

/// A transaction that stores again to a block that it had given up logs it again. Its abort undoes the newer record first, so the
/// words of before the first store are back.
pub fn the_newest_record_is_undone_first()
    ensures logged { Reaches 4 1 store_again_and_abort stored_again_steps
        (stores_word 0 4104 sw_x5_x5 8192 8192 ∷ Spill 0 256 ∷ stores_word 0 4108 sw_x11_x5 8192 1 ∷ [])
        (λ w. (option_map (λ t. t.log) (w.harts 0).tx
        ≡ Some (record { block = 256; before = stored_block } ∷ record { block = 256; before = zeros } ∷ []))
        × (option_map (λ l. l.marks) ((w.harts 0).lines 256) ≡ Some (record { read = false; written = true; overflowed = true }))
        × (raw 2 w 8192 ≡ 1)
        × (peek 2 w 8192 ≡ 0)) }
    ensures undone { Reaches 4 1 store_again_and_abort undone_twice_steps
        (stores_word 0 4104 sw_x5_x5 8192 8192 ∷ Spill 0 256 ∷ stores_word 0 4108 sw_x11_x5 8192 1 ∷ Abort 0 Asked ∷ [])
        (λ w. ((w.harts 0).lines 256 ≡ a_line Modified zeros no_marks)
        × ((w.harts 0).tx ≡ None)
        × (raw 2 w 8192 ≡ 0)
        × (raw 2 w 8193 ≡ 0)) }
{}

/// A log of 113 records is full: a store to a line that is logged goes on, and one to another line starts an abort, which ends once
/// all records are undone. With one record less, both go on.
pub fn a_full_log_starts_an_abort()
    ensures last { Leads 4 (logged 112) (cores 0 2)
        (stores_word 0 4104 sw_x5_32_x5 8224 8192 ∷ stores_word 0 4108 sw_x5_x5 8192 8192 ∷ [])
        (λ w. option_map (λ t. length t.log) (w.harts 0).tx ≡ Some 113) }
    ensures goes_on { Leads 4 (logged 113) (cores 0 1)
        (stores_word 0 4104 sw_x5_32_x5 8224 8192 ∷ [])
        (λ w. (option_map (λ t. t.aborting) (w.harts 0).tx ≡ Some None)
        × (option_map (λ t. length t.log) (w.harts 0).tx ≡ Some 113)
        × (raw 1 w 8225 ≡ 32)) }
    ensures starts { Leads 4 (logged 113) (cores 0 2)
        (stores_word 0 4104 sw_x5_32_x5 8224 8192 ∷ [])
        (λ w. (option_map (λ t. t.aborting) (w.harts 0).tx ≡ Some (Some LogFull))
        × ((w.harts 0).pc ≡ 4108)
        × ((w.harts 0).lines 256 ≡ a_line Modified zeros no_marks)) }
    ensures undone { Leads 4 (logged 113) (cores 0 116)
        (stores_word 0 4104 sw_x5_32_x5 8224 8192 ∷ Abort 0 LogFull ∷ [])
        (λ w. ((w.harts 0).tx ≡ None)
        × ((w.harts 0).status ≡ Running)
        × ((w.harts 0).pc ≡ 4096)
        × ((w.harts 0).lines 257 ≡ a_line Modified zeros no_marks)
        × (raw 1 w 8225 ≡ 0)) }
{}
