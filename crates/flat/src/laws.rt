ghost use Rattle.std.specs.Prelude.{◌≡◌, ◌≢◌, ◌↔◌, ◌++◌, ℕ, false, List, [], Option, Some, None, IsSome, IsSomeAnd, IsTrue, ◌/◌};
ghost use Rattle.words.specs.declared.entry.Entry.{Entry};
ghost use Rattle.words.specs.declared.entry.Entry.TheVariants.{Retire, Abort};
ghost use Rattle.words.specs.declared.entry.Access.{Access};
ghost use Rattle.words.specs.declared.cause.AbortCause.{AbortCause};
ghost use Rattle.flat.specs.State.{Setting, Flat, flat_view, has_written};
ghost use Rattle.flat.specs.Start.{first_state};
ghost use Rattle.flat.specs.Steps.{Carries, IsRun, hart_of};
ghost use Rattle.flat.specs.Isolation.{has_touched};
ghost use Rattle.words.specs.Bytes.{number_at};
ghost use Rattle.flat.specs.Order.{IsPlainRun, after_stores};
ghost use Rattle.flat.specs.Attempts.{IsAttempt, own_of, others_of, with_hart};

/// An entry carries a flat state to no more than one.
pub fn one_result()
    ensures { (f g h : Flat) (e : Entry) → Carries f e g → Carries f e h → g ≡ h }
{}

/// A run's entries determine its end.
pub fn one_end()
    ensures { (f g h : Flat) (es : List Entry) → IsRun f es g → IsRun f es h → g ≡ h }
{}

/// A run of two lists is a run of the first, and then one of the second.
pub fn run_of_two()
    ensures { (f h : Flat) (es fs : List Entry) → IsRun f (es ++ fs) h ↔ ((g : Flat) × IsRun f es g × IsRun g fs h) }
{}

/// Text, size of memory and number of harts stay as they are.
pub fn settings_stay()
    ensures entry { (f g : Flat) (e : Entry) → Carries f e g → g.setting ≡ f.setting }
    ensures run { (f g : Flat) (es : List Entry) → IsRun f es g → g.setting ≡ f.setting }
{}

/// An entry changes no hart but its own.
pub fn others_stay()
    ensures { (f g : Flat) (e : Entry) (j : ℕ) → Carries f e g → j ≢ hart_of e → g.hart j ≡ f.hart j }
{}

/// What a hart writes in a transaction it alone sees: an entry after which its hart is in a transaction changes neither memory
/// nor what another hart sees.
pub fn writes_are_seen_alone()
    ensures memory { (f g : Flat) (e : Entry) (a : ℕ) → Carries f e g → IsSome (g.hart (hart_of e)).tx → g.mem a ≡ f.mem a }
    ensures views { (f g : Flat) (e : Entry) (j a : ℕ) → Carries f e g → IsSome (g.hart (hart_of e)).tx → j ≢ hart_of e → flat_view g j a ≡ flat_view f j a }
{}

/// A commit is whole: where a hart retires the end of its transaction, memory becomes at each address what the hart saw there.
pub fn commits_are_whole()
    ensures { (f g : Flat) (i pc word a : ℕ) (write : Option (ℕ × ℕ)) (load store : Option Access) → Carries f (Retire i pc word write load store) g → IsSome (f.hart i).tx → (g.hart i).tx ≡ None → g.mem a ≡ flat_view f i a }
{}

/// An abort gives its hart the registers of the begin and the pc that the begin named, and ends the transaction. It changes
/// neither memory nor another hart nor what was put out.
pub fn aborts_leave_memory()
    ensures memory { (f g : Flat) (i a : ℕ) (c : AbortCause) → Carries f (Abort i c) g → g.mem a ≡ f.mem a }
    ensures others { (f g : Flat) (i j : ℕ) (c : AbortCause) → Carries f (Abort i c) g → j ≢ i → g.hart j ≡ f.hart j }
    ensures back { (f g : Flat) (i : ℕ) (c : AbortCause) → Carries f (Abort i c) g → IsSomeAnd (f.hart i).tx (λ t. ((g.hart i).regs ≡ t.checkpoint) × ((g.hart i).pc ≡ t.abort_pc)) }
    ensures outside { (f g : Flat) (i : ℕ) (c : AbortCause) → Carries f (Abort i c) g → (g.hart i).tx ≡ None }
    ensures output { (f g : Flat) (i : ℕ) (c : AbortCause) → Carries f (Abort i c) g → (g.hart i).output ≡ (f.hart i).output }
{}

/// Of two running transactions neither has written a block that the other has read or written.
pub fn transactions_keep_apart()
    ensures { (s : Setting) (entry : ℕ) (es : List Entry) (f : Flat) (i j b : ℕ) → IsRun (first_state s entry) es f → j ≢ i → IsTrue (has_written (f.hart i).tx b) → has_touched (f.hart j).tx b ≡ false }
{}

/// In a block that its transaction has not written a hart sees memory.
pub fn unwritten_blocks_are_memory()
    ensures { (s : Setting) (entry : ℕ) (es : List Entry) (f : Flat) (i a : ℕ) → IsRun (first_state s entry) es f → has_written (f.hart i).tx (a / 32) ≡ false → flat_view f i a ≡ f.mem a }
{}

/// Isolation: until a transaction ends, no other hart changes a byte in a block that it has read or written, neither in memory
/// nor as the transaction sees it.
pub fn touched_blocks_stay()
    ensures { (s : Setting) (entry : ℕ) (es : List Entry) (f g : Flat) (e : Entry) (i a : ℕ) → IsRun (first_state s entry) es f → Carries f e g → i ≢ hart_of e → IsTrue (has_touched (f.hart i).tx (a / 32)) → (g.mem a ≡ f.mem a) × (flat_view g i a ≡ flat_view f i a) }
{}

/// Serializability: a transaction is as if it ran alone. Of the entries from its begin on, those of the other harts can all come
/// first and then its own, and they end in the same state.
pub fn transactions_are_serial()
    ensures { (s : Setting) (entry : ℕ) (before : List Entry) (i : ℕ) (f g : Flat) (es : List Entry) → IsRun (first_state s entry) before f → IsAttempt i f es g → IsRun f (others_of i es ++ own_of i es) g }
{}

/// Nothing is left of a transaction that was aborted: strike its hart's entries from begin to abort, and the other harts' entries
/// are still a run, to the same end but for that hart, whose registers and output are those of before. So where no other hart's
/// entry stands between, memory is as before.
pub fn aborted_attempts_leave_nothing()
    ensures others { (i : ℕ) (f g h : Flat) (es : List Entry) (c : AbortCause) → IsAttempt i f es g → Carries g (Abort i c) h → IsRun f (others_of i es) (with_hart h i (f.hart i)) }
    ensures back { (i : ℕ) (f g h : Flat) (es : List Entry) (c : AbortCause) → IsAttempt i f es g → Carries g (Abort i c) h → ((h.hart i).regs ≡ (f.hart i).regs) × ((h.hart i).output ≡ (f.hart i).output) × ((h.hart i).tx ≡ None) }
    ensures memory { (i a : ℕ) (f g h : Flat) (es : List Entry) (c : AbortCause) → IsAttempt i f es g → Carries g (Abort i c) h → others_of i es ≡ [] → h.mem a ≡ f.mem a }
{}

/// Sequential consistency: in a run in which no hart is ever in a transaction, memory is at each moment what the stores before have made of
/// it, in their order, and a load gives what stands there then.
pub fn plain_runs_are_sequential()
    ensures memory { (f g : Flat) (es : List Entry) (a : ℕ) → IsPlainRun f es g → g.mem a ≡ after_stores es f.mem a }
    ensures loads { (f g h : Flat) (es : List Entry) (i pc word : ℕ) (write : Option (ℕ × ℕ)) (load : Access) (store : Option Access) → IsPlainRun f es g → Carries g (Retire i pc word write (Some load) store) h → load.value ≡ number_at (after_stores es f.mem) load.addr load.width }
{}
