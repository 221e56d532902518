ghost use Rattle.std.specs.Prelude.{◌≡◌, ◌<◌, ◌≤◌, ◌+◌, ◌-◌, ◌*◌, ◌^◌, ◌↔◌, ℕ, [], IsTrue, IsSome, Option, None, replicate};
ghost use Rattle.std.specs.Option.{option_map};
ghost use Rattle.words.specs.Limits.{most_harts, log_bytes};
ghost use Rattle.undo_log.specs.Log.{empty_log};
ghost use Rattle.flat.specs.State.{Setting};
ghost use Rattle.flat.specs.Start.{first_regs};
ghost use Rattle.protocol.specs.Start.{start};

use cache::{Cache, Line};
use conflict::{PutOut, Request};
use std::marker::Model;
use transaction::Tx;
use words::{Addr, BlockNo, HartId, LOG_BYTES, Reg, Regs, STACK_BYTES, Status};

/// A hart, with a cache of SETS sets of WAYS lines. What it has put out stands in its machine. Whether two are one, [`Hart::same`] tells. It keeps the first
/// address of the undo logs, which each access is compared with.
#[derive(Clone, Copy, Debug)]
pub struct Hart<const SETS: usize, const WAYS: usize> {
    pub(crate) index: HartId,
    pub(crate) harts: usize,
    pub(crate) size: usize,
    pub(crate) logs_from: usize,
    pub(crate) pc: Addr,
    pub(crate) status: Status,
    pub(crate) fresh: bool,
    /// The block that LR has reserved.
    pub(crate) reserved: Option<BlockNo>,
    pub(crate) request: Option<Request>,
    pub(crate) put: Option<PutOut>,
    pub(crate) regs: Regs,
    pub(crate) tx: Tx,
    pub(crate) cache: Cache<SETS, WAYS>,
}

impl<const SETS: usize, const WAYS: usize> Model for Hart<SETS, WAYS> {
    ghost use Rattle.std.specs.Prelude.{◌≡◌, ◌-◌, ◌*◌};
    ghost use Rattle.std.proofs.Common.{sym};
    ghost use Rattle.words.specs.Limits.{log_bytes};
    ghost use Rattle.hart.specs.Parts.{Parts, IsSound};

    ghost Value = { Parts };

    ghost view = { λ h. record {
      index = h.index;
      harts = h.harts;
      size = h.size;
      regs = h.regs;
      pc = h.pc;
      status = h.status;
      tx = h.tx;
      cache = h.cache;
      reserved = h.reserved;
      request = h.request;
      put = h.put;
      fresh = h.fresh;
    } };

    ghost invariant = { λ h. IsSound SETS (record {
      index = h.index;
      harts = h.harts;
      size = h.size;
      regs = h.regs;
      pc = h.pc;
      status = h.status;
      tx = h.tx;
      cache = h.cache;
      reserved = h.reserved;
      request = h.request;
      put = h.put;
      fresh = h.fresh;
    }) × (h.logs_from ≡ h.size - log_bytes * h.harts) };

    ghost inverse = { λ p. record {
      index = p.index;
      harts = p.harts;
      size = p.size;
      logs_from = p.size - log_bytes * p.harts;
      pc = p.pc;
      status = p.status;
      fresh = p.fresh;
      reserved = p.reserved;
      request = p.request;
      put = p.put;
      regs = p.regs;
      tx = p.tx;
      cache = p.cache;
    } };

    ghost inverse_ok = { λ h sound. λ i. record {
      index = h.index;
      harts = h.harts;
      size = h.size;
      logs_from = sym sound.1 i;
      pc = h.pc;
      status = h.status;
      fresh = h.fresh;
      reserved = h.reserved;
      request = h.request;
      put = h.put;
      regs = h.regs;
      tx = h.tx;
      cache = h.cache;
    } };
}

/// The registers at the boot: sp is the top of the hart's stack, a0 its number, a1 the number of harts.
fn first_regs(index: HartId, harts: usize, size: usize) -> Regs
    requires size { size < 2 ^ 32 }
    requires few { harts ≤ most_harts }
    ensures { (s : Setting) → s.size ≡ size → s.count ≡ harts → result ≡ first_regs s index }
{
    let logs_from = size.saturating_sub(harts * LOG_BYTES);
    let stack_top = logs_from.saturating_sub(index.index() * STACK_BYTES);
    let mut regs = Regs::new();
    regs.write(Reg::new(2), stack_top as u32);
    regs.write(Reg::new(10), index.index() as u32);
    regs.write(Reg::new(11), harts as u32);
    regs
}

impl<const SETS: usize, const WAYS: usize> Hart<SETS, WAYS> {
    ghost use Rattle.hart.specs.Shown.{shown_hart, shown_tx, lines_of};

    /// A hart as a machine of so many harts and bytes of memory begins with it, at the program's entry.
    pub fn new(index: HartId, harts: usize, size: usize, entry: Addr) -> Self
        requires sets { 0 < SETS }
        requires ways { 0 < WAYS }
        requires lines { SETS * WAYS < 2 ^ 32 }
        requires hart { index < harts }
        requires few { harts ≤ most_harts }
        requires size { size < 2 ^ 32 }
        ensures start { (s : Setting) → s.size ≡ size → s.count ≡ harts →
            shown_hart SETS [] result ≡ (start s entry).harts index }
        ensures index { result.index ≡ index }
        ensures harts { result.harts ≡ harts }
        ensures size { result.size ≡ size }
        ensures log { result.tx.log ≡ empty_log (size - log_bytes * (index + 1)) }
        ensures cache { result.cache ≡ replicate SETS (replicate WAYS None) }
    {
        let base = size.saturating_sub(LOG_BYTES * (index.index() + 1));
        Hart {
            index,
            harts,
            size,
            logs_from: size.saturating_sub(harts * LOG_BYTES),
            pc: entry,
            status: Status::Running,
            fresh: false,
            reserved: None,
            request: None,
            put: None,
            regs: first_regs(index, harts, size),
            tx: Tx::new(Addr::new(base as u32)),
            cache: Cache::new(),
        }
    }
}
