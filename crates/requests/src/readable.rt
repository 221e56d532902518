//! The words that a user asks to be shown.
ghost use Rattle.std.specs.Prelude.{◌≡◌, IfOk, IfErr, OnOk};
ghost use Rattle.flat.specs.Reads.{is_readable};
ghost use Rattle.render.specs.Reports.{AllReadable};
ghost use Rattle.requests.specs.Runs.{addresses};
ghost use Rattle.requests.specs.Unreadable.{IsUnreadable};

use crate::fault::Fault;
use command_line::Word;
use flat::Engine;
use std::alloc::Global;
use words::Addr;

fn is_readable<M: Engine>(machine: &M, addr: Addr) -> bool
    ensures { result ≡ is_readable (M.setting machine.now) addr }
{
    machine.peek(addr).is_some()
}

/// The addresses of some words, each of which the machine can read. A fault is the first word that it can't, or want of
/// memory.
pub fn readable<'a, M: Engine>(
    alloc: Global,
    machine: &M,
    words: &[Word<'a>],
) -> Result<Vec<Addr>, Fault<'a>>
    ensures same { IfOk result (λ addrs. addrs.items ≡ addresses words.now) }
    ensures all { OnOk result (AllReadable (M.setting machine.now) (addresses words.now)) }
    ensures refused { IfErr result (IsUnreadable (M.setting machine.now) words.now) }
{
    let mut addrs = Vec::new(alloc);
    for word in words {
        let addr = Addr::new(word.addr);
        if !is_readable(machine, addr) {
            return Err(Fault::Word(word.text));
        }
        addrs.push(addr)?;
    }
    Ok(addrs)
}
