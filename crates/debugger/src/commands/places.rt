//! The harts and addresses of a command, tested against the machine.
ghost use Rattle.std.specs.Prelude.{◌≡◌};
ghost use Rattle.debugger.specs.Refusals.{unless, hart_fault, word_fault, log_fault, text_fault};
ghost use Rattle.machine.specs.States.{setting_of};

use crate::commands::fault::DebugFault;
use machine::Machine;
use words::{Addr, HartId};

/// The hart with a number.
pub fn hart_of<const SETS: usize, const WAYS: usize>(
    machine: &Machine<SETS, WAYS>,
    number: u32,
) -> Result<HartId, DebugFault>
    ensures { result ≡ unless (hart_fault (setting_of machine.now) number) number }
{
    if number as usize >= machine.harts() {
        return Err(DebugFault::NoHart);
    }
    Ok(HartId::new(number as u8))
}

/// The address of a word of memory.
pub fn word_at<const SETS: usize, const WAYS: usize>(
    machine: &Machine<SETS, WAYS>,
    address: u32,
) -> Result<Addr, DebugFault>
    ensures { result ≡ unless (word_fault (setting_of machine.now) address) address }
{
    let addr = Addr::new(address);
    if machine.is_readable(addr) {
        Ok(addr)
    } else {
        Err(DebugFault::Address)
    }
}

/// The address of a word of the undo logs.
pub(crate) fn logged_at<const SETS: usize, const WAYS: usize>(
    machine: &Machine<SETS, WAYS>,
    address: u32,
) -> Result<Addr, DebugFault>
    ensures { result ≡ unless (log_fault machine.now address) address }
{
    let addr = Addr::new(address);
    if machine.log_word(addr).is_some() {
        Ok(addr)
    } else {
        Err(DebugFault::Address)
    }
}

/// The address of a word of text.
pub fn text_at<const SETS: usize, const WAYS: usize>(
    machine: &Machine<SETS, WAYS>,
    address: u32,
) -> Result<Addr, DebugFault>
    ensures { result ≡ unless (text_fault (setting_of machine.now) address) address }
{
    let addr = Addr::new(address);
    if address % 4 == 0 && machine.text().word(addr).is_some() {
        Ok(addr)
    } else {
        Err(DebugFault::Address)
    }
}
