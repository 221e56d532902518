ghost use Rattle.std.specs.Prelude.{◌≡◌, ◌≢◌, ◌≤◌, ◌<◌, ◌↔◌, ℕ, length, slice_get, Some, None, IsSome, IfSome, IfNone};
ghost use Rattle.std.specs.Option.{option_map};
ghost use Rattle.words.specs.Limits.{most_harts};
ghost use Rattle.flat.specs.State.{Flat};
ghost use Rattle.flat.specs.Reads.{shown_if};
ghost use Rattle.network.specs.Flights.{message_at, first_from};
ghost use Rattle.protocol.specs.Messages.{Message as MessageValue, shown as shown_message};
ghost use Rattle.protocol.specs.Directory.{first_entry};
ghost use Rattle.directory.specs.Blocks.{kept_at, IsInOrder};
ghost use Rattle.directory.specs.Entries.{shown_entry};
ghost use Rattle.hart.specs.Shown.{shown_line};
ghost use Rattle.isolation.specs.Belongs.{Belongs};
ghost use Rattle.isolation.specs.Facts.{IsAlike};
ghost use Rattle.machine.specs.Reads.{regs_if, info_of, log_word};

use crate::info::{TxInfo, info};
use crate::machine::Machine;
use crate::seat::Seat;
use cache::Line;
use directory::DirEntry;
use network::Flight;
use table::Text;
use words::{Addr, BLOCK_BYTES, BlockNo, HartId, LOG_BYTES, Message, Regs, Status};

/// A hart's registers, pc and status.
fn regs_in<const SETS: usize, const WAYS: usize>(
    seats: &[Seat<SETS, WAYS>],
    id: HartId,
) -> Option<(Regs, Addr, Status)>
    ensures { result ≡ option_map (λ s. (s.hart.regs, s.hart.pc, s.hart.status)) (slice_get seats.now id) }
{
    let seat = seats.get(id.index())?;
    Some((*seat.hart.registers(), seat.hart.pc(), seat.hart.status()))
}

/// What can be read of the machine. It is what the protocol's machine has, and what each flat state has that belongs to it.
impl<const SETS: usize, const WAYS: usize> Machine<SETS, WAYS> {
    ghost use Rattle.machine.specs.States.{shown, geometry};

    /// How many harts there are.
    pub fn harts(&self) -> usize
        ensures value { result ≡ (shown SETS self.now).setting.count }
        ensures few { result ≤ most_harts }
        ensures flat { (f : Flat) → Belongs (geometry SETS WAYS) f (shown SETS self.now) → result ≡ f.setting.count }
    {
        self.directory.harts()
    }

    /// How many bytes memory has.
    pub fn size(&self) -> usize
        ensures value { result ≡ (shown SETS self.now).setting.size }
        ensures flat { (f : Flat) → Belongs (geometry SETS WAYS) f (shown SETS self.now) → result ≡ f.setting.size }
    {
        BLOCK_BYTES * self.directory.blocks()
    }

    /// The words that the program can fetch.
    pub fn text(&self) -> Text<'_>
        ensures value { result.segments.now ≡ (shown SETS self.now).setting.segments }
        ensures flat { (f : Flat) → Belongs (geometry SETS WAYS) f (shown SETS self.now) → result.segments.now ≡ f.setting.segments }
    {
        self.program.text()
    }

    /// A hart's registers, pc and status. `None` where there is no such hart.
    pub fn regs(&self, id: HartId) -> Option<(Regs, Addr, Status)>
        ensures value { result ≡ regs_if (shown SETS self.now) id }
        ensures flat { (f : Flat) → Belongs (geometry SETS WAYS) f (shown SETS self.now) → result ≡ shown_if f id }
    {
        regs_in(&self.seats, id)
    }

    /// The bytes that a hart has put out, in order.
    pub fn output(&self, id: HartId) -> &[u8]
        requires { id < (shown SETS self.now).setting.count }
        ensures value { result.now ≡ ((shown SETS self.now).harts id).output }
        ensures flat { (f : Flat) → Belongs (geometry SETS WAYS) f (shown SETS self.now) → result.now ≡ (f.hart id).output }
    {
        &self.seats[id.index()].output
    }

    /// Whether a hart was granted a request, and has made no core step since. A number that is no hart's is not fresh.
    pub fn fresh(&self, id: HartId) -> bool
        ensures { result ≡ ((shown SETS self.now).harts id).fresh }
    {
        match self.seats.get(id.index()) {
            Some(seat) => seat.hart.is_fresh(),
            None => false,
        }
    }

    /// A hart's line of a block. `None` where there is no such hart.
    pub fn line(&self, id: HartId, block: BlockNo) -> Option<Line>
        ensures value { option_map shown_line result ≡ ((shown SETS self.now).harts id).lines block }
        ensures block { IfSome result (λ line. line.block ≡ block) }
    {
        let seat = self.seats.get(id.index())?;
        seat.hart.line(block)
    }

    /// A hart's transaction, if it runs one. `None` where there is no such hart.
    pub fn tx(&self, id: HartId) -> Option<TxInfo>
        ensures { result ≡ option_map info_of ((shown SETS self.now).harts id).tx }
    {
        let seat = self.seats.get(id.index())?;
        info(seat.hart.transaction())
    }

    /// What the directory knows of a block.
    pub fn entry(&self, block: BlockNo) -> DirEntry
        ensures { shown_entry result ≡ (shown SETS self.now).entries block }
    {
        self.directory.entry(block)
    }

    /// How many entries of the directory are in use: one for each block whose entry isn't the first one.
    pub fn used(&self) -> usize
        ensures count { result ≡ length self.now.directory.kept }
        ensures order { IsInOrder self.now.directory }
        ensures exact { (b : ℕ) → IsSome (kept_at self.now.directory b) ↔ ((shown SETS self.now).entries b ≢ first_entry) }
    {
        self.directory.used()
    }

    /// The message in flight with a number.
    pub fn message(&self, number: u64) -> Option<Message>
        ensures value { option_map shown_message result ≡ (shown SETS self.now).net number }
        ensures flight { result ≡ message_at self.now.flights number }
        // Of its sort, block and hart it is the only one.
        ensures alone { IfSome result (λ m. (other : ℕ) (n : MessageValue) → (shown SETS self.now).net other ≡ Some n → IsAlike n (shown_message m) → other ≡ number) }
    {
        self.net.get(number)
    }

    /// The first message in flight that has this number or a greater one: so all are met in the order of sending.
    pub fn next_from(&self, number: u64) -> Option<&Flight>
        ensures { option_map (λ flight. flight.now) result ≡ first_from number self.now.flights }
    {
        self.net.next_from(number)
    }

    /// The word at an address of the undo logs, which lie at the top of memory, that of hart 0 highest. `None` where the address isn't a
    /// multiple of 4 in them. A log's bytes stay where its records are undone.
    pub fn log_word(&self, addr: Addr) -> Option<u32>
        ensures { result ≡ log_word self.now addr }
    {
        let above = self.size().checked_sub(addr.index() + 1)?;
        let seat = self.seats.get(above / LOG_BYTES)?;
        seat.hart.log_word(addr)
    }
}
