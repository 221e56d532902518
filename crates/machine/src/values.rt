ghost use Rattle.std.specs.Prelude.{◌≡◌, ◌<◌, ◌%◌, ◌^◌, ℕ, length};
ghost use Rattle.std.specs.Option.{option_and_then};
ghost use Rattle.words.specs.declared.entry.Width.TheVariants.{Word};
ghost use Rattle.words.specs.Bytes.{number_at};
ghost use Rattle.protocol.specs.Lines.{owned_content, byte_in};
ghost use Rattle.protocol.specs.Hart.{put_content};
ghost use Rattle.protocol.specs.Network.{LiesBelow};
ghost use Rattle.protocol.specs.Machine.{Machine};
ghost use Rattle.protocol.specs.Values.{first_below, kept_content, owner_with, in_place, all_restored};
ghost use Rattle.directory.specs.Entries.{shown_entry};
ghost use Rattle.machine.specs.Mail.{in_flight};
ghost use Rattle.machine.specs.States.{State, shown, hart_at, words_of};

use crate::flights::{acknowledged, finished, has_done};
use crate::seat::Seat;
use directory::{DirEntry, Directory, Owner};
use network::Net;
use words::{Addr, BLOCK_WORDS, Block, BlockNo, HartId};

/// The owner of a block with this entry: the requester that was given E or M, from its Done on, else the owner that the entry names.
fn owner(net: &Net, entry: &DirEntry, block: BlockNo) -> Option<HartId>
    ensures { (keys : ℕ) → LiesBelow keys (in_flight net.now.flights) →
        result ≡ owner_with keys (in_flight net.now.flights) block (shown_entry entry.now).busy (shown_entry entry.now).owner }
{
    if let Some(busy) = &entry.busy {
        if busy.give.is_owned() && has_done(net, busy.requester, block) {
            return Some(busy.requester);
        }
    }
    match entry.owner {
        Owner::Owned(hart) => Some(hart),
        Owner::Nobody | Owner::Sticky(_) => None,
    }
}

/// The content of the owner's E or M line of a block.
fn owned<const SETS: usize, const WAYS: usize>(
    seats: &[Seat<SETS, WAYS>],
    owner: &Option<HartId>,
    block: BlockNo,
) -> Option<Block>
    ensures { result ≡ option_and_then (λ i. owned_content ((hart_at SETS seats.now i).lines block)) owner.now }
{
    let seat = seats.get((*owner)?.index())?;
    seat.hart.owned_content(block)
}

/// The content of the owner's Put of a block.
fn put<const SETS: usize, const WAYS: usize>(
    seats: &[Seat<SETS, WAYS>],
    owner: &Option<HartId>,
    block: BlockNo,
) -> Option<Block>
    ensures { result ≡ option_and_then (λ i. put_content block (hart_at SETS seats.now i).put) owner.now }
{
    let seat = seats.get((*owner)?.index())?;
    seat.hart.put_content(block)
}

/// The content that a request for a block has kept.
fn kept<const SETS: usize, const WAYS: usize>(
    seats: &[Seat<SETS, WAYS>],
    block: BlockNo,
) -> Option<Block>
    ensures { result ≡ first_below (length seats.now) (λ i. kept_content block (hart_at SETS seats.now i).request) }
{
    for seat in seats {
        if let Some(content) = seat.hart.kept_content(block) {
            return Some(content);
        }
    }
    None
}

/// The words of a block in memory. Beyond memory there are zeros.
fn in_memory(directory: &Directory, block: BlockNo) -> Block
    ensures { result ≡ words_of directory.now.memory block }
{
    if block.index() < directory.blocks() {
        directory.memory(block)
    } else {
        [0; BLOCK_WORDS]
    }
}

/// The words of a block in place: the first that there is of the owner's E or M line, an acknowledgement in flight, the content that a
/// request has kept, a Done in flight, the owner's Put, and memory.
pub(crate) fn in_place<const SETS: usize, const WAYS: usize>(
    seats: &[Seat<SETS, WAYS>],
    directory: &Directory,
    net: &Net,
    block: BlockNo,
) -> Block
    ensures { (m : State) (keys : ℕ) → m.seats ≡ seats.now → m.directory ≡ directory.now → m.flights ≡ net.now.flights →
        LiesBelow keys (shown SETS m).net → result ≡ in_place keys (shown SETS m) block }
{
    let owner = owner(net, &directory.entry(block), block);
    if let Some(content) = owned(seats, &owner, block) {
        return content;
    }
    if let Some(content) = acknowledged(net, block) {
        return content;
    }
    if let Some(content) = kept(seats, block) {
        return content;
    }
    if let Some(content) = finished(net, block) {
        return content;
    }
    if let Some(content) = put(seats, &owner, block) {
        return content;
    }
    in_memory(directory, block)
}

/// The words of a block once the logs of all harts are undone.
pub(crate) fn restored<const SETS: usize, const WAYS: usize>(
    seats: &[Seat<SETS, WAYS>],
    block: BlockNo,
    now: Block,
) -> Block
    ensures { (w : Machine) → w.harts ≡ hart_at SETS seats.now → result ≡ all_restored (length seats.now) w block now }
{
    let mut words = now;
    for seat in seats {
        let undone = seat.hart.restored(block, words);
        words = undone;
    }
    words
}

/// The word at an address, in the words of its block.
pub(crate) fn word_in(words: &Block, addr: Addr) -> u32
    requires { addr % 4 ≡ 0 }
    ensures { result ≡ number_at (byte_in words.now) addr Word }
{
    words[addr.index() / 4 % BLOCK_WORDS]
}
