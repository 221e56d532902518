ghost use Rattle.std.specs.Prelude.{◌≡◌, ◌≢◌, ◌<◌, ◌≤◌, ◌+◌, ◌∷◌, [], ◌++◌, ◌&&◌, ◌==◌, ℕ, true, false, not, unwrap_or, None};
ghost use Rattle.arrayvec.specs.ArrayVec.{array_vec_len};
ghost use Rattle.words.specs.Harts.{names};
ghost use Rattle.words.specs.Limits.{most_harts};
ghost use Rattle.protocol.specs.Directory.{is_alone, give_shared, given_now, expected_now, must_answer, forwards, is_owned_by, owner_done, sharer_done, memory_done};
ghost use Rattle.protocol.specs.Messages.{Block as BlockWords, shown, Forward};
ghost use Rattle.directory.specs.Entries.{shown_owner, shown_entry};
ghost use Rattle.directory.specs.Sends.{messages_of};

use crate::entry::{DirEntry, Owner};
use crate::received::{Outgoing, Sends};
use arrayvec::ArrayVec;
use words::{Block, BlockNo, HARTS, HartId, HartSet, Kind, LineState, Message, Stamp};

/// Whether no hart of the machine but this one is a sharer.
fn is_alone(sharers: &HartSet, hart: HartId, harts: usize) -> bool
    requires { harts ≤ most_harts }
    ensures { result ≡ is_alone harts hart (names sharers.now) }
{
    let mut others = sharers.below(harts);
    others.remove(hart);
    others.is_empty()
}

/// S for a read and M for a write.
fn give_shared(kind: Kind) -> LineState
    ensures { result ≡ give_shared kind }
{
    match kind {
        Kind::Read => LineState::Shared,
        Kind::Write => LineState::Modified,
    }
}

/// What a hart is given. A read of a block that no other hart has gets E, as in the MESI protocol (Papamarcos and Patel, ISCA
/// 1984). An owner always gets M, so that what a sticky owner wrote is never in a line that others share.
pub(crate) fn given(entry: &DirEntry, hart: HartId, kind: Kind, harts: usize) -> LineState
    requires { harts ≤ most_harts }
    ensures { result ≡ given_now harts hart kind (shown_entry entry.now) }
{
    match entry.owner {
        Owner::Nobody => match kind {
            Kind::Read if is_alone(&entry.sharers, hart, harts) => LineState::Exclusive,
            _ => give_shared(kind),
        },
        Owner::Owned(owner) | Owner::Sticky(owner) => {
            if owner.index() == hart.index() {
                LineState::Modified
            } else {
                give_shared(kind)
            }
        }
    }
}

/// The set of one hart.
fn only(hart: HartId) -> HartSet
    ensures this { names result hart ≡ true }
    ensures others { (h : ℕ) → h ≢ hart → names result h ≡ false }
{
    let mut set = HartSet::empty();
    set.insert(hart);
    set
}

/// The harts that may have to refuse or to give up the block.
fn concerned(entry: &DirEntry, kind: Kind) -> HartSet
    ensures { (r h : ℕ) → must_answer (shown_owner entry.now.owner) (names entry.now.sharers) r kind h
        ≡ (not (h == r) && names result h) }
{
    match entry.owner {
        Owner::Nobody => match kind {
            Kind::Read => HartSet::empty(),
            Kind::Write => entry.sharers,
        },
        Owner::Owned(owner) | Owner::Sticky(owner) => only(owner),
    }
}

/// The harts whose answers a requester has to await.
pub(crate) fn expected(entry: &DirEntry, hart: HartId, kind: Kind) -> HartSet
    ensures { names result ≡ expected_now hart kind (shown_entry entry.now) }
{
    let mut expect = concerned(entry, kind);
    expect.remove(hart);
    expect
}

/// A request for a block.
#[derive(Clone, Copy, Debug, PartialEq, Eq)]
pub struct Request {
    pub requester: HartId,
    pub block: BlockNo,
    pub kind: Kind,
    pub stamp: Option<Stamp>,
}

/// A request, forwarded to a hart.
fn forward_to(to: HartId, request: &Request) -> Outgoing
    ensures { shown result.message ≡ Forward to request.now.block request.now.kind request.now.requester request.now.stamp }
{
    Outgoing {
        message: Message::Forward {
            to,
            block: request.block,
            kind: request.kind,
            requester: request.requester,
            stamp: request.stamp,
        },
    }
}

/// Forwards a request to each hart that has to answer, by rising number.
pub(crate) fn forward(sends: &mut Sends, expect: &HartSet, request: &Request, harts: usize)
    requires harts { harts ≤ most_harts }
    requires others { names expect.now request.now.requester ≡ false }
    requires room { array_vec_len sends.old ≤ 1 }
    ensures { messages_of sends.new ≡ messages_of sends.old
        ++ forwards harts (names expect.now) request.now.block request.now.kind request.now.requester request.now.stamp }
{
    let asked = expect.below(harts);
    let mut from = 0;
    while let Some(to) = asked.next(from) {
        push(sends, &forward_to(to, request));
        from = to.index() + 1;
    }
}

/// Appends a copy of an item. Generic and by reference, since the check can't follow a message by value into the vector's own
/// method.
pub(crate) fn push<T: Copy>(list: &mut ArrayVec<T, HARTS>, item: &T)
    requires { array_vec_len list.old < most_harts }
    ensures items { list.new.items ≡ list.old.items ++ item.now ∷ [] }
    ensures len { array_vec_len list.new ≡ array_vec_len list.old + 1 }
{
    list.push(*item);
}

/// Who owns a block once a hart has what it was given.
fn owner_after(hart: HartId, give: LineState) -> Owner
    ensures { shown_owner result ≡ owner_done hart give }
{
    match give {
        LineState::Shared => Owner::Nobody,
        LineState::Exclusive | LineState::Modified => Owner::Owned(hart),
    }
}

/// Who shares a block once a hart has what it was given: the hart beside the sharers, or beside the owner that it read from. A
/// sticky owner has no line.
fn sharers_after(entry: &DirEntry, hart: HartId, give: LineState) -> HartSet
    ensures { (h : ℕ) → names result h ≡ sharer_done (shown_owner entry.now.owner) (names entry.now.sharers) hart give h }
{
    if give != LineState::Shared {
        return HartSet::empty();
    }
    let mut sharers = match entry.owner {
        Owner::Nobody => entry.sharers,
        Owner::Owned(owner) => only(owner),
        Owner::Sticky(_) => HartSet::empty(),
    };
    sharers.insert(hart);
    sharers
}

/// What memory gets of a block where a request is over, if anything: the content of an owner that was read, if it was sent along.
#[inline(always)]
pub(crate) fn words_back(
    entry: &DirEntry,
    give: LineState,
    content: &Option<Block>,
) -> Option<Block>
    ensures { (memory : BlockWords) → memory_done (shown_owner entry.now.owner) give content.now memory ≡ unwrap_or result memory }
{
    match (entry.owner, give) {
        (Owner::Owned(_), LineState::Shared) => *content,
        _ => None,
    }
}

/// The entry once a request was granted, and its hart has what it was given.
#[inline(always)]
pub(crate) fn granted(entry: &DirEntry, hart: HartId, give: LineState) -> DirEntry
    ensures { shown_entry result ≡ record {
      owner = owner_done hart give;
      sharers = sharer_done (shown_owner entry.now.owner) (names entry.now.sharers) hart give;
      busy = None;
    } }
{
    DirEntry {
        owner: owner_after(hart, give),
        sharers: sharers_after(entry, hart, give),
        busy: None,
    }
}

/// Whether a hart owns the block, and hasn't given it up.
pub(crate) fn is_owned_by(entry: &DirEntry, hart: HartId) -> bool
    ensures { result ≡ is_owned_by hart (shown_owner entry.now.owner) }
{
    match entry.owner {
        Owner::Owned(owner) => owner.index() == hart.index(),
        Owner::Nobody | Owner::Sticky(_) => false,
    }
}
