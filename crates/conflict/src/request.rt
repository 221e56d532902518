ghost use Rattle.std.specs.Prelude.{◌≡◌, ◌≤◌, ◌||◌, ◌↔◌, ℕ, Option, IsTrue, IsFalse};
ghost use Rattle.words.specs.Harts.{names};
ghost use Rattle.words.specs.Limits.{most_harts};
ghost use Rattle.conflict.specs.Requests.{shown_granted, shown_request};
ghost use Rattle.conflict.specs.Answers.{Keeps, AwaitsNone};
ghost use Rattle.protocol.specs.Requests.{new_request, with_grant, with_ack, with_nack, have_answered, content_back};

use words::{Block, BlockNo, HartId, HartSet, Kind, LineState};

/// What the directory gives to a request: how its hart may hold the block, memory's content, and the harts whose answers the
/// request awaits.
#[derive(Clone, Copy, Debug, PartialEq, Eq)]
pub struct Granted {
    pub content: Block,
    pub give: LineState,
    pub expect: HartSet,
}

/// A request that is out, and what is kept of its answers.
#[derive(Clone, Copy, Debug, PartialEq, Eq)]
pub struct Request {
    pub block: BlockNo,
    pub kind: Kind,
    pub grant: Option<Granted>,
    /// The harts that have acknowledged or refused.
    pub answered: HartSet,
    /// Whether one refused.
    pub refused: bool,
    /// The content that one gave.
    pub content: Option<Block>,
    /// Whether one with an earlier stamp refused.
    pub earlier: bool,
}

/// A Put that the directory hasn't acknowledged yet.
#[derive(Clone, Copy, Debug, PartialEq, Eq)]
pub struct PutOut {
    pub block: BlockNo,
    pub content: Block,
    /// Whether the running transaction had, or may have, used the line.
    pub marked: bool,
}

impl Request {
    /// A request without answers.
    pub fn new(block: BlockNo, kind: Kind) -> Self
        ensures { shown_request result ≡ new_request block kind }
    {
        Request {
            block,
            kind,
            grant: None,
            answered: HartSet::empty(),
            refused: false,
            content: None,
            earlier: false,
        }
    }

    /// Keeps its grant.
    fn keep_grant(&mut self, granted: &Granted)
        ensures { shown_request self.new ≡ with_grant (shown_granted granted.now) (shown_request self.old) }
    {
        self.grant = Some(*granted);
    }

    /// Keeps an acknowledgement.
    fn keep_ack(&mut self, from: HartId, content: &Option<Block>)
        ensures { shown_request self.new ≡ with_ack from content.now (shown_request self.old) }
    {
        self.answered.insert(from);
        if content.is_some() {
            self.content = *content;
        }
    }

    /// Keeps a refusal, of a transaction that is earlier or not.
    fn keep_nack(&mut self, from: HartId, is_earlier: bool)
        ensures { shown_request self.new ≡ with_nack from is_earlier (shown_request self.old) }
    {
        self.answered.insert(from);
        self.refused = true;
        self.earlier = self.earlier || is_earlier;
    }
}

/// Keeps a block's grant with the request that is out for it. The answer is whether there is one.
#[inline(always)]
pub fn keep_grant(out: &mut Option<Request>, block: BlockNo, granted: &Granted) -> bool
    ensures kept { IsTrue result → Keeps (with_grant (shown_granted granted.now)) block out.old out.new }
    ensures none { IsFalse result → AwaitsNone block out.old × (out.new ≡ out.old) }
{
    match out {
        Some(request) if request.block == block => {
            request.keep_grant(granted);
            true
        }
        _ => false,
    }
}

/// Keeps a hart's acknowledgement with the request for a block, if one is out, and answers whether one is.
#[inline(always)]
pub fn keep_ack(
    out: &mut Option<Request>,
    block: BlockNo,
    from: HartId,
    content: &Option<Block>,
) -> bool
    ensures kept { IsTrue result → Keeps (with_ack from content.now) block out.old out.new }
    ensures none { IsFalse result → AwaitsNone block out.old × (out.new ≡ out.old) }
{
    match out {
        Some(request) if request.block == block => {
            request.keep_ack(from, content);
            true
        }
        _ => false,
    }
}

/// Keeps a hart's refusal, by a transaction that is earlier or not, with the request for a block, if one is out, and answers whether one is.
#[inline(always)]
pub fn keep_nack(out: &mut Option<Request>, block: BlockNo, from: HartId, is_earlier: bool) -> bool
    ensures kept { IsTrue result → Keeps (with_nack from is_earlier) block out.old out.new }
    ensures none { IsFalse result → AwaitsNone block out.old × (out.new ≡ out.old) }
{
    match out {
        Some(request) if request.block == block => {
            request.keep_nack(from, is_earlier);
            true
        }
        _ => false,
    }
}

/// Whether each of the first harts that is expected has answered.
pub fn have_answered(expect: &HartSet, answered: &HartSet, harts: usize) -> bool
    requires { harts ≤ most_harts }
    ensures { result ≡ have_answered harts (names expect.now) (names answered.now) }
{
    expect.below(harts).is_subset(answered)
}

/// What a requester tells the directory of the content that it was given: memory needs it only where the block is shared from now
/// on.
pub fn content_back(give: LineState, content: Option<Block>) -> Option<Block>
    ensures { result ≡ content_back give content }
{
    match give {
        LineState::Shared => content,
        LineState::Exclusive | LineState::Modified => None,
    }
}

pub fn same_request(a: &Option<Request>, b: &Option<Request>) -> bool
    ensures { IsTrue result ↔ (a.now ≡ b.now) }
{
    *a == *b
}

pub fn same_put(a: &Option<PutOut>, b: &Option<PutOut>) -> bool
    ensures { IsTrue result ↔ (a.now ≡ b.now) }
{
    *a == *b
}
