ghost use Rattle.std.specs.Prelude.{◌≡◌};
ghost use Rattle.cache.specs.Line.{filled};

use words::{Block, BlockNo, LineState, Marks};

/// A block that a cache holds, with the marks of its hart's running transaction.
#[derive(Clone, Copy, Debug, PartialEq, Eq)]
pub struct Line {
    pub block: BlockNo,
    pub content: Block,
    pub state: LineState,
    pub marks: Marks,
}

impl Line {
    /// A line that the running transaction has neither read nor written since.
    pub(crate) fn filled(block: BlockNo, content: Block, state: LineState, overflowed: bool) -> Self
        ensures { result ≡ filled block content state overflowed }
    {
        Line {
            block,
            content,
            state,
            marks: Marks {
                overflowed,
                ..Marks::none()
            },
        }
    }
}
