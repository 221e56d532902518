ghost use Rattle.std.specs.Prelude.{◌≡◌};
ghost use Rattle.words.specs.Marks.{no_marks, is_marked};

/// What a running transaction did with a line of its hart's cache: the R and W bits of LogTM (Moore and others, HPCA 2006), and
/// one more.
#[derive(Clone, Copy, Debug, PartialEq, Eq)]
pub struct Marks {
    /// R: it has read the block.
    pub read: bool,
    /// W: it has written the block.
    pub written: bool,
    /// X: the line was filled after the transaction had overflowed, that is, had given up a marked line. Since that may have been
    /// this block, the line counts as read and written.
    pub overflowed: bool,
}

impl Marks {
    /// The marks of a line that no transaction has used.
    pub const fn none() -> Self
        ensures { result ≡ no_marks }
    {
        Marks {
            read: false,
            written: false,
            overflowed: false,
        }
    }

    /// Whether the transaction has, or may have, used the line.
    pub fn is_marked(self) -> bool
        ensures { result ≡ is_marked self }
    {
        self.read || self.written || self.overflowed
    }
}
