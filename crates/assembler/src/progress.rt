//! How far a pass has come.
ghost use Rattle.std.specs.Prelude.{◌≡◌, ◌<◌, ◌^◌};
ghost use Rattle.assembler.specs.Progress as spec;

use statements::{Place, Section, Size};

/// How many bytes text and data may have together.
pub(crate) const LIMIT: u64 = 1_048_576;

/// How far a pass has come: the section in which the next line stands, and the bytes of each so far.
#[derive(Clone, Copy, Debug, PartialEq, Eq)]
pub(crate) struct Progress {
    pub(crate) section: Section,
    pub(crate) text_size: Size,
    pub(crate) data_size: Size,
}

impl Progress {
    pub(crate) fn start() -> Progress
        ensures { result ≡ spec.start }
    {
        Progress {
            section: Section::Text,
            text_size: Size::new(0),
            data_size: Size::new(0),
        }
    }

    /// Where the next line stands.
    pub(crate) fn here(&self) -> Place
        ensures { result ≡ spec.here self.now }
    {
        Place {
            section: self.section,
            offset: match self.section {
                Section::Text => self.text_size,
                Section::Data => self.data_size,
            },
        }
    }

    /// So many bytes further on in the section, unless there are too many.
    pub(crate) fn grown(&self, size: u64) -> Option<Progress>
        requires { size < 2 ^ 33 }
        ensures { result ≡ spec.grown size self.now }
    {
        let text = u64::from(self.text_size.value());
        let data = u64::from(self.data_size.value());
        if text + data + size > LIMIT {
            return None;
        }
        Some(match self.section {
            Section::Text => Progress {
                text_size: Size::new((text + size) as u32),
                ..*self
            },
            Section::Data => Progress {
                data_size: Size::new((data + size) as u32),
                ..*self
            },
        })
    }
}
