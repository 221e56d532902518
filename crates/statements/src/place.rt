//! Where lines and labels stand.
ghost use Rattle.std.specs.Prelude.{◌≡◌, ◌≤◌, ◌<◌, ◌^◌};
ghost use Rattle.statements.specs.Places as spec;

use std::collections::BTreeMap;
use std::marker::Model;

/// A section of the program.
#[derive(Clone, Copy, Debug, PartialEq, Eq)]
pub enum Section {
    Text,
    Data,
}

/// A number of bytes, at most 1,048,576.
#[derive(Clone, Copy, Debug, PartialEq, Eq)]
pub struct Size {
    value: u32,
}

impl Model for Size {
    ghost use Rattle.std.specs.Prelude.{ℕ, ◌≤◌};

    ghost Value = { ℕ };

    ghost view = { λ s. s.value };

    ghost invariant = { λ s. s.value ≤ 1048576 };

    ghost inverse = { λ n. record { value = n } };
}

impl Size {
    pub fn new(value: u32) -> Self
        requires { value ≤ 1048576 }
        ensures { result ≡ value }
    {
        Size { value }
    }

    pub fn value(self) -> u32
        ensures value { result ≡ self }
        ensures bound { result ≤ 1048576 }
    {
        self.value
    }
}

/// A place in a section, so many bytes from its start.
#[derive(Clone, Copy, Debug, PartialEq, Eq)]
pub struct Place {
    pub section: Section,
    pub offset: Size,
}

/// The labels of a source, and how many bytes of text it has.
#[derive(Clone, Copy)]
pub struct Names<'m, 's> {
    pub labels: &'m BTreeMap<&'s [u8], Place>,
    pub text_size: Size,
}

impl Names<'_, '_> {
    /// The address of a place.
    pub fn address(&self, place: Place) -> u32
        ensures value { result ≡ spec.address self.now.text_size place }
        ensures bound { result < 2 ^ 23 }
    {
        let start = match place.section {
            Section::Text => 4096,
            Section::Data => data_start(self.text_size),
        };
        start + place.offset.value()
    }

    /// The address of a label, if a line has it.
    pub fn find(&self, name: &[u8]) -> Option<u32>
        ensures { result ≡ spec.find_in self.now name.now }
    {
        match self.labels.get(name) {
            Some(place) => Some(self.address(*place)),
            None => None,
        }
    }
}

/// Where data begins behind so many bytes of text.
pub fn data_start(text_size: Size) -> u32
    ensures value { result ≡ spec.data_start text_size }
    ensures bound { result ≤ 2 ^ 22 }
{
    ((text_size.value() + 8191) / 4096 * 4096).max(8192)
}
