//! What a line makes.
use crate::place::Section;
use arrayvec::ArrayVec;
use table::Instr;
use words::Width;

/// What a line of source makes at its place.
#[derive(Debug, Drop)]
pub enum Words {
    Nothing,
    /// The lines below stand in this section.
    Enter(Section),
    One(Instr),
    Two(Instr, Instr),
    /// Numbers, of each of which as many low bytes are kept as the width has.
    Numbers(Width, ArrayVec<u32, 256>),
    /// So many bytes that are 0.
    Zeros(u32),
}
