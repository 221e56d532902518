//! The instruction table: words, instructions, what they do, and where a program has them.
#![tactic(auto)]

mod alu_unit;
mod decoded_text;
mod decoder;
mod effect;
mod encoder;
mod executor;
mod instr;
mod laws;
mod names;
mod slot;
mod text;

pub use alu_unit::{alu, finish_amo, is_branch_taken, shift, with_immediate};
pub use decoded_text::DecodedText;
pub use decoder::decode;
pub use effect::{Act, Effect, Load, MemoryAct, Store};
pub use encoder::encode;
pub use executor::{
    address, amo_act, byte_count, effect_at, execute, extend_load, finish_load, finish_store, link,
    load_act, store_act, write_register, write_to,
};
pub use instr::{AluOp, AmoOp, BranchOp, ImmOp, Instr, LoadOp, Row, ShiftOp, StoreOp};
pub use laws::one_row;
pub use names::row_named;
pub use slot::Slot;
pub use text::{Segment, Text, end_of_text, start_of_text};
