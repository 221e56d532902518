//! The names of registers.
ghost use Rattle.std.specs.Prelude.{◌≡◌, ◌≤◌, ◌<◌, length, map, IfSome, position, bytes_eq};
ghost use Rattle.statements.specs.Registers as spec;

use words::Reg;

/// The names of the ABI, by the register.
const NAMES: [&str; 32] = [
    "zero", "ra", "sp", "gp", "tp", "t0", "t1", "t2", "s0", "s1", "a0", "a1", "a2", "a3", "a4",
    "a5", "a6", "a7", "s2", "s3", "s4", "s5", "s6", "s7", "s8", "s9", "s10", "s11", "t3", "t4",
    "t5", "t6",
];

/// The other names, by the register.
const NUMBERED: [&str; 32] = [
    "x0", "x1", "x2", "x3", "x4", "x5", "x6", "x7", "x8", "x9", "x10", "x11", "x12", "x13", "x14",
    "x15", "x16", "x17", "x18", "x19", "x20", "x21", "x22", "x23", "x24", "x25", "x26", "x27",
    "x28", "x29", "x30", "x31",
];

/// The place of a name in the list.
fn place(name: &[u8], names: &[&str]) -> Option<usize>
    ensures place { result ≡ position (λ n. bytes_eq n.now name.now) names.now }
    ensures bound { IfSome result (λ i. i < length names.now) }
{
    names.iter().position(|n| n.as_bytes() == name)
}

/// The register with this name, if there is one.
#[tactic(auto, unfolding(crate::specs::Registers::register_named))]
pub(crate) fn register_named(name: &[u8]) -> Option<Reg>
    ensures { result ≡ spec.register_named name.now }
{
    if let Some(number) = place(name, &NAMES) {
        return Some(Reg::new(number as u8));
    }
    if let Some(number) = place(name, &NUMBERED) {
        return Some(Reg::new(number as u8));
    }
    (name == b"fp".as_slice()).then_some(Reg::new(8))
}
