ghost use Rattle.std.specs.Prelude.{◌≡◌, ◌≤◌, length};
ghost use Rattle.disassembler.specs.Mnemonics.{order, register};

use words::Reg;

/// The name of a register in the ABI.
#[tactic(auto, unfolding(crate::specs::Mnemonics::register))]
pub fn register(r: Reg) -> &'static str
    ensures name { result.now ≡ register r }
    ensures long { 2 ≤ length result.now }
    ensures short { length result.now ≤ 4 }
{
    match r.index() {
        0 => "zero",
        1 => "ra",
        2 => "sp",
        3 => "gp",
        4 => "tp",
        5 => "t0",
        6 => "t1",
        7 => "t2",
        8 => "s0",
        9 => "s1",
        10 => "a0",
        11 => "a1",
        12 => "a2",
        13 => "a3",
        14 => "a4",
        15 => "a5",
        16 => "a6",
        17 => "a7",
        18 => "s2",
        19 => "s3",
        20 => "s4",
        21 => "s5",
        22 => "s6",
        23 => "s7",
        24 => "s8",
        25 => "s9",
        26 => "s10",
        27 => "s11",
        28 => "t3",
        29 => "t4",
        30 => "t5",
        31 => "t6",
        _ => unreachable!(),
    }
}

/// What the bits aq and rl of an atomic operation, LR or SC add to its name.
pub(crate) fn order(aq: bool, rl: bool) -> &'static str
    ensures suffix { result.now ≡ order aq rl }
    ensures short { length result.now ≤ 5 }
{
    match (aq, rl) {
        (false, false) => "",
        (true, false) => ".aq",
        (false, true) => ".rl",
        (true, true) => ".aqrl",
    }
}
