//! Programs whose harts run in threads, and what they are refused for.
mod refusals;
mod runs;

/// Each hart adds 1 to the word at 0x2000 twenty times, each time in a transaction. After an abort it waits, longer than the time before, and
/// each hart for a time of its own.
pub(crate) const COUNTER: &str = "_start: li s0, 20
        li s1, 0x2000
again:  addi s2, a0, 1
try:    tbegin wait
        lw t0, 0(s1)
        addi t0, t0, 1
        sw t0, 0(s1)
        tcommit
        addi s0, s0, -1
        bnez s0, again
        li a7, 93
        li a0, 0
        ecall
wait:   slli s2, s2, 1
        mv t1, s2
spin:   addi t1, t1, -1
        bnez t1, spin
        j try
";

/// What two harts leave, which have added 20 each: 40 is 0x28.
pub(crate) const COUNTED: &str = "hart 0: exit 0\nhart 1: exit 0\nword 0x00002000 = 0x00000028\n";

pub(crate) static TWO: [&str; 6] = ["logtm", "run", "f.s", "--threads", "--harts=2", "0x2000"];

/// The same, with a history.
static KEPT: [&str; 7] = [
    "logtm",
    "run",
    "f.s",
    "--threads",
    "--history=h",
    "--harts=2",
    "0x2000",
];
