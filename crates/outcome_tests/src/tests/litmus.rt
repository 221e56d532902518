//! The litmus programs of examples/litmus on the machine of the tests' own. (The transcripts show their ends, and how many states the search meets.)

use super::agreement::{Tally, check_program};
use super::sources::text_alone;
use crate::tests::claims::equal;
use std::test::Fail;

#[rattlefmt::skip]
pub(crate) const STORE_BUFFERING: [u32; 13] = [
    0x0000_22b7, // lui t0, 0x2
    0x0010_0313, // li t1, 1
    0x0005_1c63, // bnez a0, 24
    0x0402_a383, // lw t2, 0x40(t0)
    0x0062_a023, // sw t1, 0(t0)
    0x0402_a503, // lw a0, 0x40(t0)
    0x05d0_0893, // li a7, 93
    0x0000_0073, // ecall
    0x0002_a383, // lw t2, 0(t0)
    0x0462_a023, // sw t1, 0x40(t0)
    0x0002_a503, // lw a0, 0(t0)
    0x05d0_0893, // li a7, 93
    0x0000_0073, // ecall
];

#[rattlefmt::skip]
const MESSAGE_PASSING: [u32; 16] = [
    0x0000_22b7, // lui t0, 0x2
    0x0010_0313, // li t1, 1
    0x0005_1c63, // bnez a0, 24
    0x0062_a023, // sw t1, 0(t0)
    0x0462_a023, // sw t1, 0x40(t0)
    0x0000_0513, // li a0, 0
    0x05d0_0893, // li a7, 93
    0x0000_0073, // ecall
    0x0002_a383, // lw t2, 0(t0)
    0x0402_ae03, // lw t3, 0x40(t0)
    0x0002_a383, // lw t2, 0(t0)
    0x00a0_0e93, // li t4, 10
    0x03de_0533, // mul a0, t3, t4
    0x0075_0533, // add a0, a0, t2
    0x05d0_0893, // li a7, 93
    0x0000_0073, // ecall
];

#[rattlefmt::skip]
const LOAD_BUFFERING: [u32; 11] = [
    0x0000_22b7, // lui t0, 0x2
    0x0010_0313, // li t1, 1
    0x0005_1a63, // bnez a0, 20
    0x0002_a503, // lw a0, 0(t0)
    0x0462_a023, // sw t1, 0x40(t0)
    0x05d0_0893, // li a7, 93
    0x0000_0073, // ecall
    0x0402_a503, // lw a0, 0x40(t0)
    0x0062_a023, // sw t1, 0(t0)
    0x05d0_0893, // li a7, 93
    0x0000_0073, // ecall
];

#[rattlefmt::skip]
const TWO_LOADS: [u32; 14] = [
    0x0000_22b7, // lui t0, 0x2
    0x0010_0313, // li t1, 1
    0x0005_1a63, // bnez a0, 20
    0x0062_a023, // sw t1, 0(t0)
    0x0000_0513, // li a0, 0
    0x05d0_0893, // li a7, 93
    0x0000_0073, // ecall
    0x0002_a383, // lw t2, 0(t0)
    0x0002_ae03, // lw t3, 0(t0)
    0x00a0_0e93, // li t4, 10
    0x03d3_8533, // mul a0, t2, t4
    0x01c5_0533, // add a0, a0, t3
    0x05d0_0893, // li a7, 93
    0x0000_0073, // ecall
];

#[rattlefmt::skip]
const STRONG_ISOLATION: [u32; 14] = [
    0x0000_22b7, // lui t0, 0x2
    0x0205_1463, // bnez a0, 40
    0x0000_000b, // tbegin 0
    0x0010_0313, // li t1, 1
    0x0062_a023, // sw t1, 0(t0)
    0x0020_0313, // li t1, 2
    0x0062_a023, // sw t1, 0(t0)
    0x0000_100b, // tcommit
    0x0000_0513, // li a0, 0
    0x05d0_0893, // li a7, 93
    0x0000_0073, // ecall
    0x0002_a503, // lw a0, 0(t0)
    0x05d0_0893, // li a7, 93
    0x0000_0073, // ecall
];

#[rattlefmt::skip]
const STORE_BETWEEN: [u32; 13] = [
    0x0000_2437, // lui s0, 0x2
    0x05d0_0893, // li a7, 93
    0x0205_1063, // bnez a0, 32
    0x0050_0393, // li t2, 5
    0x1004_22af, // lr.w t0, (s0)
    0x1874_232f, // sc.w t1, t2, (s0)
    0x00a0_0393, // li t2, 10
    0x0272_8533, // mul a0, t0, t2
    0x0065_0533, // add a0, a0, t1
    0x0000_0073, // ecall
    0x00a4_2023, // sw a0, 0(s0)
    0x0000_0513, // li a0, 0
    0x0000_0073, // ecall
];

#[rattlefmt::skip]
const CONDITIONAL_UPDATES: [u32; 6] = [
    0x0000_2437, // lui s0, 0x2
    0x1004_22af, // lr.w t0, (s0)
    0x0012_8293, // addi t0, t0, 1
    0x1854_252f, // sc.w a0, t0, (s0)
    0x05d0_0893, // li a7, 93
    0x0000_0073, // ecall
];

/// The programs, and how many states all interleavings lead to: these were counted by another program.
static PROGRAMS: [(&[u32], usize); 7] = [
    (&STORE_BUFFERING, 169),
    (&MESSAGE_PASSING, 180),
    (&LOAD_BUFFERING, 88),
    (&TWO_LOADS, 140),
    (&STRONG_ISOLATION, 84),
    (&STORE_BETWEEN, 145),
    (&CONDITIONAL_UPDATES, 139),
];

#[test]
fn litmus_programs(rt: HostRuntime) -> Result<(), Fail> {
    for (text, states) in &PROGRAMS {
        let mut tally = Tally::default();
        check_program(&rt, &text_alone(text), 2, &mut tally)?;
        equal(&rt, &tally.states, &*states);
    }
    Ok(())
}
