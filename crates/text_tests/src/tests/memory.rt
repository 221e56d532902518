//! For `rt try --test --fail-alloc N`: sources that are assembled, and ELF files that are read and written, where memory runs out.
use crate::tests::claims::{equal, equal_items};
use crate::tests::sample::SAMPLE;
use assembler::{AsmFault, assemble};
use loader::{LoadFault, read_elf, write_elf};
use std::alloc::AllocError;
use std::test::Fail;

/// Labels for a map of several nodes, and text that grows.
const MANY_LABELS: &str = "\
a: la a0, a
b: la a0, h
c: la a0, o
d: la a0, v
e: la a0, c
f: la a0, j
g: la a0, q
h: la a0, x
i: la a0, e
j: la a0, l
k: la a0, s
l: la a0, z
m: la a0, g
n: la a0, n
o: la a0, u
p: la a0, b
q: la a0, i
r: la a0, p
s: la a0, w
t: la a0, d
u: la a0, k
v: la a0, r
w: la a0, y
x: la a0, f
y: la a0, m
z: la a0, t
.data
numbers: .word 1, 2, 3
.space 100
";

/// A source is assembled whole, or memory ran out.
#[test]
fn assembles_or_wants_memory(rt: HostRuntime) -> Result<(), Fail> {
    match assemble(rt.alloc(), MANY_LABELS) {
        Ok(program) => match program.segments() {
            [text, data] => equal(&rt, &(text.bytes.len(), data.bytes.len()), &(208, 112)),
            others => equal(&rt, &others.len(), &2),
        },
        Err(fault) => equal(&rt, &fault.fault, &AsmFault::NoMemory),
    }
    Ok(())
}

/// A file is read and written whole, or memory ran out.
#[test]
fn copies_a_file_or_wants_memory(rt: HostRuntime) -> Result<(), Fail> {
    match read_elf(rt.alloc(), &SAMPLE) {
        Ok(program) => match write_elf(rt.alloc(), &program) {
            Ok(file) => equal_items(&rt, &file[..], &SAMPLE[..]),
            Err(AllocError) => {}
        },
        Err(fault) => equal(&rt, &fault, &LoadFault::NoMemory),
    }
    Ok(())
}
