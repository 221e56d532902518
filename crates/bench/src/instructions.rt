//! How fast words are decoded and executed.
use std::io;
use std::rt::Clock;
use std::time::Instant;
use table::{Act, effect_at, write_register};
use words::{Addr, Reg, Regs};

/// addi, add, xor, slli, lw, sw, bne and jal, over a few registers.
pub(crate) const WORDS: [u32; 8] = [
    0x0012_8293,
    0x0062_83b3,
    0x0053_4333,
    0x0033_1e13,
    0x0002_ae83,
    0x01d2_a223,
    0x0072_9463,
    0x0080_00ef,
];

/// One word at a pc: the pc after it. A word with a cause stays where it is.
#[inline(never)]
fn after(word: u32, pc: Addr, regs: &mut Regs) -> Addr {
    match effect_at(word, pc, regs) {
        Ok(effect) => {
            write_register(regs, effect.write);
            match effect.act {
                Act::Memory(access) => access.addr,
                _ => effect.next,
            }
        }
        Err(_) => pc,
    }
}

/// Registers that hold 1, but for x0.
fn ones() -> Regs {
    let mut regs = Regs::new();
    for number in 1..32 {
        regs.write(Reg::new(number), 1);
    }
    regs
}

/// Executes the words in turn, and adds up where each goes on.
fn execute_often(rounds: u64) -> u64 {
    let mut regs = ones();
    let mut pc = Addr::new(0x1000);
    let mut sum = 0u64;
    for _ in 0..rounds {
        for word in WORDS {
            pc = after(word, pc, &mut regs);
            sum = sum.wrapping_add(u64::from(pc.value()));
        }
    }
    sum
}

pub(crate) fn measure(rt: &(impl Print + Eprint + Clock), rounds: u64) -> io::Result<()> {
    let start = Instant::now(rt)?;
    let sum = execute_often(rounds);
    let took = start.elapsed(rt)?;
    println!(rt; "execute: {sum}")?;
    let words = rounds.saturating_mul(8);
    let micros = took.as_micros();
    if micros > 0 {
        let millions = u128::from(words) / micros;
        eprintln!(rt; "execute: {millions} million words a second")?;
    }
    Ok(())
}
