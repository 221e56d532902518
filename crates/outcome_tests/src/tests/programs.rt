//! Random programs: loads, stores, LR, SC and atomic operations on a few shared words, branches and jumps, transactions, and calls. Most words fit where they
//! stand; a few don't, so that harts are also stopped.

use super::draws::Draws;
use super::encode::{
    A0, A7, EBREAK, ECALL, T0, T1, T2, TABORT, TCOMMIT, ZERO, addi, amo, bnez, branch, jal, jalr,
    li, load, load_reserved, lui, op, store, store_conditional, tbegin,
};
use std::alloc::{AllocError, Global};

/// The registers of the programs: a0 has the hart's number at the beginning, and all others 0.
const REGS: [u32; 5] = [T0, T0, T1, T2, A0];

/// Where the shared words are: two in one block, and one in each of two others.
const PLACES: [u32; 5] = [0, 0, 4, 32, 64];

/// The atomic operations.
const ATOMICS: [u32; 9] = [0, 1, 4, 8, 12, 16, 20, 24, 28];

/// How many bytes the access of a load or a store of this number has.
fn width(number: u32) -> u32 {
    match number {
        0 | 4 => 1,
        1 | 5 => 2,
        _ => 4,
    }
}

/// A place of an access of so many bytes, rarely one that it can't have.
fn place(draws: &mut Draws, bytes: u32) -> u32 {
    let place = draws.one_of(&PLACES);
    let part = draws.one_of(&[0, 0, 1, 2, 3]);
    if draws.percent(1) {
        place.wrapping_add(part)
    } else {
        place.wrapping_add(part / bytes.max(1) * bytes.min(4) % 4)
    }
}

/// The register that an address is counted from: mostly x0.
fn base(draws: &mut Draws) -> u32 {
    if draws.percent(2) {
        draws.one_of(&REGS)
    } else {
        ZERO
    }
}

/// A load, a store, LR, SC or an atomic operation.
fn access(draws: &mut Draws) -> u32 {
    let register = draws.one_of(&REGS);
    let base = base(draws);
    match draws.below(11) {
        0 | 1 | 2 => {
            let number = draws.one_of(&[0, 1, 2, 2, 2, 4, 5]);
            load(number, register, place(draws, width(number)), base)
        }
        3 | 4 | 5 | 6 => {
            let number = draws.one_of(&[0, 1, 2, 2, 2]);
            store(number, register, place(draws, width(number)), base)
        }
        7 | 8 => load_reserved(register, base),
        9 => store_conditional(register, draws.one_of(&REGS), base),
        _ => amo(draws.one_of(&ATOMICS), register, draws.one_of(&REGS), base),
    }
}

/// An operation on registers.
fn operation(draws: &mut Draws) -> u32 {
    let rd = draws.one_of(&REGS);
    let rs1 = draws.one_of(&REGS);
    match draws.below(4) {
        0 | 1 => addi(rd, rs1, draws.one_of(&[1, 1, 2, 4, 32, 4095])),
        2 => op(
            draws.one_of(&[0, 2, 3, 4, 6, 7]),
            rd,
            rs1,
            draws.one_of(&REGS),
        ),
        _ => li(rd, draws.one_of(&[0, 1, 1, 2, 255])),
    }
}

/// How far it is from one word of a program to another.
fn distance(from: usize, to: usize) -> u32 {
    let words = (to.min(1000) as u32).wrapping_sub(from.min(1000) as u32);
    words.wrapping_mul(4)
}

/// How far it is from one word of a program to a later one, or at times to any.
fn offset(draws: &mut Draws, from: usize, count: usize) -> u32 {
    let start = if draws.percent(75) {
        from.min(count)
    } else {
        0
    };
    let past = draws.below(count.saturating_sub(start).min(1000) as u64 + 1);
    distance(from, start.saturating_add(past as usize))
}

/// A jump or a branch from one word of a program.
fn jump(draws: &mut Draws, from: usize, count: usize) -> u32 {
    let offset = offset(draws, from, count);
    match draws.below(40) {
        0 | 1 | 2 => jal(T0, offset),
        3 => jal(ZERO, offset ^ 2),
        4 => jalr(T1, draws.one_of(&REGS), 4),
        _ => {
            let number = draws.one_of(&[0, 1, 1, 4, 5, 6, 7]);
            let rs2 = draws.one_of(&[ZERO, ZERO, A0, T0]);
            branch(number, draws.one_of(&REGS), rs2, offset)
        }
    }
}

/// A word that seldom fits.
fn stranger(draws: &mut Draws) -> u32 {
    match draws.below(8) {
        0 => EBREAK,
        1 => 0,
        2 => TCOMMIT,
        3 => TABORT,
        4 | 5 => ECALL,
        6 => li(A7, draws.one_of(&[0, 1, 93])),
        _ => lui(draws.one_of(&REGS), 16),
    }
}

/// A program that is being made.
#[derive(Drop)]
struct Draft {
    draws: Draws,
    /// How many words it will have, about.
    count: usize,
    /// How deep it is in transactions where nothing is jumped over.
    depth: u32,
}

impl Draft {
    /// A word of a transaction: it begins, or it ends.
    fn bound(&mut self, from: usize) -> u32 {
        if self.depth == 0 || (self.depth == 1 && self.draws.percent(15)) {
            self.depth = self.depth.saturating_add(1);
            return tbegin(offset(&mut self.draws, from, self.count));
        }
        if self.draws.percent(25) {
            self.depth = 0;
            return TABORT;
        }
        self.depth = self.depth.saturating_sub(1);
        TCOMMIT
    }

    /// A call, or in a transaction an operation.
    fn call(&mut self) -> u32 {
        if self.depth == 0 {
            ECALL
        } else {
            operation(&mut self.draws)
        }
    }

    /// A word of the program.
    fn word(&mut self, from: usize) -> u32 {
        match self.draws.below(100) {
            0..=51 => access(&mut self.draws),
            52..=63 => operation(&mut self.draws),
            64..=72 => jump(&mut self.draws, from, self.count),
            73..=91 => self.bound(from),
            92..=97 => self.call(),
            _ => stranger(&mut self.draws),
        }
    }

    /// The first words: mostly a number of the hart's own, at times which call is made, and a branch that parts the harts.
    fn head(&mut self, text: &mut Vec<u32>) -> Result<(), AllocError> {
        if self.draws.percent(85) {
            text.push(addi(T0, A0, 1))?;
        }
        if self.draws.percent(30) {
            text.push(li(A7, 1))?;
        }
        if self.draws.percent(40) {
            text.push(bnez(A0, offset(&mut self.draws, text.len(), self.count)))?;
        }
        Ok(())
    }

    /// The last words: mostly what ends the transactions, and the exit.
    fn tail(&mut self, text: &mut Vec<u32>) -> Result<(), AllocError> {
        for _ in 0..self.depth {
            if self.draws.percent(85) {
                text.push(TCOMMIT)?;
            }
        }
        if self.draws.percent(90) {
            text.push(li(A7, 93))?;
            text.push(ECALL)?;
        }
        Ok(())
    }
}

/// A random program: so many words between its first and its last ones.
pub(crate) fn random_program(
    alloc: Global,
    draws: Draws,
    body: usize,
) -> Result<Vec<u32>, AllocError> {
    let mut text = Vec::new(alloc);
    let mut draft = Draft {
        draws,
        count: body.saturating_add(4),
        depth: 0,
    };
    draft.head(&mut text)?;
    for _ in 0..body {
        let from = text.len();
        text.push(draft.word(from))?;
    }
    draft.tail(&mut text)?;
    Ok(text)
}

/// Random words of data from address 0 on, as far as the shared words go; for half of the draws none.
pub(crate) fn random_data(alloc: Global, draws: &mut Draws) -> Result<Vec<u32>, AllocError> {
    let mut data = Vec::new(alloc);
    if draws.percent(50) {
        for _ in 0..17 {
            data.push(draws.one_of(&[0, 1, 2, 0x80, 0xff7f, 0x8000_0001, 0xffff_ffff]))?;
        }
    }
    Ok(data)
}
