//! How fast a cache is looked into, stored to, copied and compared.
use crate::timing::tell;
use cache::{Cache, Line};
use std::io;
use std::rt::Clock;
use std::time::Instant;
use words::{Addr, BlockNo, LineState, Width};

/// The size that programs run with unless told otherwise.
type Normal = Cache<16, 4>;

/// The smallest size that programs can ask for.
type Small = Cache<2, 1>;

/// Fills blocks 0 to 63, as modified, where there is room.
fn fill<const SETS: usize, const WAYS: usize>(cache: &mut Cache<SETS, WAYS>) {
    for number in 0..64u32 {
        let block = BlockNo::new(number);
        if cache.look(block).is_none() && cache.room(block) {
            cache.fill(block, [number; 8], LineState::Modified, false);
        }
    }
}

// What is timed is not inlined, so that no round is optimized away.

#[inline(never)]
fn line<const SETS: usize, const WAYS: usize>(
    cache: &Cache<SETS, WAYS>,
    block: BlockNo,
) -> Option<Line> {
    cache.look(block)
}

#[inline(never)]
fn word(cache: &Normal, addr: Addr) -> Option<u32> {
    cache.read_word(addr)
}

#[inline(never)]
fn store(cache: &mut Normal, addr: Addr, value: u32) -> bool {
    let block = addr.block();
    let Some(line) = cache.look(block) else {
        return false;
    };
    match line.state {
        LineState::Shared | LineState::Exclusive => false,
        LineState::Modified => {
            cache.mark_written(block);
            cache.write_bytes(addr, Width::Byte, value);
            true
        }
    }
}

#[inline(never)]
fn copied(cache: &Normal) -> Normal {
    *cache
}

#[inline(never)]
fn are_same(cache: &Normal, other: &Normal) -> bool {
    cache.same(other)
}

/// Looks at blocks 0 to 79 in turn, and adds up the first words of the lines found.
fn look_often<const SETS: usize, const WAYS: usize>(cache: &Cache<SETS, WAYS>, rounds: u64) -> u64 {
    let mut sum = 0u64;
    for round in 0..rounds {
        let block = BlockNo::new((round % 80) as u32);
        if let Some(line) = line(cache, block) {
            sum = sum.wrapping_add(u64::from(line.content[0]));
        }
    }
    sum
}

/// Reads the first words of blocks 0 to 79 in turn, and adds them up.
fn read_often(cache: &Normal, rounds: u64) -> u64 {
    let mut sum = 0u64;
    for round in 0..rounds {
        let addr = Addr::new((round % 80) as u32 * 32);
        sum = sum.wrapping_add(u64::from(word(cache, addr).unwrap_or(0)));
    }
    sum
}

/// Marks and writes blocks 0 to 79 in turn, where there is a modified line, and counts the stores.
fn store_often(cache: &mut Normal, rounds: u64) -> u64 {
    let mut count = 0u64;
    for round in 0..rounds {
        let addr = Addr::new((round % 80) as u32 * 32 + (round % 4) as u32);
        if store(cache, addr, (round % 256) as u32) {
            count = count.wrapping_add(1);
        }
    }
    count
}

/// Copies a cache, and looks at one block of each copy.
fn copy_often(cache: &Normal, rounds: u64) -> u64 {
    let mut count = 0u64;
    for round in 0..rounds {
        let copy = copied(cache);
        if copy.look(BlockNo::new((round % 64) as u32)).is_some() {
            count = count.wrapping_add(1);
        }
    }
    count
}

/// Stores the same byte to two caches that are equal, and counts how often they still are.
fn compare_often(cache: &mut Normal, other: &mut Normal, rounds: u64) -> u64 {
    let mut count = 0u64;
    for round in 0..rounds {
        let addr = Addr::new((round % 64) as u32 * 32);
        let value = (round % 251) as u32;
        if store(cache, addr, value) && store(other, addr, value) && are_same(cache, other) {
            count = count.wrapping_add(1);
        }
    }
    count
}

/// Stores, and then clears all marks.
fn clear_often(cache: &mut Normal, rounds: u64) -> u64 {
    let mut count = 0u64;
    for round in 0..rounds {
        if store(cache, Addr::new((round % 64) as u32 * 32), 1) {
            cache.clear_marks();
            count = count.wrapping_add(1);
        }
    }
    count
}

pub(crate) fn measure(rt: &(impl Print + Eprint + Clock), rounds: u64) -> io::Result<()> {
    let mut small = Small::new();
    fill(&mut small);
    let mut cache = Normal::new();
    fill(&mut cache);
    measure_looks(rt, &small, &cache, rounds)?;
    measure_stores(rt, &mut cache, rounds)
}

/// Looks into a small cache and one of normal size, and reads words of that.
fn measure_looks(
    rt: &(impl Print + Eprint + Clock),
    small: &Small,
    cache: &Normal,
    rounds: u64,
) -> io::Result<()> {
    let start = Instant::now(rt);
    let sum = look_often(small, rounds);
    tell(rt, "look, small", sum, start, rounds)?;
    let start = Instant::now(rt);
    let sum = look_often(cache, rounds);
    tell(rt, "look", sum, start, rounds)?;
    let start = Instant::now(rt);
    let sum = read_often(cache, rounds);
    tell(rt, "read_word", sum, start, rounds)
}

/// Stores to a cache, copies it, compares it with its copy, and clears its marks.
fn measure_stores(
    rt: &(impl Print + Eprint + Clock),
    cache: &mut Normal,
    rounds: u64,
) -> io::Result<()> {
    let start = Instant::now(rt);
    let count = store_often(cache, rounds);
    tell(rt, "look, mark_written, write_bytes", count, start, rounds)?;
    let start = Instant::now(rt);
    let count = copy_often(cache, rounds);
    tell(rt, "copy of a cache", count, start, rounds)?;
    let mut other = copied(cache);
    let start = Instant::now(rt);
    let count = compare_often(cache, &mut other, rounds);
    tell(rt, "two stores, same of two caches", count, start, rounds)?;
    let start = Instant::now(rt);
    let count = clear_often(cache, rounds);
    tell(rt, "store, clear_marks", count, start, rounds)
}
