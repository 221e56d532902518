use words::{Addr, HartId};

pub(crate) fn zero() -> HartId {
    HartId::new(0)
}

pub(crate) fn one() -> HartId {
    HartId::new(1)
}

/// The word that most programs access.
pub(crate) fn place() -> Addr {
    Addr::new(0x2000)
}

/// Stores 7 and then 9 to 0x2000 in a transaction, with a load from 0x2040 between them, aborts it, and exits with 0.
pub(crate) const SPILLS: [u32; 11] = [
    0x0200_000b,
    0x0000_22b7,
    0x0070_0313,
    0x0062_a023,
    0x0402_a383,
    0x0090_0313,
    0x0062_a023,
    0x0000_200b,
    0x05d0_0893,
    0x0000_0513,
    0x0000_0073,
];

/// Stores to 113 blocks from 0x2000 on in one transaction, and exits with 0.
pub(crate) const STORES_113: [u32; 11] = [
    0x0200_000b,
    0x0000_22b7,
    0x0710_0313,
    0x0062_a023,
    0x0202_8293,
    0xfff3_0313,
    0xfe03_1ae3,
    0x0000_100b,
    0x05d0_0893,
    0x0000_0513,
    0x0000_0073,
];

/// The same with 114 blocks.
pub(crate) const STORES_114: [u32; 11] = [
    0x0200_000b,
    0x0000_22b7,
    0x0720_0313,
    0x0062_a023,
    0x0202_8293,
    0xfff3_0313,
    0xfe03_1ae3,
    0x0000_100b,
    0x05d0_0893,
    0x0000_0513,
    0x0000_0073,
];
