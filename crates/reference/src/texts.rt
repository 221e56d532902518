/// Exits with 0.
pub const EXIT: [u32; 3] = [0x05d0_0893, 0x0000_0513, 0x0000_0073];

/// Adds 1 to the word at 0x2000 a hundred times, each time in a transaction, and exits with 0.
pub const COUNTS: [u32; 12] = [
    0x0640_0413,
    0x0000_24b7,
    0x0000_000b,
    0x0004_a283,
    0x0012_8293,
    0x0054_a023,
    0x0000_100b,
    0xfff4_0413,
    0xfe04_14e3,
    0x05d0_0893,
    0x0000_0513,
    0x0000_0073,
];

/// Adds 1 to the word at 0x2000 a hundred times, each time by AMOADD.W outside transactions, and exits with 0.
pub const ADDS: [u32; 9] = [
    0x0640_0413,
    0x0000_24b7,
    0x0010_0313,
    0x0064_a02f,
    0xfff4_0413,
    0xfe04_1ce3,
    0x05d0_0893,
    0x0000_0513,
    0x0000_0073,
];

/// Writes 7 to 0x2000 in a transaction, and exits with 0.
pub const COMMITS: [u32; 8] = [
    0x0000_0a0b,
    0x0000_22b7,
    0x0070_0313,
    0x0062_a023,
    0x0000_100b,
    0x05d0_0893,
    0x0000_0513,
    0x0000_0073,
];

/// The same, but it aborts the transaction.
pub const ABORTS: [u32; 8] = [
    0x0000_0a0b,
    0x0000_22b7,
    0x0070_0313,
    0x0062_a023,
    0x0000_200b,
    0x05d0_0893,
    0x0000_0513,
    0x0000_0073,
];
