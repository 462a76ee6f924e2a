//! What the worked machines run, from address 0.

// It spawns a thread at 32, loads a word and exits with 1; that thread stores 9 to the word and exits.
pub(crate) const RACE: &[u32] = &[
    0x0010_0893,
    0x0200_0513,
    0x0000_0613,
    0x0000_0073,
    0x1000_2283,
    0x0000_0893,
    0x0000_0073,
    0x0000_0013,
    0x0090_0313,
    0x1060_2023,
    0x0000_0893,
    0x0000_0073,
];

// It stores a word, loads another and reserves it, stores there if it is still reserved, and exits with 0.
pub(crate) const RESERVES: &[u32] = &[
    0x1040_0293,
    0x1050_2023,
    0x1002_A32F,
    0x1852_A3AF,
    0x0000_0893,
    0x0000_0073,
];

// It writes its first two bytes to channel 0, and exits.
pub(crate) const WRITES_TO_PIPE: &[u32] = &[
    0x0020_0893,
    0x0020_0613,
    0x0000_0073,
    0x0000_0893,
    0x0000_0073,
];

// It reads up to 8 bytes from channel 0, loads the first word of them, and exits.
pub(crate) const READS_FROM_PIPE: &[u32] = &[
    0x0030_0893,
    0x1000_0593,
    0x0080_0613,
    0x0000_0073,
    0x1000_2283,
    0x0000_0893,
    0x0000_0073,
];

// It asks for a DMA of up to 4 bytes, loads the word after its count, and exits.
pub(crate) const TRANSFERS: &[u32] = &[
    0x0080_0893,
    0x1000_0513,
    0x0040_0593,
    0x0000_0073,
    0x1040_2283,
    0x0000_0893,
    0x0000_0073,
];

// It sets a handler, and does nothing more; nor does the handler.
pub(crate) const HANDLES: &[u32] = &[
    0x0060_0893,
    0x0140_0513,
    0x0000_0073,
    0x0000_006F,
    0x0000_0013,
    0x0000_006F,
];

// It exits with 7.
pub(crate) const EXITS: &[u32] = &[0x0000_0893, 0x0070_0513, 0x0000_0073];

// It loads the moment and a byte of the input, stores that byte to the console, and loads one byte from there.
pub(crate) const USES_DEVICES: &[u32] = &[
    0xF000_02B7,
    0x0002_A303,
    0x0042_A383,
    0x0072_A423,
    0x0002_8403,
];

// It stores over an instruction that it then runs, and exits.
pub(crate) const WRITES_ITS_NEXT: &[u32] = &[
    0x0070_02B7,
    0x5132_8293,
    0x0050_2823,
    0x0000_0893,
    0x0000_0013,
    0x0000_0073,
];

// It asks for a DMA of up to 4 bytes, stores to the word of its count, and exits.
pub(crate) const STORES_BESIDE: &[u32] = &[
    0x0080_0893,
    0x1000_0513,
    0x0040_0593,
    0x0000_0073,
    0x1000_2023,
    0x0000_0893,
    0x0000_0073,
];

// It spawns a thread at 32, loads a word and exits with 1; that thread stores to a word whose line has the same bits.
pub(crate) const SHARES_BITS: &[u32] = &[
    0x0010_0893,
    0x0200_0513,
    0x0000_0613,
    0x0000_0073,
    0x1000_2283,
    0x0000_0893,
    0x0000_0073,
    0x0000_0013,
    0x0000_2337,
    0x5063_2023,
    0x0000_0893,
    0x0000_0073,
];

// It spawns a thread at 32 and loads a word over and over; that thread stores to the word over and over.
pub(crate) const LOADS_AND_STORES: &[u32] = &[
    0x0010_0893,
    0x0200_0513,
    0x0000_0613,
    0x0000_0073,
    0x1000_2283,
    0xFFDF_F06F,
    0x0000_0013,
    0x0000_0013,
    0x10A0_2023,
    0xFFDF_F06F,
];

// It spawns a thread at 36, and after one instruction loads a word over and over; that thread stores to the word over and
// over.
pub(crate) const LOADS_LATER_AND_STORES: &[u32] = &[
    0x0010_0893,
    0x0240_0513,
    0x0000_0613,
    0x0000_0073,
    0x0000_0013,
    0x1000_2283,
    0xFFDF_F06F,
    0x0000_0013,
    0x0000_0013,
    0x10A0_2023,
    0xFFDF_F06F,
];

// It stores to the last word of the line after its first, goes there, and exits.
pub(crate) const STORES_AHEAD: &[u32] = &[
    0x0200_2E23,
    0x0010_0293,
    0x0180_006F,
    0x0000_0013,
    0x0000_0013,
    0x0000_0013,
    0x0000_0013,
    0x0000_0013,
    0x0020_0313,
    0x0000_0893,
    0x0000_0073,
];

// It stores a word, a byte of it and then a halfword, loads the word before and after the halfword, and exits.
pub(crate) const STORES_IN_PARTS: &[u32] = &[
    0x0010_0293,
    0x1050_2023,
    0x0AB0_0313,
    0x1060_00A3,
    0x1000_2383,
    0x1060_1123,
    0x1000_2403,
    0x0000_0893,
    0x0000_0073,
];

// It stores 0 to three words, and exits.
pub(crate) const STORES_THREE_WORDS: &[u32] = &[
    0x1000_2023,
    0x1000_2223,
    0x1000_2423,
    0x0000_0893,
    0x0000_0073,
];

// It sets a handler at 32, sets three registers, and does nothing more; the handler returns.
pub(crate) const HANDLES_AND_RETURNS: &[u32] = &[
    0x0060_0893,
    0x0200_0513,
    0x0000_0073,
    0x0010_0293,
    0x0020_0313,
    0x0030_0393,
    0x0000_006F,
    0x0000_0013,
    0x0070_0893,
    0x0000_0073,
];

// It sets three registers, and exits.
pub(crate) const SETS_REGISTERS: &[u32] = &[
    0x0010_0293,
    0x0020_0313,
    0x0030_0393,
    0x0000_0893,
    0x0000_0073,
];

// It spawns a thread at 44, stores to a word and to one of another line, loads the first and stores it beside the second,
// loads the other thread's word, and exits; that thread stores 9 to two words beside these, loads the first thread's, and
// exits.
pub(crate) const SHARES_WORDS: &[u32] = &[
    0x0010_0893,
    0x02C0_0513,
    0x0000_0613,
    0x0000_0073,
    0x1110_2023,
    0x14A0_2023,
    0x1000_2283,
    0x1450_2223,
    0x1040_2303,
    0x0000_0893,
    0x0000_0073,
    0x0090_0393,
    0x1070_2223,
    0x1470_2223,
    0x1000_2403,
    0xFE9F_F06F,
];
