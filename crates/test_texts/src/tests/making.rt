//! The images of some numbers, from a model apart from this code.
use super::assembling::has_words;
use dl_make::make;
use std::test::Fail;

#[test]
fn a_number_makes_its_image(rt: HostRuntime) -> Result<(), Fail> {
    for (number, spawned, power, rounds) in IMAGES {
        let words = [
            *spawned,
            0x0010_0893,
            0x0240_0513,
            0x0000_0593,
            0x0004_0613,
            0x0000_0073,
            0xFFF4_0413,
            0xFE04_14E3,
            0x0000_0513,
            *power,
            0x4002_8293,
            *rounds,
            0x0010_0393,
            0x3E00_0E13,
            0x007E_2EAF,
            0x0002_AF03,
            0x01DF_0F33,
            0x01E2_A023,
            0xFFF3_0313,
            0xFE03_12E3,
            0x0000_0893,
            0x0000_0513,
            0x0000_0073,
        ];
        let file = make(rt.alloc(), *number)?;
        assert!(rt; has_words(file.as_slice(), &words), "at {number}");
    }
    Ok(())
}

// A number, and those words of its image that depend on it.
const IMAGES: &[(u32, u32, u32, u32)] = &[
    (0, 0x0010_0413, 0x0025_1293, 0x0100_0313),
    (6, 0x0070_0413, 0x0035_1293, 0x0100_0313),
    (8190, 0x0010_0413, 0x0025_1293, 0x40F0_0313),
    (4_294_967_295, 0x0040_0413, 0x0025_1293, 0x40F0_0313),
];
