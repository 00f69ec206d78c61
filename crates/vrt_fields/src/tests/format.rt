use crate::*;
use vrt_words::Place;

// Whether the first word tells no format.
fn is_refused(first: u32) -> bool {
    PayloadFormat::read(first, 0) == Err(Place { word: 0 })
}

// The bits of the first word whose change alone leaves a word in the rule.
fn free_bits(first: u32) -> u32 {
    let mut free = 0;
    for bit in 0..32_u32 {
        if PayloadFormat::read(first ^ (1 << bit), 0).is_ok() {
            free |= 1 << bit;
        }
    }
    free
}

#[test]
fn samples_have_no_fraction_and_no_gaps(rt: HostRuntime) {
    // A packing size of 8 at items of 16 bits; a fraction of one bit.
    assert!(rt; is_refused(0xA000_01CF));
    assert!(rt; is_refused(0xA000_13CF));
}

#[test]
fn items_have_4_to_16_bits(rt: HostRuntime) {
    let least = PayloadFormat {
        bits: 4,
        packed: true,
    };
    let most = PayloadFormat {
        bits: 16,
        packed: true,
    };
    assert!(rt; is_refused(0xA000_0082));
    assert_eq!(rt; PayloadFormat::read(0xA000_00C3, 0), Ok(least));
    assert_eq!(rt; PayloadFormat::read(0xA000_03CF, 0), Ok(most));
    assert!(rt; is_refused(0xA000_0410));
    assert!(rt; is_refused(0xA000_0000));
    assert!(rt; is_refused(0xA000_0FFF));
}

#[test]
fn items_of_other_sizes_than_8_and_16_are_packed(rt: HostRuntime) {
    let plain = PayloadFormat {
        bits: 16,
        packed: false,
    };
    let packed = PayloadFormat {
        bits: 12,
        packed: true,
    };
    assert_eq!(rt; PayloadFormat::read(0x2000_03CF, 0), Ok(plain));
    assert_eq!(rt; PayloadFormat::read(0xA000_02CB, 0), Ok(packed));
    assert!(rt; is_refused(0x2000_02CB));
    assert!(rt; is_refused(0x2000_0186));
    assert!(rt; is_refused(0x2000_0208));
    assert!(rt; is_refused(0x2000_038E));
}

#[test]
fn each_bit_of_the_first_word_is_free_or_not(rt: HostRuntime) {
    assert_eq!(rt; free_bits(0xA000_03CF), 0x8000_0000);
    assert_eq!(rt; free_bits(0x2000_01C7), 0x8000_0000);
    assert_eq!(rt; free_bits(0xA000_02CB), 0);
}

#[test]
fn the_second_word_is_zero(rt: HostRuntime) {
    assert_eq!(rt;
        PayloadFormat::read(0xA000_03CF, 0x8000_0000),
        Err(Place { word: 1 })
    );
    assert_eq!(rt;
        PayloadFormat::read(0x2000_02CB, 0x8000_0000),
        Err(Place { word: 0 })
    );
}
