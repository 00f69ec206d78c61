ghost use Rattle.std.specs.Prelude.{◌≡◌, ◌<◌, ◌^◌};
ghost use Rattle.vrt_fields.specs.Field.{width_of};

mod format;
mod limit;
mod words;

use super::*;
use std::alloc::Global;
use vrt_words::{NoMemory, Place};

#[test]
fn a_format_of_eight_bits_has_either_packing(rt: HostRuntime) {
    let packed = PayloadFormat {
        bits: 8,
        packed: true,
    };
    let plain = PayloadFormat {
        bits: 8,
        packed: false,
    };
    assert_eq!(rt; PayloadFormat::read(0xA000_01C7, 0), Ok(packed));
    assert_eq!(rt; PayloadFormat::read(0x2000_01C7, 0), Ok(plain));
}

#[test]
fn the_first_word_outside_the_rule_is_told(rt: HostRuntime) {
    assert_eq!(rt; PayloadFormat::read(0xA000_0082, 1), Err(Place { word: 0 }));
    assert_eq!(rt; PayloadFormat::read(0xA000_03CF, 1), Err(Place { word: 1 }));
}

#[test]
fn each_field_is_found_by_its_bit(rt: HostRuntime) {
    let fields = [
        (30, Field::ReferencePoint, 1),
        (29, Field::Bandwidth, 2),
        (28, Field::IfReference, 2),
        (27, Field::RfReference, 2),
        (25, Field::IfOffset, 2),
        (24, Field::ReferenceLevel, 1),
        (23, Field::Gain, 1),
        (21, Field::SampleRate, 2),
        (20, Field::TimeAdjustment, 2),
        (19, Field::Calibration, 1),
        (16, Field::State, 1),
        (15, Field::Format, 2),
    ];
    for (bit, field, width) in fields {
        assert_eq!(rt; field.bit(), bit);
        assert_eq!(rt; field.width(), width);
        assert_eq!(rt; Field::of_bit(bit), Some(field));
    }
    assert_eq!(rt; Field::of_bit(31), None);
    assert_eq!(rt; Field::of_bit(26), None);
}

// The set of RF reference frequency and gain, and its words behind two others.
fn tuned() -> FieldSet {
    let mut set = FieldSet::empty();
    set.set(Field::Gain, 0x600);
    set.set(Field::RfReference, 0x0004_7868_C000_0000);
    set
}

#[test]
fn a_set_holds_what_was_put_into_it(rt: HostRuntime) {
    let mut set = tuned();
    assert_eq!(rt; set.get(Field::Gain), Some(0x600));
    assert_eq!(rt; set.get(Field::RfReference), Some(0x0004_7868_C000_0000));
    assert_eq!(rt; set.get(Field::Bandwidth), None);
    assert_eq!(rt; set.cif0(), 0x0880_0000);
    assert_eq!(rt; set.words(), 3);
    set.remove(Field::RfReference);
    assert_eq!(rt; set.get(Field::RfReference), None);
    assert_eq!(rt; set.get(Field::Gain), Some(0x600));
    assert_eq!(rt; set.cif0(), 0x0080_0000);
    assert_eq!(rt; set.words(), 1);
}

#[test]
fn a_set_stands_from_the_highest_bit_down(rt: HostRuntime) {
    let set = tuned();
    assert_eq!(rt; set.words(), 3);
    let mut bytes = [0xEE; 84];
    assert_eq!(rt; set.write(&mut bytes, 2), 3);
    let mut wanted = [0xEE; 84];
    let words = [
        0x00, 0x04, 0x78, 0x68, 0xC0, 0x00, 0x00, 0x00, 0x00, 0x00, 0x06, 0x00,
    ];
    wanted[8..20].copy_from_slice(&words);
    assert_eq!(rt; bytes, wanted);
    assert_eq!(rt; FieldSet::read(0x0880_0000, &bytes, 2), set);
    assert_eq!(rt; written_and_read(&set, &mut bytes, 1), set);
}

#[test]
fn a_mask_has_bits_of_fields_alone(rt: HostRuntime) {
    assert_eq!(rt; is_field_mask(0x7BB9_8000), true);
    assert_eq!(rt; is_field_mask(0), true);
    assert_eq!(rt; is_field_mask(0xFBB9_8000), false);
    assert_eq!(rt; is_field_mask(0x0400_0000), false);
}

#[test]
fn a_mask_tells_its_fields_and_their_words(rt: HostRuntime) {
    assert_eq!(rt;
        (mask_number(0x7BB9_8000), mask_width(0x7BB9_8000)),
        (12, 19)
    );
    assert_eq!(rt; (mask_number(0x0880_0000), mask_width(0x0880_0000)), (2, 3));
    assert_eq!(rt; (mask_number(0), mask_width(0)), (0, 0));
}

// Whether the text of a field is this, behind what was there.
fn is_text(alloc: Global, field: Field, value: u64, wanted: &[u8]) -> Result<bool, NoMemory>
    requires { width_of field ≡ 1 → value < 2 ^ 32 }
{
    let mut text = Vec::new(alloc);
    text_of(alloc, field, value, &mut text)?;
    Ok(text.as_slice() == wanted)
}

#[test]
fn the_frequencies_of_a_context_are_told(rt: HostRuntime) -> Result<(), NoMemory> {
    let alloc = rt.alloc();
    let bandwidth = b"bandwidth 280000 Hz + 0/1048576";
    assert!(rt; is_text(alloc, Field::Bandwidth, 280_000 << 20, bandwidth)?);
    let intermediate = b"IF 70000000 Hz + 0/1048576";
    assert!(rt; is_text(alloc, Field::IfReference, 70_000_000 << 20, intermediate)?);
    let radio = b"RF 1200000000 Hz + 0/1048576";
    assert!(rt; is_text(alloc, Field::RfReference, 1_200_000_000 << 20, radio)?);
    assert!(rt; is_text(alloc, Field::IfOffset, 0, b"IF offset 0 Hz + 0/1048576")?);
    let rate = b"sample rate 350000 Hz + 0/1048576";
    assert!(rt; is_text(alloc, Field::SampleRate, 350_000 << 20, rate)?);
    Ok(())
}

#[test]
fn the_other_fields_of_a_context_are_told(rt: HostRuntime) -> Result<(), NoMemory> {
    let alloc = rt.alloc();
    let point = b"reference point 00000064";
    assert!(rt; is_text(alloc, Field::ReferencePoint, 0x64, point)?);
    let level = b"reference level 0/128 dBm upper 0000";
    assert!(rt; is_text(alloc, Field::ReferenceLevel, 0, level)?);
    assert!(rt; is_text(alloc, Field::Gain, 0x500, b"gain 1280/128 dB 0/128 dB")?);
    assert!(rt; is_text(alloc, Field::TimeAdjustment, 0, b"time adjustment 0 fs")?);
    assert!(rt; is_text(alloc, Field::Calibration, 0, b"calibration 0 s")?);
    assert!(rt; is_text(alloc, Field::State, 0xC00C_0000, b"state C00C0000")?);
    let format = b"payload A00003CF 00000000";
    assert!(rt; is_text(alloc, Field::Format, 0xA000_03CF_0000_0000, format)?);
    Ok(())
}

#[test]
fn the_text_of_a_field_stands_behind_what_was_there(rt: HostRuntime) -> Result<(), NoMemory> {
    let alloc = rt.alloc();
    let mut text = Vec::new(alloc);
    text_of(alloc, Field::Gain, 0x500, &mut text)?;
    text_of(alloc, Field::State, 1, &mut text)?;
    assert!(rt; text.as_slice() == b"gain 1280/128 dB 0/128 dBstate 00000001".as_slice());
    Ok(())
}

#[test]
fn numbers_below_zero_are_rounded_down(rt: HostRuntime) -> Result<(), NoMemory> {
    let alloc = rt.alloc();
    assert!(rt;
        is_text(
            alloc,
            Field::RfReference,
            u64::MAX,
            b"RF -1 Hz + 1048575/1048576"
        )?
    );
    let halves = 0xFFFF_FFFF_FFE8_0000;
    assert!(rt;
        is_text(
            alloc,
            Field::IfOffset,
            halves,
            b"IF offset -2 Hz + 524288/1048576"
        )?
    );
    let whole = 0xFFFF_FFFF_FFE0_0000;
    assert!(rt;
        is_text(
            alloc,
            Field::IfOffset,
            whole,
            b"IF offset -2 Hz + 0/1048576"
        )?
    );
    let least = 1 << 63;
    assert!(rt;
        is_text(
            alloc,
            Field::Bandwidth,
            least,
            b"bandwidth -8796093022208 Hz + 0/1048576"
        )?
    );
    Ok(())
}

#[test]
fn signs_stand_in_front_of_numbers(rt: HostRuntime) -> Result<(), NoMemory> {
    let alloc = rt.alloc();
    assert!(rt;
        is_text(
            alloc,
            Field::TimeAdjustment,
            u64::MAX - 4,
            b"time adjustment -5 fs"
        )?
    );
    let least = b"time adjustment -9223372036854775808 fs";
    assert!(rt; is_text(alloc, Field::TimeAdjustment, 1 << 63, least)?);
    let level = b"reference level -128/128 dBm upper ABCD";
    assert!(rt; is_text(alloc, Field::ReferenceLevel, 0xABCD_FF80, level)?);
    assert!(rt;
        is_text(
            alloc,
            Field::Gain,
            0xFFFF_8000,
            b"gain -32768/128 dB -1/128 dB"
        )?
    );
    assert!(rt;
        is_text(
            alloc,
            Field::Calibration,
            0xFFFF_FFFF,
            b"calibration 4294967295 s"
        )?
    );
    Ok(())
}

#[test]
fn digits_of_words_and_numbers_are_told(rt: HostRuntime) {
    assert_eq!(rt; hexadecimal_of(0xABCD_EF01), *b"ABCDEF01");
    let mut digits = [0; 20];
    let start = fill_decimal(&mut digits, 1_200);
    assert_eq!(rt; start, 16);
    assert_eq!(rt; &digits[16..], b"1200".as_slice());
}
