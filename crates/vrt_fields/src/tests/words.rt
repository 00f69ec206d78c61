use crate::*;
use test_records::BASE;

#[test]
fn each_field_has_its_number_and_its_place(rt: HostRuntime) {
    let places = [
        (Field::ReferencePoint, 0),
        (Field::Bandwidth, 1),
        (Field::IfReference, 3),
        (Field::RfReference, 5),
        (Field::IfOffset, 7),
        (Field::ReferenceLevel, 9),
        (Field::Gain, 10),
        (Field::SampleRate, 11),
        (Field::TimeAdjustment, 13),
        (Field::Calibration, 15),
        (Field::State, 16),
        (Field::Format, 17),
    ];
    for number in 0..12 {
        let (field, place) = places[number];
        assert_eq!(rt; field.number(), number);
        assert_eq!(rt; field_at(number), field);
        assert_eq!(rt; field.place(), place);
    }
}

#[test]
fn each_field_has_its_value_among_the_words(rt: HostRuntime) {
    let mut words = [0; 19];
    words.copy_from_slice(&BASE[8..]);
    assert_eq!(rt; value_in(&words, Field::ReferencePoint), 0x64);
    assert_eq!(rt; value_in(&words, Field::Bandwidth), 280_000 << 20);
    assert_eq!(rt; value_in(&words, Field::IfReference), 70_000_000 << 20);
    assert_eq!(rt; value_in(&words, Field::RfReference), 1_200_000_000 << 20);
    assert_eq!(rt; value_in(&words, Field::Gain), 0x500);
    assert_eq!(rt; value_in(&words, Field::State), 0xC00C_0000);
    assert_eq!(rt; value_in(&words, Field::Format), 0xA000_03CF_0000_0000);
    assert_eq!(rt; raw_rate(&words), 350_000 << 20);
    assert_eq!(rt; item_size_of(&words), 16);
}

#[test]
fn a_rate_is_one_hertz_at_least_and_not_negative(rt: HostRuntime) {
    assert!(rt; is_rate(0, 0x0010_0000));
    assert!(rt; !is_rate(0, 0x000F_FFFF));
    assert!(rt; is_rate(1, 0));
    assert!(rt; is_rate(0x7FFF_FFFF, 0));
    assert!(rt; !is_rate(0x8000_0000, 0x0010_0000));
}
