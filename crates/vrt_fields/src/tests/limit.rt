use crate::*;

// A limit from one value to another.
const fn between(step: u64, least: i64, greatest: i64) -> Limit {
    Limit {
        settable: true,
        step,
        least,
        greatest,
    }
}

#[test]
fn a_field_that_is_not_settable_has_no_limits(rt: HostRuntime) {
    let shut = Limit {
        settable: false,
        step: 0,
        least: 0,
        greatest: 0,
    };
    assert!(rt; shut.is_for(Field::Gain));
    assert!(rt; shut.is_for(Field::SampleRate));
    assert!(rt; !Limit { step: 1, ..shut }.is_for(Field::Gain));
    assert!(rt; !Limit { least: -1, ..shut }.is_for(Field::Gain));
    assert!(rt;
        !Limit {
            greatest: 1,
            ..shut
        }
        .is_for(Field::Gain)
    );
}

#[test]
fn a_step_is_1_to_63_bits(rt: HostRuntime) {
    assert!(rt; !between(0, 0, 0).is_for(Field::Bandwidth));
    assert!(rt; between(1, 0, 0).is_for(Field::Bandwidth));
    assert!(rt; between(0x7FFF_FFFF_FFFF_FFFF, 0, 0).is_for(Field::Bandwidth));
    assert!(rt; !between(0x8000_0000_0000_0000, 0, 0).is_for(Field::Bandwidth));
}

#[test]
fn limits_are_multiples_of_the_step_in_order(rt: HostRuntime) {
    assert!(rt; between(64, -2_560, 2_560).is_for(Field::Gain));
    assert!(rt; !between(64, -2_561, 2_560).is_for(Field::Gain));
    assert!(rt; !between(64, -2_560, 2_561).is_for(Field::Gain));
    assert!(rt; between(5, 5, 5).is_for(Field::ReferenceLevel));
    assert!(rt; !between(5, 5, 0).is_for(Field::ReferenceLevel));
}

#[test]
fn levels_and_gains_have_16_bits(rt: HostRuntime) {
    assert!(rt; between(1, -32_768, 32_767).is_for(Field::ReferenceLevel));
    assert!(rt; !between(1, -32_769, 32_767).is_for(Field::ReferenceLevel));
    assert!(rt; !between(1, -32_768, 32_768).is_for(Field::ReferenceLevel));
    assert!(rt; between(1, -32_768, 32_767).is_for(Field::Gain));
    assert!(rt; !between(1, -32_769, 0).is_for(Field::Gain));
    assert!(rt; !between(1, 0, 32_768).is_for(Field::Gain));
    assert!(rt; between(1, -32_769, 32_768).is_for(Field::IfOffset));
}

#[test]
fn the_limits_of_a_rate_are_1_hertz_and_more(rt: HostRuntime) {
    assert!(rt; between(1, 0x10_0000, 0x7FFF_FFFF_FFFF_FFFF).is_for(Field::SampleRate));
    assert!(rt; !between(1, 0xF_FFFF, 0x10_0000).is_for(Field::SampleRate));
    assert!(rt; between(1, 0, 0x10_0000).is_for(Field::RfReference));
}
