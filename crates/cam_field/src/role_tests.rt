use super::*;

// The bits whose change alone leaves a word that a packet of this role can have, with such a word to
// begin with.
fn free_bits(role: Role, timed: bool, word: u32) -> u32 {
    let mut free = 0;
    for bit in 0..32_u32 {
        if Cam::read(role, timed, word ^ (1 << bit)).is_some() {
            free |= 1 << bit;
        }
    }
    free
}

#[test]
fn a_command_has_executed_nothing(rt: HostRuntime) {
    assert!(rt; Cam::read(Role::Control, true, 0x0108_0000).is_some());
    assert!(rt; Cam::read(Role::Control, true, 0x0108_0800).is_none());
    assert!(rt; Cam::read(Role::Control, true, 0x0108_0400).is_none());
}

#[test]
fn the_bits_without_a_name_are_zero(rt: HostRuntime) {
    assert!(rt; Cam::read(Role::Control, true, 0x0108_0200).is_none());
    assert!(rt; Cam::read(Role::Control, true, 0x0108_0001).is_none());
    assert!(rt; Cam::read(Role::Control, true, 0x0108_8000).is_none());
    assert!(rt; Cam::read(Role::Control, true, 0x0128_0000).is_none());
}

#[test]
fn a_time_has_three_codes(rt: HostRuntime) {
    assert!(rt; Cam::read(Role::Control, true, 0x0108_2000).is_some());
    assert!(rt; Cam::read(Role::Control, true, 0x0108_3000).is_none());
    assert!(rt; Cam::read(Role::Control, true, 0x0108_4000).is_none());
    assert!(rt; Cam::read(Role::Control, true, 0x0108_7000).is_none());
}

#[test]
fn a_validation_and_a_state_have_executed_nothing(rt: HostRuntime) {
    assert!(rt; Cam::read(Role::Ack, true, 0x0110_0000).is_some());
    assert!(rt; Cam::read(Role::Ack, true, 0x0110_0800).is_none());
    assert!(rt; Cam::read(Role::Ack, true, 0x0110_0400).is_none());
    assert!(rt; Cam::read(Role::Ack, true, 0x0004_0000).is_some());
    assert!(rt; Cam::read(Role::Ack, true, 0x0004_0800).is_none());
    assert!(rt; Cam::read(Role::Ack, true, 0x0004_0400).is_none());
}

#[test]
fn a_state_has_no_warnings_and_no_errors(rt: HostRuntime) {
    assert!(rt; Cam::read(Role::Ack, true, 0x0006_0000).is_none());
    assert!(rt; Cam::read(Role::Ack, true, 0x0005_0000).is_none());
}

#[test]
fn an_answer_without_a_stamp_has_no_time(rt: HostRuntime) {
    assert!(rt; Cam::read(Role::Ack, false, 0x0108_0000).is_some());
    assert!(rt; Cam::read(Role::Ack, false, 0x0108_1000).is_none());
    assert!(rt; Cam::read(Role::Ack, true, 0x0108_1000).is_some());
}

#[test]
fn a_cancellation_asks_for_no_state_and_has_executed_nothing(rt: HostRuntime) {
    assert!(rt; Cam::read(Role::Cancel, true, 0x0008_0000).is_some());
    assert!(rt; Cam::read(Role::Cancel, true, 0x000C_0000).is_none());
    assert!(rt; Cam::read(Role::Cancel, true, 0x0008_0800).is_none());
    assert!(rt; Cam::read(Role::Cancel, true, 0x0008_0400).is_none());
}

#[test]
fn only_an_identity_that_is_named_has_a_form(rt: HostRuntime) {
    // Bit 30 with bit 31, and with bit 29 in its place; bit 28 with bit 29, and with bit 31.
    assert!(rt; Cam::read(Role::Control, true, 0xC108_0000).is_some());
    assert!(rt; Cam::read(Role::Control, true, 0x6108_0000).is_none());
    assert!(rt; Cam::read(Role::Control, true, 0x3108_0000).is_some());
    assert!(rt; Cam::read(Role::Control, true, 0x9108_0000).is_none());
    assert!(rt; Cam::read(Role::Control, true, 0x1108_0000).is_none());
}

#[test]
fn each_bit_of_a_command_is_free_or_not(rt: HostRuntime) {
    // Execution with X: free are 31, 29, 27 to 24, 22, 20 to 16, and the times 001 and 010.
    assert_eq!(rt; free_bits(Role::Control, true, 0x0108_0000), 0xAF5F_3000);
    assert_eq!(rt; free_bits(Role::Control, false, 0x0108_0000), 0xAF5F_0000);
    // With both named, their forms and their names; the name of a UUID is not.
    assert_eq!(rt; free_bits(Role::Control, true, 0xA108_0000), 0xFF5F_3000);
    assert_eq!(rt; free_bits(Role::Control, true, 0xF108_0000), 0x5F5F_3000);
}

#[test]
fn each_bit_of_a_cancellation_is_free_or_not(rt: HostRuntime) {
    assert_eq!(rt; free_bits(Role::Cancel, true, 0x0108_0000), 0xAF4B_0000);
    assert_eq!(rt; free_bits(Role::Cancel, false, 0x0108_0000), 0xAF4B_0000);
}

#[test]
fn each_bit_of_an_acknowledgement_is_free_or_not(rt: HostRuntime) {
    // Of the validation, of the execution and of the state, with a stamp and without.
    assert_eq!(rt; free_bits(Role::Ack, true, 0x0110_0000), 0xAF43_3000);
    assert_eq!(rt; free_bits(Role::Ack, true, 0x0108_0000), 0xAF43_3C00);
    assert_eq!(rt; free_bits(Role::Ack, true, 0x0004_0000), 0xAFC0_3000);
    assert_eq!(rt; free_bits(Role::Ack, false, 0x0110_0000), 0xAF43_0000);
    assert_eq!(rt; free_bits(Role::Ack, false, 0x0108_0000), 0xAF43_0C00);
    assert_eq!(rt; free_bits(Role::Ack, false, 0x0004_0000), 0xAFC0_0000);
}
