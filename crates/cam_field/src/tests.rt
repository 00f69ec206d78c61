use super::*;
use std::test::Fail;

/// A CAM that asks for nothing.
const SILENT: Cam = Cam {
    ce: false,
    ie: false,
    cr: false,
    ir: false,
    partial: false,
    warnings: false,
    errors: false,
    action: Action::None,
    nk: false,
    v: false,
    x: false,
    s: false,
    warned: false,
    erred: false,
    timing: Timing::Now,
    in_part: false,
    executed: false,
};

fn is_exact(role: Role, timed: bool, word: u32) -> bool {
    match Cam::read(role, timed, word) {
        Some(cam) => cam.write() == word,
        None => false,
    }
}

#[test]
fn the_words_of_commands_are_read_and_written(rt: HostRuntime) {
    // Execute with X; with P; at the stamp; at the stamp with P; with a controllee; with W; a query.
    assert!(rt; is_exact(Role::Control, false, 0x0108_0000));
    assert!(rt; is_exact(Role::Control, false, 0x0908_0000));
    assert!(rt; is_exact(Role::Control, true, 0x0108_1000));
    assert!(rt; is_exact(Role::Control, true, 0x0908_1000));
    assert!(rt; is_exact(Role::Control, false, 0x8108_0000));
    assert!(rt; is_exact(Role::Control, false, 0x0508_0000));
    assert!(rt; is_exact(Role::Control, false, 0x0004_0000));
    assert!(rt; is_exact(Role::Cancel, false, 0x0008_0000));
}

#[test]
fn the_words_of_acknowledgements_are_read_and_written(rt: HostRuntime) {
    // Errors and nothing executed; a part executed; a cancellation done; a part at the stamp; a
    // state; warnings and all executed; a stamp that has passed.
    assert!(rt; is_exact(Role::Ack, true, 0x0109_0000));
    assert!(rt; is_exact(Role::Ack, true, 0x0909_0C00));
    assert!(rt; is_exact(Role::Ack, true, 0x0008_0400));
    assert!(rt; is_exact(Role::Ack, true, 0x0109_1C00));
    assert!(rt; is_exact(Role::Ack, true, 0x0004_0000));
    assert!(rt; is_exact(Role::Ack, true, 0x050A_0400));
    assert!(rt; is_exact(Role::Ack, true, 0x0109_1000));
}

#[test]
fn each_bit_has_its_field(rt: HostRuntime) -> Result<(), Fail> {
    let cam = Cam::read(Role::Ack, true, 0x0909_0C00).ok_or("refused")?;
    assert!(rt;
        cam == Cam {
            partial: true,
            action: Action::Execute,
            x: true,
            erred: true,
            in_part: true,
            executed: true,
            ..SILENT
        }
    );
    let timed = Cam::read(Role::Control, true, 0xF4C8_2000).ok_or("refused")?;
    assert!(rt;
        timed
            == Cam {
                ce: true,
                ie: true,
                cr: true,
                ir: true,
                warnings: true,
                action: Action::DryRun,
                nk: true,
                x: true,
                timing: Timing::AtOrNow,
                ..SILENT
            }
    );
    Ok(())
}

#[test]
fn what_a_role_forbids_is_no_word(rt: HostRuntime) {
    // Action 11; bit 21; a form without its identity; a time in a packet without one.
    assert!(rt; Cam::read(Role::Control, true, 0x0188_0000).is_none());
    assert!(rt; Cam::read(Role::Control, true, 0x0028_0000).is_none());
    assert!(rt; Cam::read(Role::Control, true, 0x4008_0000).is_none());
    assert!(rt; Cam::read(Role::Control, false, 0x0108_1000).is_none());
    // A time or V in a cancellation; V and X, or a state with errors, in an acknowledgement.
    assert!(rt; Cam::read(Role::Cancel, true, 0x0008_1000).is_none());
    assert!(rt; Cam::read(Role::Cancel, true, 0x0010_0000).is_none());
    assert!(rt; Cam::read(Role::Ack, true, 0x0018_0000).is_none());
    assert!(rt; Cam::read(Role::Ack, true, 0x0005_0000).is_none());
}

#[test]
fn identities_are_the_same_in_form_and_words(rt: HostRuntime) {
    let uuid = Ident::Uuid([1, 2, 3, 4]);
    assert!(rt; same_ident(&uuid, &Ident::Uuid([1, 2, 3, 4])));
    assert!(rt; same_ident(&Ident::Word(1), &Ident::Word(1)));
    assert!(rt; same_ident(&Ident::None, &Ident::None));
    assert!(rt; !same_ident(&uuid, &Ident::Uuid([1, 2, 3, 5])));
    assert!(rt; !same_ident(&uuid, &Ident::Uuid([2, 1, 3, 4])));
    assert!(rt; !same_ident(&Ident::Word(1), &Ident::Word(2)));
    assert!(rt; !same_ident(&Ident::Word(0), &Ident::None));
    assert!(rt; !same_ident(&Ident::Word(1), &Ident::Uuid([1, 0, 0, 0])));
    assert!(rt; !same_ident(&Ident::None, &Ident::Uuid([0; 4])));
}
