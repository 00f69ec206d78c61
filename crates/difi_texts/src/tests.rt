use super::command_details::{push_ack, push_cancel, push_control};
use super::details::push_version;
use super::*;
use ack_codec::{Ack, AckReport, AckState, Responses};
use cam_field::{Action, Cam, Ident, Timing};
use command_codec::{Cancel, Control};
use difi_data::DataRec;
use difi_packet::{Packet, PacketKind};
use difi_version::VersionRec;
use vrt_fields::{Field, FieldSet};
use vrt_header::{Header, Kind, Prologue};
use vrt_time::Stamp;
use vrt_words::NoMemory;

/// A mode word that asks for nothing.
const SILENT: Cam = Cam {
    ce: false,
    ie: false,
    cr: false,
    ir: false,
    partial: false,
    warnings: false,
    errors: false,
    action: Action::None,
    nk: false,
    v: false,
    x: false,
    s: false,
    warned: false,
    erred: false,
    timing: Timing::Now,
    in_part: false,
    executed: false,
};

/// A prologue of stream 1 without a stamp.
fn prologue_of(kind: Kind) -> Prologue {
    Prologue {
        header: Header {
            kind,
            bit25: false,
            bit24: kind == Kind::Cancel,
            timed: false,
            count: 0,
            size: 7,
        },
        stream: 1,
        pad: 0,
        information: 0,
        packet: 0,
        stamp: None,
    }
}

/// A sample rate of 1 Hz.
fn rate() -> FieldSet {
    let mut set = FieldSet::empty();
    set.set(Field::SampleRate, 1 << 20);
    set
}

/// A report of nothing.
fn report_of(cam: Cam) -> AckReport {
    AckReport {
        prologue: prologue_of(Kind::Ack),
        cam,
        message: 7,
        controllee: Ident::None,
        controller: Ident::None,
        warnings: None,
        errors: None,
    }
}

/// An answer with the sample rate.
fn state_of(cam: Cam) -> AckState {
    AckState {
        prologue: prologue_of(Kind::Ack),
        cam,
        message: 3,
        controllee: Ident::None,
        controller: Ident::None,
        fields: rate(),
    }
}

#[test]
fn a_command_is_shown_with_its_fields(rt: HostRuntime) -> Result<(), NoMemory> {
    let mut out = TextBuffer::open(rt.alloc())?;
    let mut set = rate();
    set.set(Field::Gain, 0x600);
    let packet = Control {
        prologue: prologue_of(Kind::Control),
        cam: Cam {
            action: Action::Execute,
            x: true,
            ..SILENT
        },
        message: 1,
        controllee: Ident::None,
        controller: Ident::None,
        asked: 0x00A0_0000,
        fields: Some(set),
    };
    push_control(&mut out, &packet);
    let text =
        b"  time none\n  count 0\n  cam 01080000\n  message 00000001\n  controllee none\n  controller none\n  fields 00A00000\n  gain 1536/128 dB 0/128 dB\n  sample rate 1 Hz + 0/1048576\n";
    assert_eq!(rt; out.as_slice(), text.as_slice());
    Ok(())
}

#[test]
fn a_query_is_shown_with_its_stamp(rt: HostRuntime) -> Result<(), NoMemory> {
    let mut out = TextBuffer::open(rt.alloc())?;
    let mut prologue = prologue_of(Kind::Control);
    prologue.header.timed = true;
    prologue.header.count = 15;
    prologue.stamp = Stamp::of_picos(1_700_000_000, 5);
    let packet = Control {
        prologue,
        cam: Cam { s: true, ..SILENT },
        message: 0xFEDC_BA98,
        controllee: Ident::None,
        controller: Ident::None,
        asked: 0x0020_0000,
        fields: None,
    };
    push_control(&mut out, &packet);
    let text =
        b"  time 1700000000 s 000000000005 ps\n  count 15\n  cam 00040000\n  message FEDCBA98\n  controllee none\n  controller none\n  fields 00200000\n  query\n";
    assert_eq!(rt; out.as_slice(), text.as_slice());
    Ok(())
}

#[test]
fn a_command_of_no_field_is_no_query(rt: HostRuntime) -> Result<(), NoMemory> {
    let mut out = TextBuffer::open(rt.alloc())?;
    let packet = Control {
        prologue: prologue_of(Kind::Control),
        cam: SILENT,
        message: 2,
        controllee: Ident::None,
        controller: Ident::None,
        asked: 0,
        fields: Some(FieldSet::empty()),
    };
    push_control(&mut out, &packet);
    let text =
        b"  time none\n  count 0\n  cam 00000000\n  message 00000002\n  controllee none\n  controller none\n  fields 00000000\n";
    assert_eq!(rt; out.as_slice(), text.as_slice());
    Ok(())
}

#[test]
fn a_cancellation_is_shown_with_both_identities(rt: HostRuntime) -> Result<(), NoMemory> {
    let mut out = TextBuffer::open(rt.alloc())?;
    let packet = Cancel {
        prologue: prologue_of(Kind::Cancel),
        cam: Cam {
            ce: true,
            cr: true,
            ir: true,
            action: Action::Execute,
            x: true,
            ..SILENT
        },
        message: 5,
        controllee: Ident::Word(0xA1),
        controller: Ident::Uuid([1, 2, 0x8000_0000, 0xABCD]),
        named: 0x0080_0000,
    };
    push_cancel(&mut out, &packet);
    let text =
        b"  time none\n  count 0\n  cam B1080000\n  message 00000005\n  controllee 000000A1\n  controller 00000001 00000002 80000000 0000ABCD\n  fields 00800000\n";
    assert_eq!(rt; out.as_slice(), text.as_slice());
    Ok(())
}

#[test]
fn a_validation_is_shown_with_warnings_and_errors(rt: HostRuntime) -> Result<(), NoMemory> {
    let mut out = TextBuffer::open(rt.alloc())?;
    let mut report = report_of(Cam {
        action: Action::Execute,
        v: true,
        warned: true,
        erred: true,
        ..SILENT
    });
    report.warnings = Some(Responses {
        cif0: 0x00A0_0000,
        words: [0, 0, 0, 0, 0, 0, 0x12, 0x8000_0000, 0, 0, 0, 0],
    });
    report.errors = Some(Responses {
        cif0: 0x4000_8000,
        words: [1, 0, 0, 0, 0, 0, 0, 0, 0, 0, 0, 0xFFFF_FFFF],
    });
    push_ack(&mut out, &Ack::V(report));
    let text =
        b"  time none\n  count 0\n  cam 01130000\n  message 00000007\n  controllee none\n  controller none\n  warnings 00A00000\n  00800000 00000012\n  00200000 80000000\n  errors 40008000\n  40000000 00000001\n  00008000 FFFFFFFF\n";
    assert_eq!(rt; out.as_slice(), text.as_slice());
    Ok(())
}

#[test]
fn an_execution_without_warnings_and_errors_is_shown(rt: HostRuntime) -> Result<(), NoMemory> {
    let mut out = TextBuffer::open(rt.alloc())?;
    let report = report_of(Cam {
        action: Action::Execute,
        x: true,
        executed: true,
        ..SILENT
    });
    push_ack(&mut out, &Ack::X(report));
    let text =
        b"  time none\n  count 0\n  cam 01080400\n  message 00000007\n  controllee none\n  controller none\n";
    assert_eq!(rt; out.as_slice(), text.as_slice());
    Ok(())
}

#[test]
fn an_answer_to_a_query_is_shown_with_its_fields(rt: HostRuntime) -> Result<(), NoMemory> {
    let mut out = TextBuffer::open(rt.alloc())?;
    let state = state_of(Cam { s: true, ..SILENT });
    push_ack(&mut out, &Ack::S(state));
    let text =
        b"  time none\n  count 0\n  cam 00040000\n  message 00000003\n  controllee none\n  controller none\n  fields 00200000\n  sample rate 1 Hz + 0/1048576\n";
    assert_eq!(rt; out.as_slice(), text.as_slice());
    Ok(())
}

#[test]
fn a_data_packet_is_shown_with_its_pad(rt: HostRuntime) -> Result<(), NoMemory> {
    let mut out = TextBuffer::open(rt.alloc())?;
    let mut prologue = prologue_of(Kind::Data);
    prologue.header.timed = true;
    prologue.header.count = 7;
    prologue.header.size = 9;
    prologue.pad = 31;
    prologue.stamp = Stamp::of_picos(1_700_000_000, 0);
    let packet = DataRec {
        prologue,
        payload: &[1, 2, 3, 4, 5, 6, 7, 8],
    };
    push_under(&mut out, Listing::Show, &Packet::Data(packet));
    let text = b"  time 1700000000 s 000000000000 ps\n  count 7\n  pad 31\n  payload words 2\n";
    assert_eq!(rt; out.as_slice(), text.as_slice());
    Ok(())
}

// A version packet of stream 1 with this version word.
fn version_of(word: u32) -> VersionRec {
    VersionRec {
        prologue: prologue_of(Kind::Version),
        changed: false,
        spec: 0x1234_5678,
        version: word,
    }
}

#[test]
fn year_revision_and_icd_of_a_version_have_seven_six_and_six_bits(
    rt: HostRuntime,
) -> Result<(), NoMemory> {
    let mut out = TextBuffer::open(rt.alloc())?;
    push_version(&mut out, &version_of(0xFE00_FC3F));
    let text =
        b"  time none\n  count 0\n  changed no\n  spec 12345678\n  year 127 day 0 revision 63 type 0 icd 63\n";
    assert_eq!(rt; out.as_slice(), text.as_slice());
    Ok(())
}

#[test]
fn day_and_type_of_a_version_have_nine_and_four_bits(rt: HostRuntime) -> Result<(), NoMemory> {
    let mut out = TextBuffer::open(rt.alloc())?;
    push_version(&mut out, &version_of(0x01FF_03C0));
    let text =
        b"  time none\n  count 0\n  changed no\n  spec 12345678\n  year 0 day 511 revision 0 type 15 icd 0\n";
    assert_eq!(rt; out.as_slice(), text.as_slice());
    Ok(())
}

#[test]
fn nothing_stands_under_a_line_of_check(rt: HostRuntime) -> Result<(), NoMemory> {
    let mut out = TextBuffer::open(rt.alloc())?;
    let packet = DataRec {
        prologue: prologue_of(Kind::Data),
        payload: &[1, 2, 3, 4],
    };
    push_under(&mut out, Listing::Check, &Packet::Data(packet));
    assert!(rt; out.as_slice().is_empty());
    Ok(())
}

// The words of the frame with this number.
fn words(number: u8) -> FrameWords {
    let mut words = FrameWords::none();
    for _ in 0..number {
        words.step();
    }
    words
}

#[test]
fn frames_are_numbered_one_by_one(rt: HostRuntime) {
    assert_eq!(rt; words(0).as_slice(), b"frame 0".as_slice());
    assert_eq!(rt; words(9).as_slice(), b"frame 9".as_slice());
    assert_eq!(rt; words(10).as_slice(), b"frame 10".as_slice());
    assert_eq!(rt; words(200).as_slice(), b"frame 200".as_slice());
    assert_eq!(rt; words(201).number(), 201);
}

#[test]
fn each_acknowledgement_has_its_line(rt: HostRuntime) -> Result<(), NoMemory> {
    let mut out = TextBuffer::open(rt.alloc())?;
    let stream = 1;
    let kind = PacketKind::AckV;
    push_line(&mut out, &words(1), Judgement::Accepted { kind, stream });
    let kind = PacketKind::AckX;
    push_line(&mut out, &words(2), Judgement::Accepted { kind, stream });
    let kind = PacketKind::AckS;
    push_line(&mut out, &words(3), Judgement::Accepted { kind, stream });
    let text =
        b"frame 1 ok ackv stream 00000001\nframe 2 ok ackx stream 00000001\nframe 3 ok acks stream 00000001\n";
    assert_eq!(rt; out.as_slice(), text.as_slice());
    Ok(())
}

#[test]
fn a_command_and_its_cancellation_have_their_lines(rt: HostRuntime) -> Result<(), NoMemory> {
    let mut out = TextBuffer::open(rt.alloc())?;
    let stream = 0xABCD_EF01;
    let kind = PacketKind::Control;
    push_line(&mut out, &words(4), Judgement::Accepted { kind, stream });
    let kind = PacketKind::Cancel;
    push_line(&mut out, &words(5), Judgement::Accepted { kind, stream });
    let text = b"frame 4 ok control stream ABCDEF01\nframe 5 ok cancel stream ABCDEF01\n";
    assert_eq!(rt; out.as_slice(), text.as_slice());
    Ok(())
}
