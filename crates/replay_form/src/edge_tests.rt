//! Both sides of each rule of a header and a frame.

ghost use Rattle.std.specs.Prelude.{◌<◌, ◌^◌, length};

use crate::tests::whole_verdict;
use crate::{Ident, RecordFault, RecordReader};
use std::alloc::Global;
use std::test::Fail;
use test_records::{HEADER, frame_head, second_form};
use vrt_words::{NoMemory, put_word, put_words};

// Words that are others, each by its position in the header.
type Changes<'a> = &'a [(usize, u32)];

// The header with such changes.
fn changed(changes: Changes) -> [u8; 332] {
    let mut bytes = [0; 332];
    put_words(&mut bytes, 0, &HEADER);
    for (position, word) in changes {
        if *position < 83 {
            put_word(&mut bytes, *position, *word);
        }
    }
    bytes
}

// The offset at which bytes are wrong, or end too early, or `None` where they are a record.
fn fault(alloc: Global, bytes: &[u8]) -> Result<Option<u64>, NoMemory>
    requires { length bytes.now < 2 ^ 32 }
{
    match whole_verdict(alloc, bytes)? {
        (_, Ok(())) => Ok(None),
        (_, Err(fault)) => Ok(Some(fault.offset)),
    }
}

// Whether the header is right with each of the first changes, as far as it goes without routes, and
// wrong at the offset with each of the others.
fn is_judged(
    alloc: Global,
    right: &[Changes],
    wrong: &[Changes],
    offset: u64,
) -> Result<bool, NoMemory> {
    for changes in right {
        match fault(alloc, &changed(*changes))? {
            None | Some(332) => {}
            Some(_) => return Ok(false),
        }
    }
    for changes in wrong {
        if fault(alloc, &changed(*changes))? != Some(offset) {
            return Ok(false);
        }
    }
    Ok(true)
}

#[test]
fn what_packets_have_in_common_is_in_its_range(rt: HostRuntime) -> Result<(), Fail> {
    let alloc = rt.alloc();
    // The class identifier has 24 bits.
    assert!(rt;
        is_judged(
            alloc,
            &[&[(2, 0)], &[(2, 0x00FF_FFFF)]],
            &[&[(2, 0x0100_0000)]],
            8
        )?
    );
    // There are three codes of the seconds.
    let right: [Changes; 3] = [&[(3, 1)], &[(3, 2)], &[(3, 3)]];
    assert!(rt; is_judged(alloc, &right, &[&[(3, 0)], &[(3, 4)]], 12)?);
    // A packet has 43 words at most, or more.
    let right: [Changes; 2] = [&[(4, 43)], &[(4, 16_376)]];
    assert!(rt; is_judged(alloc, &right, &[&[(4, 42)], &[(4, 16_377)]], 16)?);
    Ok(())
}

#[test]
fn what_is_kept_of_a_stream_is_in_its_range(rt: HostRuntime) -> Result<(), Fail> {
    let alloc = rt.alloc();
    assert!(rt; is_judged(alloc, &[&[(5, 0)], &[(5, 4_096)]], &[&[(5, 4_097)]], 20)?);
    assert!(rt; is_judged(alloc, &[&[(6, 0)], &[(6, 4_096)]], &[&[(6, 4_097)]], 24)?);
    let right: [Changes; 2] = [&[(7, 2)], &[(7, 4_096)]];
    assert!(rt; is_judged(alloc, &right, &[&[(7, 1)], &[(7, 4_097)]], 28)?);
    Ok(())
}

// The last word of the magic in form 2.
const SECOND: (usize, u32) = (1, 0x5245_4332);

#[test]
fn a_form_says_how_many_packets_may_wait(rt: HostRuntime) -> Result<(), Fail> {
    let alloc = rt.alloc();
    let right: [Changes; 4] = [
        &[(8, 1)],
        &[(8, 65_536)],
        &[SECOND, (8, 1)],
        &[SECOND, (8, 1_048_576)],
    ];
    let wrong: [Changes; 4] = [
        &[(8, 0)],
        &[(8, 65_537)],
        &[SECOND, (8, 0)],
        &[SECOND, (8, 1_048_577)],
    ];
    assert!(rt; is_judged(alloc, &right, &wrong, 32)?);
    Ok(())
}

#[test]
fn a_form_says_how_many_routes_there_are(rt: HostRuntime) -> Result<(), Fail> {
    let alloc = rt.alloc();
    let right: [Changes; 4] = [
        &[(9, 0)],
        &[(9, 64)],
        &[SECOND, (9, 65)],
        &[SECOND, (9, 256)],
    ];
    let wrong: [Changes; 2] = [&[(9, 65)], &[SECOND, (9, 257)]];
    assert!(rt; is_judged(alloc, &right, &wrong, 36)?);
    Ok(())
}

#[test]
fn the_buffers_of_all_routes_have_2_to_the_30_bytes(rt: HostRuntime) -> Result<(), Fail> {
    let alloc = rt.alloc();
    // 64 routes, each with one buffer and those that wait, of 16,384 bytes.
    let right: [Changes; 2] = [
        &[(4, 4_096), (8, 1_023), (9, 64)],
        &[(4, 4_096), (5, 1_000), (8, 23), (9, 64)],
    ];
    let wrong: [Changes; 2] = [
        &[(4, 4_096), (8, 1_024), (9, 64)],
        &[(4, 4_096), (5, 1_000), (8, 24), (9, 64)],
    ];
    assert!(rt; is_judged(alloc, &right, &wrong, 36)?);
    Ok(())
}

#[test]
fn an_identity_has_zeros_behind_its_form(rt: HostRuntime) -> Result<(), Fail> {
    let alloc = rt.alloc();
    assert!(rt; is_judged(alloc, &[&[(10, 2)]], &[&[(10, 3)]], 40)?);
    let right: [Changes; 3] = [
        &[(10, 1), (11, 7)],
        &[(10, 1), (11, 0)],
        &[(10, 2), (11, 1), (12, 2), (13, 3), (14, 4)],
    ];
    let wrong: [Changes; 5] = [
        &[(11, 1)],
        &[(14, 1)],
        &[(10, 1), (11, 7), (12, 1)],
        &[(10, 1), (11, 7), (13, 1)],
        &[(10, 1), (11, 7), (14, 1)],
    ];
    assert!(rt; is_judged(alloc, &right, &wrong, 44)?);
    Ok(())
}

#[test]
fn an_identity_of_one_word_is_read(rt: HostRuntime) -> Result<(), Fail> {
    let mut reader = RecordReader::open(rt.alloc())?;
    assert!(rt; reader.feed(&changed(&[(10, 1), (11, 7)])).is_ok());
    let head = reader.head().ok_or("no header")?;
    assert!(rt; head.identity == Ident::Word(7));
    Ok(())
}

#[test]
fn the_initial_fields_are_those_of_a_context(rt: HostRuntime) -> Result<(), Fail> {
    let alloc = rt.alloc();
    // The rate's two words, and those of the payload format.
    let right: [Changes; 3] = [
        &[(26, 0x7FFF_FFFF)],
        &[(26, 0), (27, 0x0010_0000)],
        &[(26, 1), (27, 0)],
    ];
    assert!(rt; is_judged(alloc, &right, &[&[(26, 0x8000_0000)]], 104)?);
    assert!(rt; is_judged(alloc, &[], &[&[(26, 0), (27, 0x000F_FFFF)]], 108)?);
    let right: [Changes; 2] = [&[(32, 0xA000_00C3)], &[(32, 0x2000_01C7)]];
    let wrong: [Changes; 3] = [
        &[(32, 0xA000_0082)],
        &[(32, 0xA000_0410)],
        &[(32, 0x2000_02CB)],
    ];
    assert!(rt; is_judged(alloc, &right, &wrong, 128)?);
    assert!(rt; is_judged(alloc, &[&[(33, 0)]], &[&[(33, 1)]], 132)?);
    // All other words are free.
    assert!(rt;
        is_judged(
            alloc,
            &[&[(15, 0xFFFF_FFFF), (25, 0xFFFF_FFFF), (31, 0xFFFF_FFFF)]],
            &[],
            0
        )?
    );
    Ok(())
}

#[test]
fn a_field_that_is_not_set_has_zeros(rt: HostRuntime) -> Result<(), Fail> {
    let alloc = rt.alloc();
    // The bandwidth.
    assert!(rt; is_judged(alloc, &[&[(34, 0)]], &[&[(34, 2)]], 136)?);
    assert!(rt; is_judged(alloc, &[], &[&[(35, 1)], &[(36, 1)], &[(34, 1)]], 140)?);
    assert!(rt; is_judged(alloc, &[], &[&[(37, 1)], &[(38, 1)]], 148)?);
    assert!(rt; is_judged(alloc, &[], &[&[(39, 1)], &[(40, 1)]], 156)?);
    Ok(())
}

#[test]
fn a_step_is_a_signed_number_above_0(rt: HostRuntime) -> Result<(), Fail> {
    let alloc = rt.alloc();
    let right: [Changes; 3] = [
        &[(34, 1), (36, 1)],
        &[(34, 1), (35, 0x7FFF_FFFF), (36, 0xFFFF_FFFF)],
        // From the least number of 64 bits to the greatest one.
        &[
            (34, 1),
            (36, 1),
            (37, 0x8000_0000),
            (39, 0x7FFF_FFFF),
            (40, 0xFFFF_FFFF),
        ],
    ];
    assert!(rt; is_judged(alloc, &right, &[&[(34, 1), (35, 0x8000_0000)]], 140)?);
    Ok(())
}

// The entry of the reference level, with a step, a least and a greatest number, the last two given
// by their low words, which are negative where these have the upper bit.
fn level(step: u32, least: u32, greatest: u32) -> [(usize, u32); 6] {
    [
        (62, 1),
        (64, step),
        (65, if least < 1 << 31 { 0 } else { 0xFFFF_FFFF }),
        (66, least),
        (67, if greatest < 1 << 31 { 0 } else { 0xFFFF_FFFF }),
        (68, greatest),
    ]
}

#[test]
fn bounds_are_multiples_of_the_step(rt: HostRuntime) -> Result<(), Fail> {
    let alloc = rt.alloc();
    // From -5 to 5 by 5, and 5 alone.
    let right = [level(5, 0xFFFF_FFFB, 5), level(5, 5, 5), level(1, 5, 5)];
    for changes in &right {
        assert!(rt; is_judged(alloc, &[changes], &[], 0)?);
    }
    for changes in &[
        level(5, 0xFFFF_FFFA, 5),
        level(5, 0xFFFF_FFFC, 5),
        level(5, 4, 5),
    ] {
        assert!(rt; is_judged(alloc, &[], &[changes], 260)?);
    }
    for changes in &[
        level(5, 0xFFFF_FFFB, 4),
        level(5, 5, 6),
        level(5, 0xFFFF_FFF6, 0xFFFF_FFFA),
    ] {
        assert!(rt; is_judged(alloc, &[], &[changes], 268)?);
    }
    Ok(())
}

#[test]
fn a_greatest_number_is_not_below_the_least(rt: HostRuntime) -> Result<(), Fail> {
    let alloc = rt.alloc();
    let wrong = [level(1, 5, 4), level(1, 0, 0xFFFF_FFFF), level(5, 5, 0)];
    for changes in &wrong {
        assert!(rt; is_judged(alloc, &[], &[changes], 268)?);
    }
    Ok(())
}

#[test]
fn a_level_is_a_signed_number_of_16_bits(rt: HostRuntime) -> Result<(), Fail> {
    let alloc = rt.alloc();
    // From -32,768 to 32,767, and 32,767 alone.
    for changes in &[level(1, 0xFFFF_8000, 32_767), level(1, 32_767, 32_767)] {
        assert!(rt; is_judged(alloc, &[changes], &[], 0)?);
    }
    for changes in &[level(1, 0xFFFF_7FFF, 0), level(1, 32_768, 32_768)] {
        assert!(rt; is_judged(alloc, &[], &[changes], 260)?);
    }
    assert!(rt; is_judged(alloc, &[], &[&level(1, 0, 32_768)], 268)?);
    Ok(())
}

#[test]
fn a_gain_is_a_signed_number_of_16_bits(rt: HostRuntime) -> Result<(), Fail> {
    let alloc = rt.alloc();
    let right: [Changes; 2] = [&[(73, 0xFFFF_8000)], &[(71, 1), (75, 32_767)]];
    assert!(rt; is_judged(alloc, &right, &[&[(71, 1), (73, 0xFFFF_7FFF)]], 288)?);
    assert!(rt; is_judged(alloc, &[], &[&[(71, 1), (75, 32_768)]], 296)?);
    Ok(())
}

#[test]
fn a_least_rate_is_a_hertz_or_more(rt: HostRuntime) -> Result<(), Fail> {
    let alloc = rt.alloc();
    let right: [Changes; 1] = [&[(78, 1), (79, 0), (80, 0x0010_0000)]];
    let wrong: [Changes; 2] = [
        &[(78, 1), (79, 0), (80, 0x000F_FFFF)],
        &[(78, 1), (79, 0xFFFF_FFFF)],
    ];
    assert!(rt; is_judged(alloc, &right, &wrong, 316)?);
    Ok(())
}

// The offset at which a record with a route of form 2 is wrong. The words behind the stream are the
// number of ports and four ports.
fn route_fault(alloc: Global, words: &[u32; 3]) -> Result<Option<u64>, NoMemory> {
    let mut bytes = [0; 348];
    put_words(&mut bytes, 0, &second_form());
    put_words(&mut bytes, 84, words);
    fault(alloc, &bytes)
}

#[test]
fn a_route_of_form_2_has_one_to_four_ports(rt: HostRuntime) -> Result<(), Fail> {
    let alloc = rt.alloc();
    let rows = [
        ([0x0001_0009, 0, 0], None),
        ([0x0004_0009, 0x0007_0008, 0x0006_0000], None),
        // No port may be a port, and two ports may be 0 and another one.
        ([0x0002_0000, 0x0007_0000, 0], None),
        ([0, 0, 0], Some(336)),
        ([0x0005_0009, 0x0007_0008, 0x0006_0000], Some(336)),
        ([0x0002_0009, 0x0009_0000, 0], Some(340)),
        ([0x0003_0009, 0x0007_0009, 0], Some(342)),
        ([0x0003_0009, 0x0007_0007, 0], Some(342)),
        ([0x0004_0009, 0x0007_0008, 0x0009_0000], Some(344)),
        // A port behind the last.
        ([0x0001_0009, 0x0007_0000, 0], Some(340)),
        ([0x0002_0009, 0x0007_0001, 0], Some(342)),
        ([0x0003_0009, 0x0007_0008, 0x0001_0000], Some(344)),
        ([0x0004_0009, 0x0007_0008, 0x0006_0001], Some(346)),
    ];
    for (words, offset) in rows {
        assert!(rt; route_fault(alloc, &words)? == offset);
    }
    Ok(())
}

#[test]
fn streams_rise(rt: HostRuntime) -> Result<(), Fail> {
    let alloc = rt.alloc();
    let rows = [
        ([0, 0x0009_0000, 0xFFFF_FFFF, 0xFFFF_0000], None),
        ([5, 0x0009_0000, 6, 0x0009_0000], None),
        ([5, 0x0009_0000, 5, 0x0009_0000], Some(340)),
        ([5, 0x0009_0000, 4, 0x0009_0000], Some(340)),
        ([5, 0x0009_0001, 6, 0x0009_0000], Some(338)),
        ([5, 0x0009_0000, 6, 0x0009_0001], Some(346)),
    ];
    for (words, offset) in rows {
        let mut bytes = [0; 348];
        bytes[..332].copy_from_slice(&changed(&[(9, 2)]));
        put_words(&mut bytes, 83, &words);
        assert!(rt; fault(alloc, &bytes)? == offset);
    }
    Ok(())
}

// The offset at which a record of two frames without a byte is wrong, of which these are the words
// in front of the second one's length.
fn frame_fault(alloc: Global, words: &[u32; 5]) -> Result<Option<u64>, NoMemory> {
    let mut bytes = [0; 372];
    put_words(&mut bytes, 0, &HEADER);
    // At 0x6553F10A and 5 ps.
    put_words(&mut bytes, 83, &[0x6553_F10A, 0, 5, 0x0005_0000, 0]);
    put_words(&mut bytes, 88, words);
    fault(alloc, &bytes)
}

#[test]
fn frames_come_one_after_another(rt: HostRuntime) -> Result<(), Fail> {
    let alloc = rt.alloc();
    let rows = [
        ([0x6553_F10A, 0, 5, 0xFFFF_0000, 0], None),
        ([0x6553_F10B, 0, 0, 0, 0], None),
        ([0xFFFF_FFFF, 0xE8, 0xD4A5_0FFF, 0, 0], None),
        ([0x6553_F109, 0, 5, 0, 0], Some(352)),
        ([0x6553_F10A, 0, 4, 0, 0], Some(356)),
        ([0x6553_F10B, 0xE8, 0xD4A5_1000, 0, 0], Some(356)),
        ([0x6553_F10A, 0, 5, 1, 0], Some(366)),
        // The longest datagram, of which no byte is there, and one that is too long.
        ([0x6553_F10A, 0, 5, 0, 65_535], Some(372)),
        ([0x6553_F10A, 0, 5, 0, 65_536], Some(368)),
    ];
    for (words, offset) in rows {
        assert!(rt; frame_fault(alloc, &words)? == offset);
    }
    Ok(())
}

#[test]
fn the_longest_datagram_has_65_535_bytes(rt: HostRuntime) -> Result<(), Fail> {
    let alloc = rt.alloc();
    let mut bytes = [0; 352];
    put_words(&mut bytes, 0, &HEADER);
    put_words(&mut bytes, 83, &frame_head(0x6553_F10A, 65_535));
    assert!(rt; fault(alloc, &bytes)? == Some(352));
    put_words(&mut bytes, 87, &[65_536]);
    assert!(rt; fault(alloc, &bytes)? == Some(348));
    Ok(())
}

#[test]
fn a_magic_names_one_of_two_forms(rt: HostRuntime) -> Result<(), Fail> {
    let alloc = rt.alloc();
    let right: [Changes; 2] = [&[(1, 0x5245_4331)], &[SECOND]];
    let wrong: [Changes; 3] = [
        &[(1, 0x5245_4330)],
        &[(1, 0x5245_4333)],
        &[(0, 0x4449_4648)],
    ];
    assert!(rt; is_judged(alloc, &right, &wrong, 0)?);
    Ok(())
}
