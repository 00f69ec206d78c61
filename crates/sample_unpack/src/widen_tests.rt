ghost use Rattle.sample_unpack.specs.Samples.{LieWithin};
ghost use Rattle.std.specs.Prelude.{◌≡◌, ◌-◌, ◌*◌, ◌≤◌, length};

use super::*;
use byteorder::{BigEndian, ByteOrder};
use std::process::Abort;

#[test]
fn items_of_four_bits_are_widened_from_any_sample_on(rt: HostRuntime) {
    let payload =
        b"\x78\xF0\x87\x1E\x07\x78\xF0\x87\x1E\x07\x78\xF0\x87\x1E\x07\x78\xF0\x87\x1E\x07";
    let five = [
        0x0007_FFF8,
        0xFFFF_0000,
        0xFFF8_0007,
        0x0001_FFFE,
        0x0000_0007,
    ];
    widens(&rt, 4, payload, 20, five);
}

#[test]
fn items_that_are_bytes_are_widened_from_any_sample_on(rt: HostRuntime) {
    let payload =
        b"\x7F\x80\xFF\x00\x80\x7F\x01\xFE\x00\x7F\x7F\x80\xFF\x00\x80\x7F\x01\xFE\x00\x7F";
    let five = [
        0x007F_FF80,
        0xFFFF_0000,
        0xFF80_007F,
        0x0001_FFFE,
        0x0000_007F,
    ];
    widens(&rt, 8, payload, 10, five);
}

#[test]
fn items_of_twelve_bits_are_widened_from_any_sample_on(rt: HostRuntime) {
    let payload =
        b"\x7F\xF8\x00\xFF\xF0\x00\x80\x07\xFF\x00\x1F\xFE\x00\x07\xFF\x7F\xF8\x00\xFF\xF0\x00\x80\x07\xFF\x00\x1F\xFE\x00\x07\xFF\x00\x00";
    let five = [
        0x07FF_F800,
        0xFFFF_0000,
        0xF800_07FF,
        0x0001_FFFE,
        0x0000_07FF,
    ];
    widens(&rt, 12, payload, 10, five);
}

#[test]
fn items_of_fifteen_bits_are_widened_from_any_sample_on(rt: HostRuntime) {
    let payload =
        b"\x7F\xFF\x00\x03\xFF\xF8\x00\x08\x00\x0F\xFF\xC0\x00\xFF\xFE\x00\x00\xFF\xFD\xFF\xFC\x00\x0F\xFF\xE0\x00\x20\x00\x3F\xFF\x00\x03\xFF\xF8\x00\x03\xFF\xF0\x00\x00";
    let five = [
        0x3FFF_C000,
        0xFFFF_0000,
        0xC000_3FFF,
        0x0001_FFFE,
        0x0000_3FFF,
    ];
    widens(&rt, 15, payload, 10, five);
}

#[test]
fn items_of_sixteen_bits_are_copied_from_any_sample_on(rt: HostRuntime) {
    let payload =
        b"\x7F\xFF\x80\x00\xFF\xFF\x00\x00\x80\x00\x7F\xFF\x00\x01\xFF\xFE\x00\x00\x7F\xFF\x7F\xFF\x80\x00\xFF\xFF\x00\x00\x80\x00\x7F\xFF\x00\x01\xFF\xFE\x00\x00\x7F\xFF";
    let five = [
        0x7FFF_8000,
        0xFFFF_0000,
        0x8000_7FFF,
        0x0001_FFFE,
        0x0000_7FFF,
    ];
    widens(&rt, 16, payload, 10, five);
}

#[test]
fn no_samples_are_widened_of_any_payload(rt: HostRuntime) {
    let mut none = [0; 0];
    widen_into(&[], 12, u32::MAX, &mut none);
    widen_into(&[], 16, 7, &mut none);
    assert_eq!(rt; none.len(), 0);
}

/// The samples of a payload, which are five again and again, from each of the first five on.
fn widens(rt: &impl Abort, bits: u8, payload: &[u8], number: usize, five: [u32; 5])
    requires some_bits { 4 ≤ bits }
    requires most_bits { bits ≤ 16 }
    requires some { 5 ≤ number }
    requires most { number ≤ 20 }
    requires within { 2 * bits * number ≤ 8 * length payload.now }
{
    let mut expected = [0; 80];
    for index in 0..number {
        BigEndian::write_u32(&mut expected[4 * index..], five[index % 5]);
    }
    for first in 0..5 {
        let (start, end) = (4 * first, 4 * number);
        let mut wide = [0xAA; 80];
        widen_into(payload, bits, first as u32, &mut wide[start..end]);
        assert_eq!(rt; &wide[start..end], &expected[start..end]);
        let mut packed = [0xAA; 80];
        repack(payload, bits, first, number, &mut packed[start..end]);
        assert_eq!(rt; &packed[start..end], &expected[start..end]);
    }
}

/// The same by way of samples.
fn repack(payload: &[u8], bits: u8, first: usize, number: usize, into: &mut [u8])
    requires some_bits { 4 ≤ bits }
    requires most_bits { bits ≤ 16 }
    requires first { first ≤ number }
    requires most { number ≤ 20 }
    requires within { 2 * bits * number ≤ 8 * length payload.now }
    requires room { length into.old ≡ 4 * (number - first) }
{
    let mut samples = [Sample { i: 0, q: 0 }; 20];
    repack_through(
        payload,
        bits,
        first as u32,
        &mut samples[first..number],
        into,
    );
}

fn repack_through(payload: &[u8], bits: u8, first: u32, samples: &mut [Sample], into: &mut [u8])
    requires some_bits { 4 ≤ bits }
    requires most_bits { bits ≤ 16 }
    requires within { LieWithin bits first (length samples.old) (length payload.now) }
    requires room { length into.old ≡ 4 * length samples.old }
{
    unpack_into(payload, bits, first, samples);
    pack_into(samples, 16, into);
}
