ghost use Rattle.std.specs.Prelude.{◌≡◌, ℕ, ◌+◌, ◌*◌, ◌<◌, ◌≤◌, ◌^◌, false, length, IfOk};
ghost use Rattle.difi_gateway.specs.State.{is_ended};

use crate::Gateway;
use replay_form::{Event, RecordReader};
use std::alloc::Global;
use std::test::Fail;
use test_records::{BASE, HEADER, routed};
use vrt_time::Stamp;
use vrt_words::put_words;

// A data packet of stream 1 with the count 0 and one sample.
const DATA: [u32; 8] = [
    0x1860_0008,
    1,
    0x006A_621E,
    0,
    0x6553_F100,
    0,
    0,
    0x0001_0002,
];

// `DATA` whole, for port 9: no context behind its own came before the end.
const RAW: [u32; 12] = [3, 40, 1, 9, 0, 5, 0, 0x6553_F100, 0, 0, 0, 0x0001_0002];

// The counts of a context, and of a data packet that left whole.
const END: [u32; 16] = [7, 56, 0, 2, 0, 0, 0, 0, 0, 1, 0, 0, 0, 0, 0, 0];

// The refusal of `DATA` in the frame of this number: the packet came too late.
fn late(frame: u32) -> [u32; 10] {
    [5, 32, 0, frame, 5, 4, 0, 0x6553_F100, 0, 0]
}

// A gateway at this header.
fn opened(alloc: Global, head: &[u32]) -> Result<Gateway, Fail>
    requires { length head.now ≤ 85 }
    ensures running { IfOk result (λ gateway. is_ended gateway.stage ≡ false) }
    ensures taken { IfOk result (λ gateway. gateway.taken ≡ 0) }
{
    let mut bytes = [0; 340];
    put_words(&mut bytes, 0, head);
    let mut reader = RecordReader::open(alloc)?;
    let Ok((_, Event::Head)) = reader.feed(&bytes[..4 * head.len()]) else {
        return Err(Fail::from("no header"));
    };
    let head = reader.head().ok_or("no header")?;
    let gateway = Gateway::open(alloc, head)?;
    Ok(gateway)
}

// Whether nothing was owed, so that a frame with this packet was taken, which came on port 5.
fn takes(gateway: &mut Gateway, packet: &[u32]) -> Result<bool, Fail>
    requires running { is_ended gateway.old.stage ≡ false }
    requires few { gateway.old.taken < 2 ^ 62 }
    requires short { length packet.now ≤ 27 }
    ensures running { is_ended gateway.new.stage ≡ false }
    ensures taken { gateway.new.taken ≤ gateway.old.taken + 109 }
{
    let moment = Stamp::of_parts(0x6553_F10A, 0, 0).ok_or("stamp")?;
    if gateway.owes() {
        return Ok(false);
    }
    let mut bytes = [0; 108];
    put_words(&mut bytes, 0, packet);
    gateway.frame(moment, 5, &bytes[..4 * packet.len()]);
    Ok(true)
}

// Whether nothing was owed, so that the end was told.
fn ends(gateway: &mut Gateway) -> bool
    requires { is_ended gateway.old.stage ≡ false }
{
    if gateway.owes() {
        return false;
    }
    gateway.end();
    true
}

// Whether a record is owed and given, and it has these words.
fn gives(gateway: &mut Gateway, words: &[u32]) -> bool
    requires { length words.now ≤ 16 }
    ensures running { is_ended gateway.new.stage ≡ is_ended gateway.old.stage }
    ensures taken { gateway.new.taken ≡ gateway.old.taken }
{
    let mut bytes = [0; 64];
    put_words(&mut bytes, 0, words);
    let owed = gateway.owes();
    match gateway.next_record() {
        Some(record) => owed && record == &bytes[..4 * words.len()],
        None => false,
    }
}

// Whether nothing is owed, and nothing given.
fn waits(gateway: &mut Gateway) -> bool
    ensures running { is_ended gateway.new.stage ≡ is_ended gateway.old.stage }
    ensures taken { gateway.new.taken ≡ gateway.old.taken }
{
    !gateway.owes() && gateway.next_record().is_none()
}

#[test]
fn the_records_of_a_context_and_a_packet(rt: HostRuntime) -> Result<(), Fail> {
    let mut gateway = opened(rt.alloc(), &routed())?;
    assert!(rt; waits(&mut gateway));
    assert!(rt; takes(&mut gateway, &BASE)?);
    assert!(rt; waits(&mut gateway));
    assert!(rt; takes(&mut gateway, &DATA)?);
    assert!(rt; waits(&mut gateway));
    assert!(rt; ends(&mut gateway));
    assert!(rt; gives(&mut gateway, &RAW));
    assert!(rt; gives(&mut gateway, &END));
    assert!(rt; waits(&mut gateway));
    Ok(())
}

#[test]
fn the_counts_of_no_frames(rt: HostRuntime) -> Result<(), Fail> {
    let mut gateway = opened(rt.alloc(), &HEADER)?;
    assert!(rt; ends(&mut gateway));
    assert!(rt;
        gives(
            &mut gateway,
            &[7, 56, 0, 0, 0, 0, 0, 0, 0, 0, 0, 0, 0, 0, 0, 0]
        )
    );
    assert!(rt; waits(&mut gateway));
    Ok(())
}

// A packet of stream 2, which has no route.
#[test]
fn a_refusal_is_owed(rt: HostRuntime) -> Result<(), Fail> {
    let mut gateway = opened(rt.alloc(), &routed())?;
    let mut other = DATA;
    other[1] = 2;
    assert!(rt; takes(&mut gateway, &other)?);
    assert!(rt; gives(&mut gateway, &[5, 32, 0, 1, 5, 3, 2, 0, 0, 0]));
    assert!(rt; waits(&mut gateway));
    Ok(())
}

// With no window and one packet that may wait there are three buffers: the packet waits in one of them,
// and each of the others comes back when the same packet is too late.
#[test]
fn buffers_come_back(rt: HostRuntime) -> Result<(), Fail> {
    let mut head = routed();
    head[8] = 1;
    let mut gateway = opened(rt.alloc(), &head)?;
    assert!(rt; takes(&mut gateway, &DATA)?);
    assert!(rt; takes(&mut gateway, &DATA)?);
    assert!(rt; gives(&mut gateway, &late(2)));
    assert!(rt; takes(&mut gateway, &DATA)?);
    assert!(rt; gives(&mut gateway, &late(3)));
    assert!(rt; takes(&mut gateway, &DATA)?);
    assert!(rt; gives(&mut gateway, &late(4)));
    Ok(())
}
