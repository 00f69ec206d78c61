ghost use Rattle.std.specs.Prelude.{◌<◌, ◌^◌, length};

use crate::Gateway;
use crate::opening::open_parts;
use replay_form::{Event, RecordReader};
use std::alloc::Global;
use std::test::Fail;
use test_records::HEADER;
use vrt_words::put_words;

// Whether a gateway opens at a header, how many binders and buffers it has, and the room of the last
// buffer.
fn sizes(alloc: Global, bytes: &[u8]) -> Result<(usize, usize, Option<usize>), Fail>
    requires { length bytes.now < 2 ^ 32 }
{
    let mut reader = RecordReader::open(alloc)?;
    let Ok((_, Event::Head)) = reader.feed(bytes) else {
        return Err(Fail::from("no header"));
    };
    let head = reader.head().ok_or("no header")?;
    let gateway = Gateway::open(alloc, head)?;
    if gateway.owes() {
        return Err(Fail::from("a record is owed"));
    }
    let parts = open_parts(alloc, head)?;
    let room = parts.empty.last().map(|buf| buf.room());
    Ok((parts.binders.len(), parts.empty.len(), room))
}

#[test]
fn without_a_route_one_buffer(rt: HostRuntime) -> Result<(), Fail> {
    let mut bytes = [0; 332];
    put_words(&mut bytes, 0, &HEADER);
    assert_eq!(rt; sizes(rt.alloc(), &bytes)?, (0, 1, Some(1_600)));
    Ok(())
}

// No window, and eight packets waiting: nine buffers a route, and one more.
#[test]
fn two_routes_of_form_1(rt: HostRuntime) -> Result<(), Fail> {
    let mut bytes = [0; 348];
    put_words(&mut bytes, 0, &HEADER);
    put_words(&mut bytes, 9, &[2]);
    put_words(&mut bytes, 83, &[5, 0x0009_0000, 6, 0x000A_0000]);
    assert_eq!(rt; sizes(rt.alloc(), &bytes)?, (2, 19, Some(1_600)));
    Ok(())
}

// At most 43 words, a window of three data packets, and two waiting: six buffers a route, and one more.
#[test]
fn a_route_of_form_2_to_two_ports(rt: HostRuntime) -> Result<(), Fail> {
    let mut bytes = [0; 348];
    put_words(&mut bytes, 0, &HEADER);
    put_words(&mut bytes, 1, &[0x5245_4332]);
    put_words(&mut bytes, 4, &[43, 3, 0, 4, 2, 1]);
    put_words(&mut bytes, 83, &[5, 0x0002_0009, 0x0007_0000, 0]);
    assert_eq!(rt; sizes(rt.alloc(), &bytes)?, (1, 7, Some(172)));
    Ok(())
}
