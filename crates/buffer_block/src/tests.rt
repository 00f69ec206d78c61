use super::*;
use std::alloc::AllocError;
use std::test::Fail;

// Fills it where the bytes have room.
fn put(buf: &mut BlockBuf, bytes: &[u8]) -> bool {
    let fits = bytes.len() <= buf.room();
    if fits {
        buf.fill(bytes);
    }
    fits
}

fn opened(rt: &HostRuntime, room: usize, number: usize) -> Result<Vec<BlockBuf>, Fail> {
    match BlockBuf::open_many(rt.alloc(), room, number) {
        Ok(bufs) => Ok(bufs),
        Err(_) => Err(Fail::from("no memory")),
    }
}

#[test]
fn buffers_are_as_many_as_asked_for(rt: HostRuntime) -> Result<(), Fail> {
    for number in [0, 1, 2, 5, 1000] {
        let bufs = opened(&rt, 3, number)?;
        assert_eq!(rt; bufs.len(), number);
        for buf in bufs.iter() {
            assert_eq!(rt; buf.room(), 3);
            assert!(rt; buf.bytes().is_empty());
        }
    }
    Ok(())
}

#[test]
fn each_buffer_has_its_room(rt: HostRuntime) -> Result<(), Fail> {
    for room in [0, 1, 2, 172, 65_504] {
        let bufs = opened(&rt, room, 3)?;
        for buf in bufs.iter() {
            assert_eq!(rt; buf.room(), room);
        }
    }
    Ok(())
}

#[test]
fn a_buffer_holds_what_was_put_last(rt: HostRuntime) -> Result<(), Fail> {
    let mut bufs = opened(&rt, 4, 1)?;
    for buf in bufs.iter_mut() {
        assert!(rt; put(buf, &[1, 2, 3, 4]));
        assert_eq!(rt; buf.bytes(), [1, 2, 3, 4].as_slice());
        assert!(rt; put(buf, &[5, 6]));
        assert_eq!(rt; buf.bytes(), [5, 6].as_slice());
        assert!(rt; put(buf, &[]));
        assert!(rt; buf.bytes().is_empty());
        assert!(rt; put(buf, &[7, 8, 9]));
        assert!(rt; !put(buf, &[1, 2, 3, 4, 5]));
        assert_eq!(rt; buf.bytes(), [7, 8, 9].as_slice());
        assert_eq!(rt; buf.room(), 4);
    }
    Ok(())
}

#[test]
fn a_buffer_is_shown_with_its_room(rt: HostRuntime) -> Result<(), Fail> {
    let mut bufs = opened(&rt, 4, 1)?;
    for buf in bufs.iter_mut() {
        assert!(rt; put(buf, &[1, 2]));
        let Ok(text) = format!(in rt.alloc(); "{buf:?}") else {
            return Err(Fail::from("no memory"));
        };
        assert_eq!(rt; text.as_str(), "BlockBuf { room: 4, bytes: [1, 2] }");
    }
    Ok(())
}

#[test]
fn no_buffer_reaches_into_another(rt: HostRuntime) -> Result<(), Fail> {
    let mut bufs = opened(&rt, 2, 3)?;
    let rows = [[1, 2], [3, 4], [5, 6]];
    for (buf, row) in bufs.iter_mut().zip(rows) {
        assert!(rt; put(buf, &row));
    }
    for (buf, row) in bufs.iter().zip(rows) {
        assert_eq!(rt; buf.bytes(), row.as_slice());
    }
    for buf in bufs.iter_mut().skip(1).take(1) {
        assert!(rt; put(buf, &[9]));
    }
    let after = [[1, 2].as_slice(), &[9], &[5, 6]];
    for (buf, row) in bufs.iter().zip(after) {
        assert_eq!(rt; buf.bytes(), row);
    }
    Ok(())
}

#[test]
fn the_block_lasts_until_the_last_buffer(rt: HostRuntime) -> Result<(), Fail> {
    let mut bufs = opened(&rt, 8, 4)?;
    for buf in bufs.iter_mut() {
        assert!(rt; put(buf, b"one last"));
    }
    let Some(last) = bufs.pop() else {
        return Err(Fail::from("no buffer"));
    };
    drop(bufs);
    assert_eq!(rt; last.bytes(), b"one last".as_slice());
    Ok(())
}

#[test]
fn buffers_that_no_memory_holds_are_refused(rt: HostRuntime) {
    for (room, number) in [
        (usize::MAX, 2),
        (2, usize::MAX),
        (usize::MAX / 2 + 1, 1),
        (1, usize::MAX),
    ] {
        assert!(rt;
            matches!(
                BlockBuf::open_many(rt.alloc(), room, number),
                Err(AllocError)
            )
        );
    }
}

fn is_send_and_sync<T: Send + Sync + Drop>(_value: T) {}

#[test]
fn buffers_may_be_sent_and_shared(rt: HostRuntime) -> Result<(), Fail> {
    is_send_and_sync(opened(&rt, 1, 1)?);
    Ok(())
}
