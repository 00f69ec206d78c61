ghost use Rattle.std.specs.Prelude.{nat_eq};

use super::*;
use difi_context::ContextRec;
use std::test::Fail;
use vrt_header::{Header, Kind, Prologue};
use vrt_time::Stamp;
use vrt_words::PacketBuf;

impl HeldItem for u32 {
    ghost is_same = { nat_eq };

    fn same(&self, other: &Self) -> bool {
        self == other
    }
}

// The stamp of a whole second.
fn at(seconds: u32) -> Stamp {
    match Stamp::of_picos(seconds, 0) {
        Some(stamp) => stamp,
        None => unreachable!(),
    }
}

#[test]
fn a_window_of_two_puts_packets_in_order(rt: HostRuntime) -> Result<(), Fail> {
    let mut window = Window::open(rt.alloc(), 2).ok().ok_or("memory")?;
    assert_eq!(rt; window.arrive(at(0), 0, 10), Arrival::Kept);
    assert_eq!(rt; window.arrive(at(2), 2, 12), Arrival::Kept);
    assert_eq!(rt;
        window.arrive(at(1), 1, 11),
        Arrival::Released {
            stamp: at(0),
            lost: 0,
            item: 10
        }
    );
    assert_eq!(rt; window.arrive(at(1), 1, 11), Arrival::Repeat { item: 11 });
    assert_eq!(rt;
        window.arrive(at(3), 3, 13),
        Arrival::Released {
            stamp: at(1),
            lost: 0,
            item: 11
        }
    );
    assert_eq!(rt; window.drain_one(), Some((at(2), 0, 12)));
    assert_eq!(rt; window.drain_one(), Some((at(3), 0, 13)));
    assert!(rt; window.drain_one().is_none());
    Ok(())
}

#[test]
fn lost_packets_are_counted_modulo_sixteen(rt: HostRuntime) -> Result<(), Fail> {
    let mut window = Window::open(rt.alloc(), 0).ok().ok_or("memory")?;
    assert_eq!(rt;
        window.arrive(at(1), 0, 1),
        Arrival::Released {
            stamp: at(1),
            lost: 0,
            item: 1
        }
    );
    assert_eq!(rt;
        window.arrive(at(17), 0, 2),
        Arrival::Released {
            stamp: at(17),
            lost: 15,
            item: 2
        }
    );
    assert_eq!(rt;
        window.arrive(at(34), 1, 3),
        Arrival::Released {
            stamp: at(34),
            lost: 0,
            item: 3
        }
    );
    Ok(())
}

#[test]
fn a_window_of_one_counts_lost_packets_where_they_are_released(
    rt: HostRuntime,
) -> Result<(), Fail> {
    let mut pair = Window::open(rt.alloc(), 1).ok().ok_or("memory")?;
    assert_eq!(rt; pair.arrive(at(0), 0, 0), Arrival::Kept);
    assert_eq!(rt;
        pair.arrive(at(17), 1, 17),
        Arrival::Released {
            stamp: at(0),
            lost: 0,
            item: 0
        }
    );
    assert_eq!(rt;
        pair.arrive(at(16), 0, 16),
        Arrival::Released {
            stamp: at(16),
            lost: 15,
            item: 16
        }
    );
    assert_eq!(rt; pair.drain_one(), Some((at(17), 0, 17)));
    Ok(())
}

#[test]
fn packets_below_the_boundary_are_late(rt: HostRuntime) -> Result<(), Fail> {
    let mut none = Window::open(rt.alloc(), 0).ok().ok_or("memory")?;
    assert_eq!(rt;
        none.arrive(at(8), 0, 1),
        Arrival::Released {
            stamp: at(8),
            lost: 0,
            item: 1
        }
    );
    assert_eq!(rt;
        none.arrive(at(7), 1, 2),
        Arrival::Late {
            boundary: at(8),
            item: 2
        }
    );
    Ok(())
}

#[test]
fn packets_at_the_boundary_are_late(rt: HostRuntime) -> Result<(), Fail> {
    let mut one = Window::open(rt.alloc(), 1).ok().ok_or("memory")?;
    assert_eq!(rt; one.arrive(at(7), 0, 1), Arrival::Kept);
    assert_eq!(rt;
        one.arrive(at(8), 1, 2),
        Arrival::Released {
            stamp: at(7),
            lost: 0,
            item: 1
        }
    );
    assert_eq!(rt;
        one.arrive(at(9), 2, 3),
        Arrival::Released {
            stamp: at(8),
            lost: 0,
            item: 2
        }
    );
    assert_eq!(rt;
        one.arrive(at(8), 1, 2),
        Arrival::Late {
            boundary: at(8),
            item: 2
        }
    );
    Ok(())
}

#[test]
fn other_bytes_of_one_stamp_are_a_conflict(rt: HostRuntime) -> Result<(), Fail> {
    let mut first = PacketBuf::open(rt.alloc(), 1).ok().ok_or("memory")?;
    let mut again = PacketBuf::open(rt.alloc(), 2).ok().ok_or("memory")?;
    let mut other = PacketBuf::open(rt.alloc(), 1).ok().ok_or("memory")?;
    first.fill(&[1, 2, 3]);
    again.fill(&[1, 2, 3]);
    other.fill(&[1, 2, 4]);
    let mut window = Window::open(rt.alloc(), 1).ok().ok_or("memory")?;
    assert!(rt; matches!(window.arrive(at(5), 3, first), Arrival::Kept));
    assert!(rt; matches!(window.arrive(at(5), 5, again), Arrival::Repeat { .. }));
    assert!(rt;
        matches!(
            window.arrive(at(5), 5, other),
            Arrival::Conflict { held: 3, .. }
        )
    );
    Ok(())
}

// A context packet of stream 1 with this reference point.
fn context(stamp: Stamp, reference: u32) -> ContextRec {
    let mut fields = [0; 19];
    fields[0] = reference;
    ContextRec {
        prologue: Prologue {
            header: Header {
                kind: Kind::Context,
                bit25: false,
                bit24: false,
                timed: true,
                count: 3,
                size: 27,
            },
            stream: 1,
            pad: 0,
            information: 0,
            packet: 1,
            stamp: Some(stamp),
        },
        changed: true,
        fields,
    }
}

#[test]
fn other_fields_of_one_stamp_are_a_conflict(rt: HostRuntime) -> Result<(), Fail> {
    let mut window = Window::open(rt.alloc(), 1).ok().ok_or("memory")?;
    assert!(rt; matches!(window.arrive(at(5), 3, context(at(5), 1)), Arrival::Kept));
    assert!(rt;
        matches!(
            window.arrive(at(5), 3, context(at(5), 1)),
            Arrival::Repeat { .. }
        )
    );
    assert!(rt;
        matches!(
            window.arrive(at(5), 3, context(at(5), 2)),
            Arrival::Conflict { held: 3, .. }
        )
    );
    Ok(())
}

#[test]
fn the_greatest_window_holds_4096_packets(rt: HostRuntime) -> Result<(), Fail> {
    let mut window = Window::open(rt.alloc(), 4096).ok().ok_or("memory")?;
    for number in 0..4096u32 {
        assert!(rt;
            matches!(
                window.arrive(at(number), (number % 16) as u8, number),
                Arrival::Kept
            )
        );
    }
    assert_eq!(rt;
        window.arrive(at(4096), 0, 4096),
        Arrival::Released {
            stamp: at(0),
            lost: 0,
            item: 0
        }
    );
    Ok(())
}
