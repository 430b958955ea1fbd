//! An accept that fails, which no program can be brought to within a test's time, and which addresses are one. All else
//! of connections is shown by the program: `tests/sessions`, `tests/close` and the rows of `tests/words`.

use crate::origin::origin_of;
use crate::{Limits, connect, listen};
use session_table::{Source, SourceFault};
use std::io;
use std::net::{IpAddr, Ipv4Addr, Ipv6Addr, SocketAddr};

#[test]
fn after_a_failed_accept(rt: HostRuntime) -> io::Result<()> {
    let limits = Limits {
        patience: 60,
        most_bytes: 1_024,
    };
    let listener = listen(&rt, "127.0.0.1:0", None, limits)
        .ok()
        .expect(&rt, "a listener");
    let address = listener.local_addr().expect(&rt, "an address");
    let address = format!(in rt.alloc(); "{address}")?;
    listener.never_wait()?;
    let failed = listener.take().err().expect(&rt, "a fault");
    assert_eq!(rt; failed, SourceFault::Accept);
    assert_eq!(rt; failed.number(), 62);
    let _late = connect(&rt, &address, 60).ok().expect(&rt, "a connection");
    assert!(rt; matches!(listener.take(), Ok(None)));
    Ok(())
}

/// Where a peer counts at an address of IPv6 with these last four words.
fn six(last: [u16; 4]) -> u128 {
    let ip = Ipv6Addr::new(0x2001, 0xDB8, 1, last[0], 0, last[1], last[2], last[3]);
    origin_of(SocketAddr::new(IpAddr::V6(ip), 1))
}

#[test]
fn addresses_that_are_one(rt: HostRuntime) -> io::Result<()> {
    let four = IpAddr::V4(Ipv4Addr::new(192, 0, 2, 1));
    let mapped = IpAddr::V6(Ipv6Addr::new(0, 0, 0, 0, 0, 0xFFFF, 0xC000, 0x0201));
    assert!(rt; origin_of(SocketAddr::new(four, 5)) == 0xFFFF_C000_0201);
    assert!(rt; origin_of(SocketAddr::new(mapped, 7)) == 0xFFFF_C000_0201);
    let near = IpAddr::V4(Ipv4Addr::new(192, 0, 2, 2));
    assert!(rt; origin_of(SocketAddr::new(near, 5)) == 0xFFFF_C000_0202);
    assert!(rt; six([2, 0, 0, 1]) == 0x2001_0DB8_0001_0002_0000_0000_0000_0000);
    assert!(rt; six([2, 9, 9, 9]) == six([2, 0, 0, 1]));
    assert!(rt; six([3, 0, 0, 1]) != six([2, 0, 0, 1]));
    Ok(())
}
