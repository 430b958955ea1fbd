//! Where a peer counts: all addresses that one side may choose among are one origin.

ghost use Rattle.std.specs.Prelude.{◌≡◌, ◌*◌, ◌+◌, ◌^◌};
ghost use Rattle.tcp_front.specs.Origins as origins;

use std::net::{IpAddr, Ipv4Addr, SocketAddr};

/// What stands before the bits of an IPv4 address in an IPv6 address that is mapped to it.
const MAPPED: u128 = 0xFFFF;

/// 2^32 and 2^64.
const BITS_32: u128 = 4_294_967_296;

const BITS_64: u128 = 18_446_744_073_709_551_616;

/// The bits of the IPv6 address that is mapped to an IPv4 address.
fn mapped(four: Ipv4Addr) -> u128
    ensures { result ≡ origins.mapped four }
{
    MAPPED * BITS_32 + u128::from(four.to_bits())
}

/// The bits of an address as one of IPv6.
fn bits_of(ip: IpAddr) -> u128
    ensures { result ≡ origins.bits_of ip }
{
    match ip {
        IpAddr::V4(four) => mapped(four),
        IpAddr::V6(six) => six.to_bits(),
    }
}

/// An address without what one side may choose in it: an IPv4 address whole, also where it is mapped to IPv6, and of
/// any other the first 64 bits.
fn origin_of_bits(bits: u128) -> u128
    ensures { result ≡ origins.origin_of_bits bits }
{
    if bits / BITS_32 == MAPPED {
        return bits;
    }
    bits / BITS_64 * BITS_64
}

/// Where a peer at this address counts.
pub(crate) fn origin_of(address: SocketAddr) -> u128
    ensures { result ≡ origins.origin_of address }
{
    origin_of_bits(bits_of(address.ip()))
}
