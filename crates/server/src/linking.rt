//! The partners of a server, by the words of a call.

use crate::asked::Calling;
use peer_loops::{Partner, Partners, Place};
use settings_core::{Address, address_of};
use std::alloc::{AllocError, Global};
use std::time::Clock;

/// How many seconds after the last session with a partner the next one begins, if no number is given.
const EVERY: u32 = 10;

/// Where the partner of this address is called.
fn place_of(address: &str) -> Place<'_> {
    match address_of(address) {
        Address::Tcp(address) => Place::Tcp(address),
        Address::Unix(path) => Place::Unix(path),
    }
}

/// The partners of these addresses, in the same order.
fn listed<'a>(alloc: Global, addresses: Option<&'a str>) -> Result<Vec<Partner<'a>>, AllocError> {
    let mut partners = Vec::new(alloc);
    let Some(addresses) = addresses else {
        return Ok(partners);
    };
    for address in addresses.split(',') {
        partners.push(Partner {
            address,
            place: place_of(address),
        })?;
    }
    Ok(partners)
}

/// The partners that a server is asked to have. What varies by chance begins with the time.
pub fn partners_of<'a, R: Clock>(
    rt: &R,
    alloc: Global,
    calling: Calling<'a>,
) -> Result<Partners<'a>, AllocError> {
    let partners = listed(alloc, calling.partners)?;
    let seed = rt.since_1970().map_or(0, |time| {
        u64::try_from(time.as_nanos()).unwrap_or(u64::MAX)
    });
    Partners::new(alloc, calling.every.unwrap_or(EVERY), seed, &partners)
}
