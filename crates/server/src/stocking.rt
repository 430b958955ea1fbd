//! What a server begins with: one set, or the shards of a set.

ghost use Rattle.std.specs.Prelude.{◌≡◌, IfOk};

use crate::logging::{log_loaded, log_loading};
use loading::{Loaded, Sources, load, load_shards, millis_since};
use printing_core::Refusal;
use settings_core::Sharding;
use std::fs::File;
use std::io::{Read, Write};
use std::rt::Files;
use std::thread::Threads;
use std::time::{Clock, Instant};

/// What a server begins with from these sources: their set, or its shards.
fn load_any<'a, R, I: Read + Drop, E: Write>(
    rt: &R,
    sources: Sources<'a>,
    sharding: Option<Sharding>,
    reader: I,
    err: &mut E,
) -> Result<Loaded, Refusal<'a>>
where
    R: Files<File = File> + AllocGlobal + Threads + Clock + Sync,
    ensures cap { IfOk result (λ o. o.set.cap ≡ o.accepted.table.cap) }
{
    match sharding {
        Some(sharding) => load_shards(rt, sources, sharding, reader, err),
        None => load(rt, sources, reader, err),
    }
}

/// The same. A log has a line before it and one after it, if that is asked for.
pub fn load_logged<'a, R, I: Read + Drop, L: Write, E: Write>(
    rt: &R,
    sources: Sources<'a>,
    sharding: Option<Sharding>,
    input: (I, bool),
    log: &mut L,
    err: &mut E,
) -> Result<Loaded, Refusal<'a>>
where
    R: Files<File = File> + AllocGlobal + Threads + Clock + Sync,
    ensures cap { IfOk result (λ o. o.set.cap ≡ o.accepted.table.cap) }
{
    let (reader, is_logged) = input;
    let start = Instant::now(rt).ok();
    if is_logged {
        log_loading(rt, log);
    }
    let loaded = load_any(rt, sources, sharding, reader, err)?;
    if is_logged {
        let millis = millis_since(rt, start).unwrap_or(0);
        log_loaded(rt, loaded.set.count(), millis, log);
    }
    Ok(loaded)
}
