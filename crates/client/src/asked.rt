//! What a `sync` is asked for.

ghost use Rattle.std.specs.Prelude.{◌≡◌, ◌⊎◌, true, false, IfOk, unwrap_or};
ghost use Rattle.printing_core.specs.declared.sessions.Listing.TheVariants as listings;

use crate::stdio::sync_stdio;
use crate::sync::sync;
use crate::sync_shards::{AskingShards, sync_shards};
use crate::talking::{Spoken, Talk};
use item_core::Range;
use item_files::ItemForm;
use loading::{Sources, Target, load, load_shards};
use printing_core::{Listing, Refusal, difference_status};
use settings_core::{AskedProfile, SyncWords};
use shard_core::{Floor, SetName, Which};
use std::fs::File;
use std::io;
use std::io::{Read, Write};
use std::net::{Net, TcpStream};
use std::rt::Files;
use std::sync::Wait;
use std::thread::Threads;
use std::time::Clock;
use tcp_front::Limits;

/// How many sessions over shards run at once, if no number is given.
const AT_ONCE: u32 = 8;

/// With whom a session is run.
#[derive(Clone, Copy)]
pub struct Asking<'a> {
    /// The address to connect to.
    pub address: &'a str,
    /// The wire profile that is to be spoken.
    pub profile: AskedProfile,
    /// How what is learned is printed.
    pub listing: Listing,
    /// What the connection may cost.
    pub limits: Limits,
    /// Whether standard error is told what the session cost.
    pub stats: bool,
    /// The path of the file for what is printed, if one is given.
    pub out: Option<&'a str>,
    /// The path of the file to which what is learned is appended, if one is given.
    pub keep: Option<&'a str>,
    /// The form of the lines of that file.
    pub form: ItemForm,
    /// What the set is called, if the other side is to be told.
    pub set: Option<SetName<'a>>,
    /// The range of the items that are spoken of.
    pub part: &'a Range,
    /// How often a session is tried again, if a number is given.
    pub retry: Option<u32>,
    /// Whether standard error is told more.
    pub explains: bool,
}

/// How what is learned is printed by these words.
fn listing_of(words: SyncWords<'_>) -> Listing
    ensures counts { words.entry.counts ≡ true → result ≡ listings.Counts }
    ensures items { words.entry.counts ≡ false → result ≡ listings.Items words.entry.form }
{
    if words.counts {
        Listing::Counts
    } else {
        Listing::Items(words.form)
    }
}

impl<'a> Asking<'a> {
    /// What is asked for in these words, of these items of a set that is called so; and whether standard error is told
    /// more.
    pub fn asked(
        words: SyncWords<'a>,
        set: Option<SetName<'a>>,
        kept: &'a Floor,
        explains: bool,
    ) -> Asking<'a>
        ensures reached { (result.address ≡ words.entry.address) × (result.profile ≡ words.entry.profile)
            × (result.set ≡ set.entry) × (result.part.now ≡ kept.now.range) }
        ensures limits { (result.limits.patience ≡ words.entry.patience)
            × (result.limits.most_bytes ≡ words.entry.most_bytes) }
        ensures printed { (result.stats ≡ words.entry.stats) × (result.out ≡ words.entry.out) }
        ensures kept { (result.keep ≡ words.entry.keep) × (result.form ≡ words.entry.form) }
        ensures items { words.entry.counts ≡ false → result.listing ≡ listings.Items words.entry.form }
        ensures counts { words.entry.counts ≡ true → result.listing ≡ listings.Counts }
        ensures again { (result.retry ≡ words.entry.retry) × (result.explains ≡ explains) }
    {
        Asking {
            address: words.address,
            profile: words.profile,
            listing: listing_of(words),
            limits: Limits {
                patience: words.patience,
                most_bytes: words.most_bytes,
            },
            stats: words.stats,
            out: words.out,
            keep: words.keep,
            form: words.form,
            set,
            part: &kept.range,
            retry: words.retry,
            explains,
        }
    }

    /// How a session over one set is run.
    pub fn talk(&self) -> Talk<'a>
        ensures { (result.profile ≡ self.now.profile) × (result.limits ≡ self.now.limits) }
    {
        Talk {
            profile: self.profile,
            limits: self.limits,
            set: self.set.map(|set| Spoken {
                set,
                which: Which::Shard(0),
                range: self.part,
            }),
        }
    }
}

/// How many sessions over shards run at once.
fn at_once_in(words: SyncWords<'_>) -> usize
    ensures { result ≡ unwrap_or words.entry.at_once 8 }
{
    words.at_once.unwrap_or(AT_ONCE) as usize
}

/// Does what `sync` is asked for: one session, over standard input and output or with who listens; or one for each
/// shard that differs. The status: 4 if it is to say that the sets differ, and they do, else 0.
pub fn sync_as_asked<'a, R, I: Read + Drop, O: Write + Drop, E: Write + Drop>(
    rt: &R,
    words: SyncWords<'a>,
    target: Target<'a>,
    ends: (I, O),
    err: &mut E,
) -> Result<u8, Refusal<'a>>
where
    R: Files<File = File> + Net<Stream = TcpStream> + Threads + Wait + Clock + AllocGlobal + Sync,
    ensures { IfOk result (λ status. (status ≡ 0) ⊎ ((status ≡ 4) × (words.entry.checks ≡ true))) }
{
    let (reader, out) = ends;
    let Target {
        set,
        sharding,
        kept,
        shows,
        explains,
        ..
    } = target;
    let asking = Asking::asked(words, set, kept, explains);
    let sources = Sources::of_asker(words, kept, explains, shows);
    let differ = if words.stdio {
        let loaded = load(rt, sources, io::empty(), err)?;
        sync_stdio(rt, loaded, asking, (reader, out), err)?
    } else if let (Some(sharding), Some(set)) = (sharding, set) {
        let loaded = load_shards(rt, sources, sharding, reader, err)?;
        let at_once = at_once_in(words);
        let asking = AskingShards {
            asking,
            set,
            at_once,
            shows,
        };
        sync_shards(rt, loaded, asking, out, err)?
    } else {
        let loaded = load(rt, sources, reader, err)?;
        sync(rt, loaded, asking, out, err)?
    };
    Ok(difference_status(words.checks, differ))
}
