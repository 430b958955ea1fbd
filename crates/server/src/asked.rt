//! What a server is asked for.

ghost use Rattle.std.specs.Prelude.{◌≡◌, true, false, Some};
ghost use Rattle.settings_core.specs.Spans.{IsWorkerCount};
ghost use Rattle.server.specs.Limits.{IsLimitsOf};

use crate::books::Paths;
use crate::limits::limits_of;
use crate::loops::Loops;
use crate::reporting::Rules;
use crate::serve::{Outputs, serve};
use crate::stdio::serve_stdio;
use crate::stocking::load_logged;
use loading::{Sources, Target, load};
use peer_loops::{Front, PeerLimits};
use printing_core::{Refusal, Reporting};
use settings_core::{FloorRule, ServeWords};
use std::fs::File;
use std::io;
use std::io::{Read, Write};
use std::rt::Files;

/// How sessions are served.
#[derive(Clone, Copy)]
pub struct Serving<'a> {
    /// The address to listen at.
    pub address: &'a str,
    /// How many loops serve, 1 to 16, and as many more for those whose messages are long.
    pub workers: u8,
    /// After how many connections it ends, if it does.
    pub sessions: Option<u32>,
    /// What peers may cost.
    pub limits: PeerLimits,
    /// The files that are written of the sessions.
    pub paths: Paths<'a>,
    /// What is written to them, and how much of a session is put into the log.
    pub rules: Rules<'a>,
    /// How those see it who watch it.
    pub watching: Watching<'a>,
    /// What peers have to say before their hello.
    pub front: Front<'a>,
    /// With whom the set is kept equal.
    pub calling: Calling<'a>,
    /// Which browsers may connect, and where.
    pub pages: Pages<'a>,
}

/// Which browsers may connect to a server, and where.
#[derive(Clone, Copy)]
pub struct Pages<'a> {
    /// The address at which they connect, over WebSockets, if they may.
    pub address: Option<&'a str>,
    /// The origins of the pages that may, with a comma between two, if there are any.
    pub origins: Option<&'a str>,
}

/// With whom a set is kept equal.
#[derive(Clone, Copy)]
pub struct Calling<'a> {
    /// The addresses of the partners, with a comma between two, if there are any.
    pub partners: Option<&'a str>,
    /// How many seconds after the last session with a partner the next one begins, if it is given.
    pub every: Option<u32>,
}

impl<'a> Serving<'a> {
    /// What is asked for in these words, what peers have to say before their hello, and which items the set forgets.
    pub fn asked(words: ServeWords<'a>, front: Front<'a>, forgets: &'a FloorRule) -> Serving<'a>
        ensures served { (result.address ≡ words.entry.address) × (result.workers ≡ words.entry.workers)
            × (result.sessions ≡ words.entry.sessions) × (result.front ≡ front.entry) }
        ensures limits { IsLimitsOf words.entry result.limits }
        ensures files { (result.paths.report ≡ words.entry.report) × (result.paths.learned ≡ words.entry.learned)
            × (result.paths.keep ≡ words.entry.keep) × (result.rules.is_durable ≡ words.entry.durable) }
        ensures reports { (result.rules.reporting.form ≡ words.entry.form)
            × (result.rules.reporting.most ≡ words.entry.report_items) }
        ensures forgets { result.rules.forgets ≡ forgets.entry }
        ensures watching { (result.watching.metrics ≡ words.entry.metrics) × (result.watching.log ≡ words.entry.log)
            × (result.watching.set ≡ words.entry.set) × (result.watching.control ≡ words.entry.control) }
        ensures calling { (result.calling.partners ≡ words.entry.partners)
            × (result.calling.every ≡ words.entry.every) }
        ensures pages { (result.pages.address ≡ words.entry.websocket) × (result.pages.origins ≡ words.entry.origin) }
        ensures bounded { words.entry.read_only ≡ false → result.rules.most_learned ≡ words.entry.most_learned }
        ensures shut { words.entry.read_only ≡ true → result.rules.most_learned ≡ Some 0 }
    {
        let most_learned = if words.read_only {
            Some(0)
        } else {
            words.most_learned
        };
        Serving {
            address: words.address,
            workers: words.workers,
            sessions: words.sessions,
            limits: limits_of(words),
            paths: Paths {
                report: words.report,
                learned: words.learned,
                keep: words.keep,
            },
            rules: Rules {
                reporting: Reporting {
                    form: words.form,
                    most: words.report_items,
                },
                most_learned,
                is_durable: words.durable,
                forgets,
            },
            watching: Watching {
                metrics: words.metrics,
                control: words.control,
                log: words.log,
                set: words.set,
            },
            front,
            calling: Calling {
                partners: words.partners,
                every: words.every,
            },
            pages: Pages {
                address: words.websocket,
                origins: words.origin,
            },
        }
    }
}

/// How a server is watched.
#[derive(Clone, Copy)]
pub struct Watching<'a> {
    /// The address at which metrics and a page answer HTTP, if there is one.
    pub metrics: Option<&'a str>,
    /// The address at which programs of this machine are answered, if there is one.
    pub control: Option<&'a str>,
    /// Whether standard error gets a line for each session.
    pub log: bool,
    /// What the set is called as it was given, if it has a name.
    pub set: Option<&'a str>,
}

/// What peers have to say to a server of this set before their hello.
fn front_of<'a>(target: &Target<'a>) -> Front<'a> {
    let Some(set) = target.set else {
        return Front::Open;
    };
    if target.sharding.is_some() {
        Front::Cut(set)
    } else {
        Front::Named(set)
    }
}

/// Does what `serve` is asked for: one session over standard input and output, or sessions with those who connect.
pub fn serve_as_asked<'a, R, I: Read + Drop, O: Write + Drop, E: Write + Drop + Send>(
    rt: &'a R,
    words: ServeWords<'a>,
    target: Target<'a>,
    ends: (I, Outputs<O, E>),
    err: &mut E,
) -> Result<(), Refusal<'a>>
where
    R: Files<File = File> + Loops,
    requires { IsWorkerCount words.workers }
{
    let (reader, outputs) = ends;
    let serving = Serving::asked(words, front_of(&target), target.forgets);
    let sources = Sources::of_server(words, target.kept, target.explains, target.shows);
    if words.stdio {
        let loaded = load(rt, sources, io::empty(), err)?;
        serve_stdio(rt, loaded, serving, (reader, outputs.out), err)
    } else {
        let Outputs { out, mut log } = outputs;
        let input = (reader, words.log);
        let loaded = load_logged(rt, sources, target.sharding, input, &mut log, err)?;
        serve(rt, loaded, serving, Outputs { out, log }, err)
    }
}
