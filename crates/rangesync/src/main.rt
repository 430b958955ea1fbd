//! The program `rangesync`.
#![tactic(auto)]

mod addresses;
mod answering;
mod checking;
mod naming;
mod planning;
mod run;
mod sharding;
mod simulating;
mod stdio;

use printing_core::{Fault, tell, tell_no_text};
use run::{StandardError, StandardInput};
use std::env::Env;
use std::fs::File;
use std::io::{IsTerminal, Read, Write};
use std::net::{Net, TcpListener, TcpStream};
use std::process::ExitCode;
use std::rt::Files;
use std::sync::Wait;
use std::thread::Threads;
use std::time::Clock;
use std::{env, io};

/// What the environment says under this name, if that is not empty.
fn folder_of<R: Env + AllocGlobal>(rt: &R, name: &str) -> Option<String> {
    let folder = env::var(rt, name).ok()?;
    if folder.is_empty() {
        return None;
    }
    Some(folder)
}

/// Where a server answers programs of its machine, if nothing else is said: in the runtime directory of its service, or
/// in that of the user.
fn usual_control<R: Env + AllocGlobal>(rt: &R) -> Option<String> {
    let alloc = rt.alloc();
    if let Some(folder) = folder_of(rt, "RUNTIME_DIRECTORY") {
        return format!(in alloc; "unix:{folder}/control").ok();
    }
    let folder = folder_of(rt, "XDG_RUNTIME_DIR")?;
    format!(in alloc; "unix:{folder}/rangesync/control").ok()
}

/// The status of the run on the environment's words.
fn status<R, I: Read + IsTerminal + Drop, O: Write + Drop, E: Write + IsTerminal + Drop + Send>(
    rt: &R,
    reader: I,
    out: O,
    (err, log): (E, E),
) -> u8
where
    R: Env
        + Files<File = File>
        + Net<Listener = TcpListener, Stream = TcpStream>
        + Threads
        + Wait
        + Clock
        + AllocGlobal
        + Sync,
{
    let words = match env::args(rt) {
        Ok(words) => words,
        Err(error) if error.kind() == io::ErrorKind::OutOfMemory => {
            return tell(err, Fault::Memory);
        }
        Err(_) => return tell_no_text(err),
    };
    match words.collect::<Vec<String>>(rt.alloc()) {
        Ok(words) => {
            let reader = StandardInput {
                is_terminal: reader.is_terminal(),
                reader,
            };
            let is_terminal = err.is_terminal();
            let err = StandardError {
                writer: err,
                log,
                is_terminal,
            };
            let usual = usual_control(rt);
            run::run(rt, words.as_slice(), usual.as_deref(), reader, out, err)
        }
        Err(refused) => tell(err, Fault::from(refused)),
    }
}

fn main(rt: HostRuntime) -> ExitCode {
    let errors = (rt.stderr(), rt.stderr());
    ExitCode::from(status(&rt, rt.stdin(), rt.stdout(), errors))
}
