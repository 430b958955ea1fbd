//! `put`, `news`, `stop` and `status`: what a server on this machine is asked at its door.

ghost use Rattle.std.specs.Prelude.{◌≡◌, ◌⊎◌, IfOk};

use crate::http::{Answer, Question, ask};
use crate::reaching::connect_to;
use io_core::{Watched, read_input, write_output};
use item_files::{ItemForm, ReadFault};
use printing_core::{Fault, Refusal, STANDARD_INPUT};
use settings_core::{NewsWords, PutWords, StatusWords, StopWords};
use std::alloc::{AllocError, Global};
use std::fs;
use std::fs::File;
use std::io::{ErrorKind, Read, Write};
use std::net::{Net, TcpStream};
use std::rt::Files;
use std::sync::Wait;
use std::time::{Clock, Duration};

/// How many seconds a connect, a read or a write may take; and where many items are put in.
const PATIENCE: u32 = 60;

const PUT_PATIENCE: u32 = 600;

/// For how many seconds news are waited for at a time.
const NEWS_SECONDS: u32 = 50;

/// How often it is looked whether a server is gone, and for how many milliseconds it is waited before each.
const LOOKS: u32 = 1_200;

const PAUSE: u64 = 50;

/// The status of a request that the server refused, and of a server with a partner that is behind.
const REFUSED: u8 = 1;

const BEHIND: u8 = 1;

/// Prints text.
fn print<O: Write>(out: &mut O, text: &[u8]) -> Result<(), Refusal<'static>> {
    write_output(&mut Watched::new(&mut *out), text)?;
    Ok(())
}

/// Asks this at the door at an address. Else 61, `io read` or 90.
fn ask_at<'a, R>(
    rt: &R,
    control: &'a str,
    patience: u32,
    question: Question<'_>,
) -> Result<Answer, Refusal<'a>>
where
    R: Files + Net<Stream = TcpStream> + AllocGlobal,
{
    let stream = connect_to(rt, control, patience)?;
    match ask(rt.alloc(), question, (&stream, &stream)) {
        Ok(answer) => Ok(answer),
        Err(fault) => Err(Refusal::from(fault)),
    }
}

/// Prints a good answer, and gives the status 0; of another one the line goes to standard error, and it is 1.
fn show<O: Write, E: Write>(
    answer: &Answer,
    out: &mut O,
    err: &mut E,
) -> Result<u8, Refusal<'static>>
    ensures { IfOk result (λ status. (status ≡ 0) ⊎ (status ≡ 1)) }
{
    if answer.is_good() {
        print(out, answer.body())?;
        return Ok(0);
    }
    // A line that is not taken changes nothing.
    let _told = err.write_all(answer.body());
    Ok(REFUSED)
}

/// The text of the file, or of the input. Else 80 or 90.
fn text_of<'a, R: Files<File = File> + AllocGlobal, I: Read + Drop>(
    rt: &R,
    path: &'a str,
    reader: I,
) -> Result<Vec<u8>, Refusal<'a>> {
    let alloc = rt.alloc();
    if path == "-" {
        return match read_input(alloc, &mut Watched::new(reader)) {
            Ok(text) => Ok(text),
            Err(fault) => Err(Refusal::of_input(STANDARD_INPUT, fault)),
        };
    }
    let file = match fs::open(rt, path) {
        Ok(file) => file,
        Err(error) if error.kind() == ErrorKind::OutOfMemory => {
            return Err(Refusal::from(Fault::Memory));
        }
        Err(error) => return Err(Refusal::of_unread(path, ReadFault::of(&error))),
    };
    match read_input(alloc, &mut Watched::new(file)) {
        Ok(text) => Ok(text),
        Err(fault) => Err(Refusal::of_input(path, fault)),
    }
}

/// Where lines of this form are put in.
fn put_target(form: ItemForm) -> &'static str {
    match form {
        ItemForm::Hex => "/items?form=hex",
        ItemForm::Text => "/items?form=text",
        ItemForm::Hash => "/items?form=hash",
    }
}

/// Puts the items of the file, or of the input, into the set of a server, and prints how many it lacked. The status: 1
/// where it refuses them. Else 80, 61, `io read`, `io write` or 90.
pub fn put<'a, R, I: Read + Drop, O: Write + Drop, E: Write>(
    rt: &R,
    words: PutWords<'a>,
    ends: (I, O),
    err: &mut E,
) -> Result<u8, Refusal<'a>>
where
    R: Files<File = File> + Net<Stream = TcpStream> + AllocGlobal,
    ensures { IfOk result (λ status. (status ≡ 0) ⊎ (status ≡ 1)) }
{
    let (reader, mut out) = ends;
    let control = words.control.unwrap_or("");
    let text = text_of(rt, words.file, reader)?;
    let question = Question {
        method: "POST",
        target: put_target(words.form),
        body: &text,
    };
    let answer = ask_at(rt, control, PUT_PATIENCE, question)?;
    show(&answer, &mut out, err)
}

/// The target of a request for news: after the first so many items, if so many are given, else for all that is kept.
fn news_target(alloc: Global, after: Option<u64>, seconds: u32) -> Result<String, AllocError> {
    match after {
        Some(after) => format!(in alloc; "/news?after={after}&wait={seconds}"),
        None => format!(in alloc; "/news?wait={seconds}"),
    }
}

/// Asks for what the set of a server took after the first so many items, or for all that is kept of it; it waits for
/// an item, if it is to.
fn ask_news<'a, R>(
    rt: &R,
    control: &'a str,
    after: Option<u64>,
    waits: bool,
) -> Result<Answer, Refusal<'a>>
where
    R: Files + Net<Stream = TcpStream> + AllocGlobal,
{
    let seconds = if waits { NEWS_SECONDS } else { 0 };
    let target = news_target(rt.alloc(), after, seconds)?;
    let question = Question {
        method: "GET",
        target: &target,
        body: b"",
    };
    ask_at(rt, control, PATIENCE, question)
}

/// Prints the items that the set of a server took, in that order, and goes on with those that it takes, if that is
/// asked for. The status: 1 where it no longer has them. Else 61, `io read`, `io write` or 90.
pub fn news<'a, R, O: Write + Drop, E: Write>(
    rt: &R,
    words: NewsWords<'a>,
    out: O,
    err: &mut E,
) -> Result<u8, Refusal<'a>>
where
    R: Files<File = File> + Net<Stream = TcpStream> + Wait + AllocGlobal,
    ensures { IfOk result (λ status. (status ≡ 0) ⊎ (status ≡ 1)) }
{
    let mut out = out;
    let control = words.control.unwrap_or("");
    let mut after = words.after.map(u64::from);
    for _ in rt.forever() {
        let answer = ask_news(rt, control, after, words.follows)?;
        if show(&answer, &mut out, err)? == REFUSED {
            return Ok(REFUSED);
        }
        if answer.body().is_empty() && !words.follows {
            return Ok(0);
        }
        after = answer.at.or(after);
    }
    unreachable!()
}

/// Waits until nobody listens at this address any more, for a minute at most.
fn wait_for_end<R>(rt: &R, control: &str)
where
    R: Files + Net<Stream = TcpStream> + Clock + AllocGlobal,
{
    for _look in 0..LOOKS {
        if connect_to(rt, control, PATIENCE).is_err() {
            return;
        }
        rt.sleep(Duration::from_millis(PAUSE));
    }
}

/// Stops a server, and waits until it is gone. The status: 1 where it refuses. Else 61, `io read` or 90.
pub fn stop<'a, R, E: Write>(rt: &R, words: StopWords<'a>, err: &mut E) -> Result<u8, Refusal<'a>>
where
    R: Files<File = File> + Net<Stream = TcpStream> + Clock + AllocGlobal,
    ensures { IfOk result (λ status. (status ≡ 0) ⊎ (status ≡ 1)) }
{
    let control = words.control.unwrap_or("");
    let question = Question {
        method: "POST",
        target: "/stop",
        body: b"",
    };
    let answer = ask_at(rt, control, PATIENCE, question)?;
    if !answer.is_good() {
        let _told = err.write_all(answer.body());
        return Ok(REFUSED);
    }
    wait_for_end(rt, control);
    Ok(0)
}

/// Prints how a server stands. The status: 1 where it refuses, or where more than three turns in a row with one of its
/// partners did not end. Else 61, `io read`, `io write` or 90.
pub fn status<'a, R, O: Write + Drop, E: Write>(
    rt: &R,
    words: StatusWords<'a>,
    out: O,
    err: &mut E,
) -> Result<u8, Refusal<'a>>
where
    R: Files<File = File> + Net<Stream = TcpStream> + AllocGlobal,
    ensures { IfOk result (λ status. (status ≡ 0) ⊎ (status ≡ 1)) }
{
    let mut out = out;
    let control = words.control.unwrap_or("");
    let target = if words.json {
        "/status"
    } else {
        "/status?as=lines"
    };
    let question = Question {
        method: "GET",
        target,
        body: b"",
    };
    let answer = ask_at(rt, control, PATIENCE, question)?;
    let shown = show(&answer, &mut out, err)?;
    if answer.behind.unwrap_or(0) > 0 {
        return Ok(BEHIND);
    }
    Ok(shown)
}
