//! The program over any runtime, reader and writers.

ghost use Rattle.std.specs.Prelude.{◌≡◌, ◌≤◌, ◌⊎◌, Ok, IfOk, IfErr, IfSome, IfNone, None, map};
ghost use Rattle.settings_core.specs.Calls.{WordsAskFor};
ghost use Rattle.settings_core.specs.Spans.{AreInSpan};
ghost use Rattle.settings_core.specs.declared.commands.Call.{Call as Asked};
ghost use Rattle.printing_core.specs.FaultsOf.{status_of};
ghost use Rattle.rangesync.specs.Done.{IsChecking, IsDone};
ghost use Rattle.rangesync.specs.Ranges.{IsFloorNow, forgotten_asked, range_asked};

use crate::addresses::{Addresses, addresses_of, at_addresses, lacks_door};
use crate::answering::answer_for;
use crate::checking::check_table;
use crate::naming::{set_of, told_of};
use crate::planning::plan;
use crate::sharding::{forgets_of, range_of, shards_of};
use crate::simulating::sim;
use crate::stdio::{flaw_of, node_flaw_of};
use client::{news, put, status, stop, sync_as_asked};
use item_core::Range;
use loading::{Target, floor_at, seconds_now};
use printing_core::{
    Fault, Refusal, Why, tell, tell_floor_flaw, tell_name_flaw, tell_no_control, tell_node_flaw,
    tell_part_flaw, tell_shard_flaw, tell_stdio_flaw, tell_why, tell_words,
};
use server::{Loops, Outputs, serve_as_asked};
use settings_core::{Call, Command, FloorRule, Sharding, read_words};
use shard_core::Floor;
use std::alloc::{AllocError, Global};
use std::convert::AsStr;
use std::fs::File;
use std::io::{Read, Write};
use std::rt::Files;
use std::time::Clock;

/// Does what the words ask for, and gives the status.
fn obey<'a, R, I: Read + Drop, O: Write + Drop, E: Write + Drop + Send>(
    rt: &'a R,
    command: Command<'a>,
    target: Target<'a>,
    ends: (I, Outputs<O, E>),
    err: &mut E,
) -> Result<u8, Refusal<'a>>
where
    R: Files<File = File> + Loops,
    requires { AreInSpan command }
    ensures { IfOk result (IsDone command.entry) }
{
    let (reader, outputs) = ends;
    match command {
        Command::Answer(words) => answer_for(rt, words, reader, outputs.out)?,
        Command::Check(words) => check_table(rt, words, target.explains, outputs.out, err)?,
        Command::Plan(words) => plan(rt, words, target.explains, outputs.out, err)?,
        Command::Sim => sim(rt.alloc(), reader, outputs.out)?,
        Command::Serve(words) => serve_as_asked(rt, words, target, (reader, outputs), err)?,
        Command::Sync(words) => {
            return sync_as_asked(rt, words, target, (reader, outputs.out), err);
        }
        Command::Put(words) => return put(rt, words, (reader, outputs.out), err),
        Command::News(words) => return news(rt, words, outputs.out, err),
        Command::Stop(words) => return stop(rt, words, err),
        Command::Status(words) => return status(rt, words, outputs.out, err),
    }
    Ok(0)
}

/// Where refusals are told, and whether a second line is told of each without being asked for: a terminal has a person
/// before it.
#[derive(Drop)]
pub struct StandardError<E> {
    /// What takes the lines.
    pub writer: E,
    /// What takes the lines of a log: a second way to the same place.
    pub log: E,
    /// Whether it is a terminal.
    pub is_terminal: bool,
}

/// What is read as standard input, and whether it is a terminal: over one no session is spoken.
#[derive(Drop)]
pub struct StandardInput<I> {
    /// What is read.
    pub reader: I,
    /// Whether it is a terminal.
    pub is_terminal: bool,
}

/// Prints the second line of a refusal, where there is something to say.
fn tell_second<E: Write>(err: &mut E, why: Option<Why<'_>>) {
    if let Some(why) = why {
        tell_why(err, &why);
    }
}

/// Prints the line of a refusal, and a second one, if that is asked for, and gives the status.
fn tell_refusal<E: Write>(err: &mut E, refusal: Refusal<'_>, explains: bool) -> u8
    ensures status { result ≡ status_of refusal.entry.fault }
    ensures few { (result ≡ 1) ⊎ (result ≡ 3) }
{
    let Refusal { fault, why } = refusal;
    let status = tell(&mut *err, fault);
    if explains {
        tell_second(err, why);
    }
    status
}

/// Tells why the words cannot be done together, if they cannot. The status.
fn tell_flaw<E: Write>(err: &mut E, command: Command<'_>, is_terminal: bool) -> Option<u8>
    ensures { IfSome result (λ status. status ≡ 2) }
{
    if let Some(flaw) = flaw_of(command, is_terminal) {
        return Some(tell_stdio_flaw(&mut *err, flaw));
    }
    match node_flaw_of(command) {
        Some(flaw) => Some(tell_node_flaw(&mut *err, flaw)),
        None => None,
    }
}

/// What the other side is told of the set, and where it is.
#[derive(Drop)]
struct Places {
    told: Vec<u8>,
    addresses: Addresses,
}

/// What the other side of a command is told of the set, and where it is.
fn places_of(
    alloc: Global,
    command: Command<'_>,
    usual: Option<&str>,
) -> Result<Places, AllocError> {
    Ok(Places {
        told: told_of(alloc, command)?,
        addresses: addresses_of(alloc, command, usual)?,
    })
}

/// Which items are meant: those of a range, if one is given, else those that are not forgotten now.
fn kept_of<R: Clock>(rt: &R, part: Option<Range>, forgets: FloorRule) -> Floor
    ensures part { IfSome part (λ range. (result.range ≡ range) × (result.time ≡ None)) }
    ensures forgets { IfNone part (IsFloorNow forgets result) }
{
    match part {
        Some(range) => Floor::within(range),
        None => floor_at(forgets, seconds_now(rt)),
    }
}

/// Of what a command speaks.
#[derive(Clone, Copy)]
struct Meant {
    sharding: Option<Sharding>,
    part: Option<Range>,
    forgets: FloorRule,
}

/// Of which shards a command speaks, of which part of their items, and what it forgets. Else the status, once it is
/// told which words are not fit.
fn meant_by<E: Write>(err: &mut E, command: Command<'_>) -> Result<Meant, u8>
    requires { AreInSpan command }
    ensures part { IfOk result (λ meant. range_asked command.entry ≡ Ok meant.part) }
    ensures forgets { IfOk result (λ meant. forgotten_asked command.entry ≡ Ok meant.forgets) }
    ensures status { IfErr result (λ status. status ≡ 2) }
{
    let sharding = match shards_of(command) {
        Ok(sharding) => sharding,
        Err(flaw) => return Err(tell_shard_flaw(&mut *err, flaw)),
    };
    let part = match range_of(command) {
        Ok(part) => part,
        Err(flaw) => return Err(tell_part_flaw(&mut *err, flaw)),
    };
    match forgets_of(command) {
        Ok(forgets) => Ok(Meant {
            sharding,
            part,
            forgets,
        }),
        Err(flaw) => Err(tell_floor_flaw(&mut *err, flaw)),
    }
}

/// Does what the words ask for, which can be done together, and gives the status.
fn run_at<'a, R, I: Read + Drop, O: Write + Drop, E: Write + Drop + Send>(
    rt: &'a R,
    command: Command<'a>,
    target: Target<'a>,
    ends: (I, Outputs<O, E>),
    err: &mut E,
) -> u8
where
    R: Files<File = File> + Loops,
    requires { AreInSpan command }
    ensures known { result ≤ 4 }
    ensures differ { result ≡ 4 → IsChecking command.entry }
{
    let explains = target.explains;
    match obey(rt, command, target, ends, err) {
        Ok(status) => status,
        Err(refusal) => tell_refusal(err, refusal, explains),
    }
}

/// Runs the program on these words, of which the first is its own name, and gives the status: 0 done, 1 refused, 2 for
/// words that it does not know, or if no door is named and there is no usual one, 3 for a file, an input, an output,
/// the network or memory, 4 for sets that differ, if the words ask for that.
///
/// A refusal is one line on standard error. What it speaks of, and the usual cause, is a second line if standard error
/// is a terminal, or with `--why`.
pub fn run<R, W: AsStr, I: Read + Drop, O: Write + Drop, E: Write + Drop + Send>(
    rt: &R,
    words: &[W],
    usual: Option<&str>,
    input: StandardInput<I>,
    out: O,
    err: StandardError<E>,
) -> u8
where
    R: Files<File = File> + Loops,
    ensures known { result ≤ 4 }
    ensures differ { result ≡ 4 → (call : Asked) × (WordsAskFor (map W.text words.now) call × IsChecking call.command) }
{
    let StandardError {
        writer: mut err,
        log,
        is_terminal,
    } = err;
    let Call { command, explains } = match read_words(rt.alloc(), words) {
        Ok(call) => call,
        Err(fault) => return tell_words(out, err, fault),
    };
    if let Some(status) = tell_flaw(&mut err, command, input.is_terminal) {
        return status;
    }
    let meant = match meant_by(&mut err, command) {
        Ok(meant) => meant,
        Err(status) => return status,
    };
    let Meant {
        sharding,
        part,
        forgets,
    } = meant;
    let places = match places_of(rt.alloc(), command, usual) {
        Ok(places) => places,
        Err(refused) => return tell(err, Fault::from(refused)),
    };
    let bits = sharding.map(|sharding| sharding.bits);
    let Ok(set) = set_of(&places.told, bits, part.is_some()) else {
        return tell_name_flaw(err);
    };
    let command = at_addresses(command, &places.addresses);
    if lacks_door(command) {
        return tell_no_control(err);
    }
    let kept = kept_of(rt, part, forgets);
    let target = Target {
        set,
        sharding,
        kept: &kept,
        forgets: &forgets,
        shows: is_terminal,
        explains: explains || is_terminal,
    };
    let ends = (input.reader, Outputs { out, log });
    run_at(rt, command, target, ends, &mut err)
}
