//! What given words ask for, as `clap` has read them.

ghost use Rattle.std.specs.Prelude.{◌≡◌, ◌≤◌, codes, false, option_map, IfSome, IsSomeAnd, Some};
ghost use Rattle.clap.specs.Words.{first_of, found_of, rows_of, subcommand_rows_of};
ghost use Rattle.settings_core.specs.Calls.{AsksFor, CallsFor, Finds, HasForm, IsFlag, IsNumber, IsText, is_text};
ghost use Rattle.settings_core.specs.Calls.{is_hash, profile_word};
ghost use Rattle.settings_core.specs.Spans.{IsWithin, IsWorkerCount};

use crate::commands::{
    AnswerWords, Call, CheckWords, Command, NewsWords, PlanWords, PutWords, ServeWords,
    StatusWords, StopWords, SyncWords,
};
use crate::profiles::AskedProfile;
use crate::spans::{
    MAX_AT_ONCE, MAX_EVERY, MAX_ITEM_LENGTH, MAX_ITEMS, MAX_MEMORY, MAX_PATIENCE, MAX_PEERS,
    MAX_PLANNED_ITEMS, MAX_RATE, MAX_RETRIES, MAX_ROUND_TRIP, MAX_SEARCH, MAX_SESSION_SECONDS,
    MAX_SESSIONS, MAX_SHARD_BITS, MAX_WORKERS, MIN_BYTES, MIN_ITEM_LENGTH,
};
use clap::ArgMatches;
use item_files::{ItemForm, WireProfile};

/// The number of workers, which `clap` has read in its span.
fn workers_in(matches: &ArgMatches<'_>) -> Option<u8>
    ensures { Finds (λ n. IsNumber (codes "workers") (rows_of (found_of matches.now)) (Some n)
        × IsWorkerCount n) result }
{
    let workers = matches.get_one::<u8>("workers")?;
    (1..=MAX_WORKERS).contains(&workers).then_some(workers)
}

/// A number that may be given, if one is, which `clap` has read in this span.
fn number_in(matches: &ArgMatches<'_>, id: &str, least: u32, most: u32) -> Option<Option<u32>>
    ensures { Finds (λ n. IsNumber id.now (rows_of (found_of matches.now)) n
        × IfSome n (IsWithin least most)) result }
{
    match matches.try_get_one::<u32>(id).ok()? {
        Some(count) if !(least..=most).contains(&count) => None,
        number => Some(number),
    }
}

/// How many items of one session are put into the set, if it is given.
fn most_learned_in(matches: &ArgMatches<'_>) -> Option<Option<u32>>
    ensures { Finds (λ n. IsNumber (codes "most-learned") (rows_of (found_of matches.now)) n
        × IfSome n (IsWithin 1 4294967295)) result }
{
    number_in(matches, "most-learned", 1, u32::MAX)
}

/// How many items of one session are reported, if it is given.
fn report_items_in(matches: &ArgMatches<'_>) -> Option<Option<u32>>
    ensures { Finds (λ n. IsNumber (codes "report-items") (rows_of (found_of matches.now)) n
        × IfSome n (IsWithin 0 4294967295)) result }
{
    number_in(matches, "report-items", 0, u32::MAX)
}

/// A number that has a value where none is given, which `clap` has read in this span.
fn default_in(matches: &ArgMatches<'_>, id: &str, least: u32, most: u32) -> Option<u32>
    ensures { Finds (λ n. IsNumber id.now (rows_of (found_of matches.now)) (Some n)
        × IsWithin least most n) result }
{
    let number = matches.get_one::<u32>(id)?;
    (least..=most).contains(&number).then_some(number)
}

/// The text that is given for an argument.
fn text_in<'a>(matches: &ArgMatches<'a>, id: &str) -> Option<&'a str>
    ensures { option_map (λ text. text.now) result ≡ first_of id.now (rows_of (found_of matches.now)) }
{
    matches.get_str(id)
}

/// The wire profile that a word asks for.
fn profile_of(word: &str) -> Option<AskedProfile>
    ensures { Finds (λ p. word.now ≡ profile_word p) result }
{
    match word {
        "1" => Some(AskedProfile::Exactly(WireProfile::One)),
        "2" => Some(AskedProfile::Exactly(WireProfile::Two)),
        "compact" => Some(AskedProfile::Exactly(WireProfile::Compact)),
        "best" => Some(AskedProfile::Best),
        _ => None,
    }
}

/// The wire profile that is asked for.
fn profile_in(matches: &ArgMatches<'_>) -> Option<AskedProfile>
    ensures { Finds (λ p. IsText (codes "profile") (rows_of (found_of matches.now)) (profile_word p)) result }
{
    profile_of(text_in(matches, "profile")?)
}

/// Whether a flag is given.
fn flag_in(matches: &ArgMatches<'_>, id: &str) -> bool
    ensures { IsFlag id.now (rows_of (found_of matches.now)) result }
{
    matches.get_flag(id)
}

/// How items stand in files, and how they are printed.
fn form_in(matches: &ArgMatches<'_>) -> ItemForm
    ensures text { IsFlag (codes "text") (rows_of (found_of matches.now)) (is_text result) }
    ensures whole { is_hash result ≡ false }
{
    if flag_in(matches, "text") {
        ItemForm::Text
    } else {
        ItemForm::Hex
    }
}

/// The same, where lines may be hashed: `--hash` comes before `--text`.
fn form_or_hash_in(matches: &ArgMatches<'_>) -> ItemForm
    ensures { HasForm (rows_of (found_of matches.now)) result }
{
    if flag_in(matches, "hash") {
        ItemForm::Hash
    } else {
        form_in(matches)
    }
}

/// The word for the wire profile, if it asks for none.
pub(crate) fn wrong_profile_in<'a>(matches: &ArgMatches<'a>) -> Option<&'a str> {
    let (name, inner) = matches.subcommand()?;
    if name != "sync" {
        return None;
    }
    let word = text_in(inner, "profile")?;
    if profile_of(word).is_some() {
        return None;
    }
    Some(word)
}

/// What the words of `answer` ask for.
fn answer_in<'a>(matches: &ArgMatches<'a>) -> Option<Command<'a>>
    ensures { Finds (AsksFor (codes "answer") (rows_of (found_of matches.now))) result }
{
    Some(Command::Answer(AnswerWords {
        hexed: flag_in(matches, "hex"),
        form: form_in(matches),
        items: text_in(matches, "ITEMS")?,
    }))
}

/// What the words of `check` ask for.
fn check_in<'a>(matches: &ArgMatches<'a>) -> Option<Command<'a>>
    ensures { Finds (AsksFor (codes "check") (rows_of (found_of matches.now))) result }
{
    Some(Command::Check(CheckWords {
        cost: flag_in(matches, "cost"),
        items: number_in(matches, "items", 1, MAX_ITEMS)?,
        item_length: number_in(matches, "length", MIN_ITEM_LENGTH, MAX_ITEM_LENGTH)?,
        file: text_in(matches, "FILE")?,
    }))
}

/// What the words of `plan` ask for.
fn plan_in<'a>(matches: &ArgMatches<'a>) -> Option<Command<'a>>
    ensures { Finds (AsksFor (codes "plan") (rows_of (found_of matches.now))) result }
{
    Some(Command::Plan(PlanWords {
        table: text_in(matches, "table"),
        items: number_in(matches, "items", 1, MAX_PLANNED_ITEMS)?,
        differences: number_in(matches, "differences", 0, MAX_PLANNED_ITEMS)?,
        item_length: number_in(matches, "length", MIN_ITEM_LENGTH, MAX_ITEM_LENGTH)?,
        round_trip: number_in(matches, "round-trip", 0, MAX_ROUND_TRIP)?,
        rate: number_in(matches, "rate", 1, MAX_RATE)?,
        search: number_in(matches, "search", 1, MAX_SEARCH)?,
    }))
}

/// What the words of `serve` ask for: nothing, where neither ITEMS nor a file that keeps the set is given.
fn serve_in<'a>(matches: &ArgMatches<'a>) -> Option<Command<'a>>
    ensures { Finds (AsksFor (codes "serve") (rows_of (found_of matches.now))) result }
{
    let keep = text_in(matches, "keep");
    let items = text_in(matches, "ITEMS");
    if keep.is_none() && items.is_none() {
        return None;
    }
    Some(Command::Serve(ServeWords {
        table: text_in(matches, "table")?,
        address: text_in(matches, "addr")?,
        stdio: flag_in(matches, "stdio"),
        set: text_in(matches, "set"),
        shards: number_in(matches, "shards", 0, MAX_SHARD_BITS)?,
        only: text_in(matches, "only"),
        workers: workers_in(matches)?,
        sessions: number_in(matches, "sessions", 1, MAX_SESSIONS)?,
        patience: default_in(matches, "patience", 1, MAX_PATIENCE)?,
        most_bytes: default_in(matches, "most-bytes", MIN_BYTES, u32::MAX)?,
        peers: number_in(matches, "peers", 1, MAX_PEERS)?,
        peers_of_one: number_in(matches, "peers-of-one", 1, MAX_PEERS)?,
        session_seconds: number_in(matches, "session-seconds", 1, MAX_SESSION_SECONDS)?,
        memory: number_in(matches, "memory", 1, MAX_MEMORY)?,
        report: text_in(matches, "report"),
        learned: text_in(matches, "learned"),
        keep,
        durable: flag_in(matches, "durable"),
        most_learned: most_learned_in(matches)?,
        read_only: flag_in(matches, "read-only"),
        report_items: report_items_in(matches)?,
        metrics: text_in(matches, "metrics"),
        websocket: text_in(matches, "websocket"),
        origin: text_in(matches, "origin"),
        not_below: text_in(matches, "not-below"),
        newest: text_in(matches, "newest"),
        time_form: text_in(matches, "time-form"),
        partners: text_in(matches, "with"),
        every: number_in(matches, "every", 1, MAX_EVERY)?,
        control: text_in(matches, "control"),
        log: flag_in(matches, "log"),
        form: form_or_hash_in(matches),
        items,
    }))
}

/// What the words of `sync` ask for.
fn sync_in<'a>(matches: &ArgMatches<'a>) -> Option<Command<'a>>
    ensures { Finds (AsksFor (codes "sync") (rows_of (found_of matches.now))) result }
{
    Some(Command::Sync(SyncWords {
        table: text_in(matches, "table")?,
        address: text_in(matches, "addr")?,
        stdio: flag_in(matches, "stdio"),
        set: text_in(matches, "set"),
        shards: number_in(matches, "shards", 0, MAX_SHARD_BITS)?,
        only: text_in(matches, "only"),
        at_once: number_in(matches, "at-once", 1, MAX_AT_ONCE)?,
        from: text_in(matches, "from"),
        to: text_in(matches, "to"),
        prefix: text_in(matches, "prefix"),
        out: text_in(matches, "out"),
        keep: text_in(matches, "keep"),
        profile: profile_in(matches)?,
        patience: default_in(matches, "patience", 1, MAX_PATIENCE)?,
        most_bytes: default_in(matches, "most-bytes", MIN_BYTES, u32::MAX)?,
        retry: number_in(matches, "retry", 0, MAX_RETRIES)?,
        checks: flag_in(matches, "check"),
        counts: flag_in(matches, "count"),
        stats: flag_in(matches, "stats"),
        form: form_or_hash_in(matches),
        items: text_in(matches, "ITEMS")?,
    }))
}

/// What the words of `put` ask for.
fn put_in<'a>(matches: &ArgMatches<'a>) -> Option<Command<'a>>
    ensures { Finds (AsksFor (codes "put") (rows_of (found_of matches.now))) result }
{
    Some(Command::Put(PutWords {
        control: text_in(matches, "control"),
        form: form_or_hash_in(matches),
        file: text_in(matches, "FILE")?,
    }))
}

/// What the words of `news` ask for.
fn news_in<'a>(matches: &ArgMatches<'a>) -> Option<Command<'a>>
    ensures { Finds (AsksFor (codes "news") (rows_of (found_of matches.now))) result }
{
    Some(Command::News(NewsWords {
        control: text_in(matches, "control"),
        after: number_in(matches, "after", 0, u32::MAX)?,
        follows: flag_in(matches, "follow"),
    }))
}

/// What the words of `stop` ask for.
fn stop_in<'a>(matches: &ArgMatches<'a>) -> Option<Command<'a>>
    ensures { Finds (AsksFor (codes "stop") (rows_of (found_of matches.now))) result }
{
    Some(Command::Stop(StopWords {
        control: text_in(matches, "control"),
    }))
}

/// What the words of `status` ask for.
fn status_in<'a>(matches: &ArgMatches<'a>) -> Option<Command<'a>>
    ensures { Finds (AsksFor (codes "status") (rows_of (found_of matches.now))) result }
{
    Some(Command::Status(StatusWords {
        control: text_in(matches, "control"),
        json: flag_in(matches, "json"),
    }))
}

/// What the command of this name, with these values, is asked to do.
fn command_in<'a>(name: &str, matches: &ArgMatches<'a>) -> Option<Command<'a>>
    ensures { Finds (AsksFor name.now (rows_of (found_of matches.now))) result }
{
    match name {
        "answer" => answer_in(matches),
        "check" => check_in(matches),
        "plan" => plan_in(matches),
        "sim" => Some(Command::Sim),
        "serve" => serve_in(matches),
        "sync" => sync_in(matches),
        "put" => put_in(matches),
        "news" => news_in(matches),
        "stop" => stop_in(matches),
        "status" => status_in(matches),
        _ => None,
    }
}

/// What words that fit ask for.
pub(crate) fn call_in<'a>(matches: &ArgMatches<'a>) -> Option<Call<'a>>
    ensures { Finds (λ call. IsSomeAnd (subcommand_rows_of matches.now) (λ p. CallsFor p.0 p.1 call)) result }
{
    let (name, inner) = matches.subcommand()?;
    Some(Call {
        command: command_in(name, inner)?,
        explains: flag_in(inner, "why"),
    })
}
