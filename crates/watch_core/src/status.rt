//! How a server stands, as it is told at its door: as JSON, and as lines.

ghost use Rattle.std.specs.Prelude.{◌≡◌, ◌++◌, IfOk, OnOk, flat_map, map, string_bytes};
ghost use Rattle.watch_core.specs.StatusTexts as texts;
ghost use Rattle.watch_core.specs.StatusTexts.{Adds, named, number_line, number_tokens, partner_line, partner_tokens};

use crate::partnered::Partnered;
use crate::pieces::{Fault, Known};
use crate::standing::Standing;
use crate::turn::Turn;
use json::Writer;
use std::alloc::{AllocError, Global};

/// What a server tells of itself at its door.
#[derive(Clone, Copy, Debug, PartialEq, Eq)]
pub struct Status<'a> {
    /// How it stands.
    pub standing: Standing<'a>,
    /// How many items the set took since the server began.
    pub taken: u64,
    /// How many sessions were opened, and how many ended.
    pub opened: u64,
    pub ended: u64,
}

/// A number, and what it is called.
#[derive(Clone, Copy)]
struct Number {
    name: &'static str,
    value: u64,
}

impl Number {
    /// The number of this name.
    fn new(name: &'static str, value: u64) -> Number
        ensures { named result ≡ (name.now, value) }
    {
        Number { name, value }
    }
}

impl Status<'_> {
    /// Whether a file keeps the set.
    fn is_kept(&self) -> bool
        ensures { result ≡ texts.is_kept self.now }
    {
        !self.standing.file.is_empty()
    }

    /// All numbers of the server.
    #[tactic(auto, unfolding(crate::specs::StatusTexts::numbers))]
    fn numbers(&self) -> [Number; 12]
        ensures { map named result ≡ texts.numbers self.now }
    {
        let standing = &self.standing;
        [
            Number::new("items", standing.items),
            Number::new("cap", standing.cap),
            Number::new("version", standing.version),
            Number::new("taken", self.taken),
            Number::new("opened", self.opened),
            Number::new("ended", self.ended),
            Number::new("live", standing.live),
            Number::new("peers", standing.peers),
            Number::new("dropped", standing.dropped),
            Number::new("waiting", standing.waiting),
            Number::new("failures", standing.failures),
            Number::new("milliseconds", standing.ran),
        ]
    }
}

/// Appends a number and its name.
fn push_number(json: &mut Writer, number: Number) -> Result<(), AllocError>
    ensures { Adds result json.old json.new (number_tokens (named number)) }
{
    json.key(number.name)?;
    json.u64(number.value)
}

/// Appends these numbers.
fn push_numbers(json: &mut Writer, numbers: &[Number]) -> Result<(), AllocError>
    ensures { Adds result json.old json.new (flat_map number_tokens (map named numbers.now)) }
{
    for number in numbers {
        push_number(json, *number)?;
    }
    Ok(())
}

/// Appends a text and its name.
fn push_text(json: &mut Writer, name: &'static str, text: &str) -> Result<(), AllocError>
    ensures { Adds result json.old json.new (texts.text_tokens name.now text.now) }
{
    json.key(name)?;
    json.string(text)
}

/// Appends a number that may not be known, and its name.
fn push_known(json: &mut Writer, name: &'static str, value: Option<u64>) -> Result<(), AllocError>
    ensures { Adds result json.old json.new (texts.known_tokens name.now value) }
{
    json.key(name)?;
    match value {
        Some(value) => json.u64(value),
        None => json.null(),
    }
}

/// Appends how the last turn was that did not end, if there was one.
fn push_fault(alloc: Global, json: &mut Writer, fault: Option<Turn>) -> Result<(), AllocError>
    ensures { Adds result json.old json.new (texts.fault_tokens fault) }
{
    json.key("error")?;
    let Some(turn) = fault else {
        return json.null();
    };
    let text = format!(in alloc; "{turn}")?;
    json.string(&text)
}

/// Appends who a partner is, and how it stands.
fn push_name(json: &mut Writer, partner: &Partnered<'_>) -> Result<(), AllocError>
    ensures { Adds result json.old json.new (texts.name_tokens partner.now) }
{
    json.begin_object()?;
    push_text(json, "address", partner.address)?;
    push_text(json, "state", partner.state())
}

/// What is counted of a partner.
#[tactic(auto, unfolding(crate::specs::StatusTexts::counted))]
fn counted(partner: &Partnered<'_>) -> [Number; 3]
    ensures { map named result ≡ texts.counted partner.now }
{
    [
        Number::new("ended", partner.ended),
        Number::new("failed", partner.failed),
        Number::new("behind", partner.behind),
    ]
}

/// Appends what is counted of a partner.
fn push_turns(alloc: Global, json: &mut Writer, partner: &Partnered<'_>) -> Result<(), AllocError>
    ensures { Adds result json.old json.new (texts.turns_tokens partner.now) }
{
    push_numbers(json, &counted(partner))?;
    push_known(json, "seconds_ago", partner.seconds_ago())?;
    push_fault(alloc, json, partner.fault)
}

/// Appends a partner.
fn push_partner(alloc: Global, json: &mut Writer, partner: &Partnered<'_>) -> Result<(), AllocError>
    ensures { Adds result json.old json.new (partner_tokens partner.now) }
{
    push_name(json, partner)?;
    push_turns(alloc, json, partner)?;
    json.end_object()
}

/// Appends these partners.
fn push_partners(
    alloc: Global,
    json: &mut Writer,
    partners: &[Partnered<'_>],
) -> Result<(), AllocError>
    ensures { Adds result json.old json.new (flat_map partner_tokens partners.now) }
{
    for partner in partners {
        push_partner(alloc, json, partner)?;
    }
    Ok(())
}

/// Appends a list of these partners.
fn push_list(alloc: Global, json: &mut Writer, partners: &[Partnered<'_>]) -> Result<(), AllocError>
    ensures { Adds result json.old json.new (texts.list_tokens partners.now) }
{
    json.key("partners")?;
    json.begin_array()?;
    push_partners(alloc, json, partners)?;
    json.end_array()
}

/// Appends the server.
fn push_server(json: &mut Writer, status: &Status<'_>) -> Result<(), AllocError>
    ensures { Adds result json.old json.new (texts.server_tokens status.now) }
{
    json.begin_object()?;
    push_numbers(json, &status.numbers())?;
    json.key("kept")?;
    json.boolean(status.is_kept())
}

/// How a server stands, as a JSON object in a line.
pub fn status_json(alloc: Global, status: &Status<'_>) -> Result<Vec<u8>, AllocError>
    ensures { IfOk result (λ text. text.items ≡ texts.status_json status.now) }
{
    let mut json = Writer::new(Vec::new(alloc));
    push_server(&mut json, status)?;
    push_list(alloc, &mut json, status.standing.partners)?;
    json.end_object()?;
    let mut text = json.into_inner();
    text.push(b'\n')?;
    Ok(text)
}

/// Appends the lines of these numbers.
fn push_number_lines(text: &mut String, numbers: &[Number]) -> Result<(), AllocError>
    ensures { OnOk result (string_bytes text.new
        ≡ string_bytes text.old ++ flat_map number_line (map named numbers.now)) }
{
    for number in numbers {
        write!(text, "{} {}\n", number.name, number.value)?;
    }
    Ok(())
}

/// Appends in what the set is kept.
fn push_kept(text: &mut String, is_kept: bool) -> Result<(), AllocError>
    ensures { OnOk result (string_bytes text.new ≡ string_bytes text.old ++ texts.kept_line is_kept) }
{
    if is_kept {
        text.push_str("kept file\n")
    } else {
        text.push_str("kept memory\n")
    }
}

/// Appends who a partner is, how it stands, and what is counted of it.
fn push_line_front(text: &mut String, partner: &Partnered<'_>) -> Result<(), AllocError>
    ensures { OnOk result (string_bytes text.new ≡ string_bytes text.old ++ texts.line_front partner.now) }
{
    write!(text, "partner {} {}", partner.address, partner.state())?;
    write!(text, " ended {} failed {}", partner.ended, partner.failed)
}

/// Appends the rest of its line.
fn push_line_end(text: &mut String, partner: &Partnered<'_>) -> Result<(), AllocError>
    ensures { OnOk result (string_bytes text.new ≡ string_bytes text.old ++ texts.line_end partner.now) }
{
    let ago = Known(partner.seconds_ago());
    write!(text, " behind {} seconds {ago}", partner.behind)?;
    write!(text, " error {}\n", Fault(partner.fault))
}

/// Appends the line of a partner.
fn push_partner_line(text: &mut String, partner: &Partnered<'_>) -> Result<(), AllocError>
    ensures { OnOk result (string_bytes text.new ≡ string_bytes text.old ++ partner_line partner.now) }
{
    push_line_front(text, partner)?;
    push_line_end(text, partner)
}

/// Appends the lines of these partners.
fn push_partner_lines(text: &mut String, partners: &[Partnered<'_>]) -> Result<(), AllocError>
    ensures { OnOk result (string_bytes text.new ≡ string_bytes text.old ++ flat_map partner_line partners.now) }
{
    for partner in partners {
        push_partner_line(text, partner)?;
    }
    Ok(())
}

/// A line for each of these partners.
pub fn partner_lines(alloc: Global, partners: &[Partnered<'_>]) -> Result<String, AllocError>
    ensures { IfOk result (λ text. string_bytes text ≡ flat_map partner_line partners.now) }
{
    let mut text = String::new(alloc);
    push_partner_lines(&mut text, partners)?;
    Ok(text)
}

/// How a server stands, as lines: a name and a number in each, and a line a partner.
pub fn status_lines(alloc: Global, status: &Status<'_>) -> Result<String, AllocError>
    ensures { IfOk result (λ text. string_bytes text ≡ texts.status_lines status.now) }
{
    let mut text = String::new(alloc);
    push_number_lines(&mut text, &status.numbers())?;
    push_kept(&mut text, status.is_kept())?;
    push_partner_lines(&mut text, status.standing.partners)?;
    Ok(text)
}
