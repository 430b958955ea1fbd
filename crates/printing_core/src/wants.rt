//! What second lines say of lines, strategies and addresses.

use crate::why::Origin;
use item_files::LineFlaw;
use std::fmt;
use strategy_check::CheckFault;
use strategy_core::{Field, StrategyFault, StrategyFlaw};
use tcp_front::Unreached;

/// What is wrong with a line, after its number, and the line as it is shown.
#[derive(Clone, Copy)]
pub(crate) struct LineWant<'a>(pub LineFlaw, pub &'a str);

impl fmt::Display for LineWant<'_> {
    fn fmt<W: fmt::Write>(&self, f: &mut fmt::Formatter<W>) -> fmt::Result {
        let shown = self.1;
        match self.0 {
            LineFlaw::NotHex => write!(
                f,
                " is not hex: \"{shown}\". Are these lines of text? Then say --text."
            ),
            LineFlaw::OddDigits => write!(
                f,
                " has an odd number of hex digits: \"{shown}\". Are these lines of text? Then say --text."
            ),
            LineFlaw::NoItem => write!(f, ": what follows 0x is not 1 to 64 bytes in hex: {shown}"),
            LineFlaw::TooLong => write!(f, ": an item has at most 64 bytes: {shown}"),
            LineFlaw::ByteOrderMark => write!(f, ": the file begins with a byte order mark"),
        }
    }
}

/// An origin, and the number of a row in it, from 1, if it is a row.
#[derive(Clone, Copy)]
pub(crate) struct RowOrigin<'a>(pub Origin<'a>, pub Option<usize>);

impl fmt::Display for RowOrigin<'_> {
    fn fmt<W: fmt::Write>(&self, f: &mut fmt::Formatter<W>) -> fmt::Result {
        let origin = self.0;
        match self.1 {
            Some(row) => write!(f, "{origin} row {row}"),
            None => write!(f, "{origin}"),
        }
    }
}

/// The name of a number that stands under this key.
fn number_name(field: Field) -> &'static str {
    match field {
        Field::Split => "a weight of split",
        field => field.key(),
    }
}

/// What a strategy wants that is refused.
#[derive(Clone, Copy)]
pub(crate) struct FlawWant(pub StrategyFlaw);

impl fmt::Display for FlawWant {
    fn fmt<W: fmt::Write>(&self, f: &mut fmt::Formatter<W>) -> fmt::Result {
        match self.0.fault {
            StrategyFault::Missing(field) => write!(f, "a strategy needs {}", field.key()),
            StrategyFault::BadNumber {
                field,
                least,
                greatest,
            } => {
                let name = number_name(field);
                write!(f, "{name} is a whole number from {least} to {greatest}")
            }
            StrategyFault::RowOrder => write!(f, "upto is not above that of the row before"),
            StrategyFault::RowAction => write!(
                f,
                "a row has one of list = true, split = [2 to 64 weights] and peel"
            ),
            StrategyFault::CapMismatch => write!(f, "the upto of the last row is not the cap"),
            StrategyFault::BadBounds if self.0.row.is_some() => {
                write!(f, "bounds stands above the rows, and in none")
            }
            StrategyFault::BadBounds => write!(f, "bounds is not the word items or short"),
            StrategyFault::BadOpening if self.0.row.is_some() => {
                write!(f, "opening stands above the rows, and in none")
            }
            StrategyFault::BadOpening => write!(f, "opening is not the word sum or split"),
        }
    }
}

/// What is wrong with the rows of a strategy.
#[derive(Clone, Copy)]
pub(crate) struct CheckWant(pub CheckFault);

impl fmt::Display for CheckWant {
    fn fmt<W: fmt::Write>(&self, f: &mut fmt::Formatter<W>) -> fmt::Result {
        match self.0 {
            CheckFault::NoDescent { count } => {
                write!(f, "a session over {count} items would not get smaller")
            }
            CheckFault::ListTooLong { upto } => {
                write!(f, "the row up to {upto} lists, and the limit is below that")
            }
            CheckFault::TooDeep { count, rank } => write!(
                f,
                "a session over {count} items would cut {rank} times, above rounds"
            ),
            CheckFault::BadCertificate { count } => write!(f, "no rank serves {count} items"),
        }
    }
}

/// An address, and why it is not listened at or not reached.
#[derive(Clone, Copy)]
pub(crate) struct AddressWant<'a>(pub &'a str, pub Unreached);

impl fmt::Display for AddressWant<'_> {
    fn fmt<W: fmt::Write>(&self, f: &mut fmt::Formatter<W>) -> fmt::Result {
        let address = self.0;
        match self.1 {
            Unreached::NoPort => write!(f, "{address} has no port"),
            Unreached::PortTooHigh => write!(f, "the port of {address} is above 65535"),
            Unreached::NoHost => write!(f, "{address} names no host that is known"),
            Unreached::InUse => write!(f, "{address} is in use"),
            Unreached::NotHere => write!(f, "{address} is not an address of this machine"),
            Unreached::NoLeave => write!(f, "this user may not listen at {address}"),
            Unreached::NotFree => write!(
                f,
                "{address} is in use, or is not an address of this machine"
            ),
            Unreached::Nobody => write!(f, "nobody listens at {address}"),
            Unreached::NoAnswer { seconds } => {
                write!(f, "{address}: no answer in {seconds} seconds")
            }
            Unreached::NoWay => write!(f, "{address} cannot be reached"),
            Unreached::NoPath => write!(f, "{address} has no path"),
            Unreached::PathTooLong => write!(f, "the path of {address} has more than 107 bytes"),
            Unreached::Folder => write!(f, "{address} is a folder"),
            Unreached::NotASocket => write!(f, "{address} is no socket"),
            Unreached::NoFolder => write!(f, "the folder of {address} is not there"),
            Unreached::NoSocket => write!(f, "no socket can be made at {address}"),
            Unreached::NoEntry => write!(f, "this user may not connect to {address}"),
        }
    }
}
