//! Why a run is refused.

ghost use Rattle.std.specs.Prelude.{◌≡◌, Some};
ghost use Rattle.printing_core.specs.FaultsOf.{of_answer, of_input, of_decoding, of_listing, of_log, of_source};
ghost use Rattle.printing_core.specs.FaultsOf.{status_of};
ghost use Rattle.printing_core.specs.Lines.{strategy_line, check_line, fault_line};
ghost use Rattle.printing_core.specs.declared.fault.Fault.TheVariants as faults;

use ends_core::{AnswerFault, ListReplyFault};
use io_core::{InputFault, WriterFailed};
use session_table::{SourceFault, session_refusal_name};
use std::alloc::{AllocError, AllocFailed};
use std::fmt;
use std::io::Write;
use strategy_check::CheckFault;
use strategy_core::StrategyFault;
use version_log::LogFault;
use wire_core::{DecodeError, WireFault};

/// Why a run does not end with status 0, its words being known.
///
/// It prints as the line for standard error: `refused`, the number, the name and the values; `peer refused` and the
/// code; `io read` or `io write`; `incomplete`.
#[derive(Clone, Copy, Debug, PartialEq, Eq)]
pub enum Fault {
    /// A file or the input was not opened or not read, or is above 16,777,216 bytes.
    CannotRead,
    /// A line, from 1, of the items is bad.
    BadItemLine { line: usize },
    /// The input is not hex.
    NotHex,
    /// There are more than 65,536 different items, or more than the cap of a strategy.
    TooManyItems,
    /// The input has no nodes, steps or items of a scenario.
    BadScenario,
    /// A text of a scenario, from 0, spells no step.
    BadStep { step: usize },
    /// A strategy file, or a scenario, is no TOML text.
    NotToml,
    /// A table is no strategy.
    Strategy(StrategyFault),
    /// A strategy is not accepted.
    Check(CheckFault),
    /// The input spells no message.
    Wire(WireFault),
    /// A part of the message is no Sum.
    Misplaced,
    /// No listener was made.
    Bind,
    /// No connection was made.
    Connect,
    /// A connection could not be accepted.
    Accept,
    /// A session was refused here, with this number.
    Session { code: u8 },
    /// The peer refused a session, with this number.
    PeerRefused { code: u8 },
    /// The reader of a session failed.
    ReaderFailed,
    /// The writer failed: a beginning of what was to be written was.
    WriterFailed,
    /// Lines of a file were not written.
    LinesLost,
    /// Some shards were not done.
    Incomplete,
    /// Memory ran out.
    Memory,
}

impl Fault {
    /// The status of a run that ends so.
    pub fn status(self) -> u8
        ensures { result ≡ status_of self }
    {
        match self {
            Fault::CannotRead
            | Fault::Bind
            | Fault::Connect
            | Fault::Accept
            | Fault::ReaderFailed
            | Fault::WriterFailed
            | Fault::LinesLost
            | Fault::Incomplete
            | Fault::Memory => 3,
            _ => 1,
        }
    }
}

/// The line of a table that is no strategy.
#[derive(Clone, Copy)]
struct StrategyLine(StrategyFault);

impl fmt::Display for StrategyLine {
    ghost output = { λ line. Some (strategy_line line.0) };

    fn fmt<W: fmt::Write>(&self, f: &mut fmt::Formatter<W>) -> fmt::Result {
        match self.0 {
            StrategyFault::Missing(field) => write!(f, "refused 31 Missing {}", field.key()),
            StrategyFault::BadNumber { .. } => write!(f, "refused 32 BadNumber"),
            StrategyFault::RowOrder => write!(f, "refused 33 RowOrder"),
            StrategyFault::RowAction => write!(f, "refused 34 RowAction"),
            StrategyFault::CapMismatch => write!(f, "refused 35 CapMismatch"),
            StrategyFault::BadBounds => write!(f, "refused 29 BadBounds"),
            StrategyFault::BadOpening => write!(f, "refused 28 BadOpening"),
        }
    }
}

/// The line of a strategy that is not accepted.
#[derive(Clone, Copy)]
struct CheckLine(CheckFault);

impl fmt::Display for CheckLine {
    ghost output = { λ line. Some (check_line line.0) };

    fn fmt<W: fmt::Write>(&self, f: &mut fmt::Formatter<W>) -> fmt::Result {
        match self.0 {
            CheckFault::NoDescent { count } => write!(f, "refused 36 NoDescent {count}"),
            CheckFault::ListTooLong { upto } => write!(f, "refused 37 ListTooLong {upto}"),
            CheckFault::TooDeep { count, rank } => write!(f, "refused 38 TooDeep {count} {rank}"),
            CheckFault::BadCertificate { count } => write!(f, "refused 39 BadCertificate {count}"),
        }
    }
}

impl fmt::Display for Fault {
    ghost output = { λ f. Some (fault_line f) };

    fn fmt<W: fmt::Write>(&self, f: &mut fmt::Formatter<W>) -> fmt::Result {
        match self {
            Fault::CannotRead => write!(f, "refused 80 CannotRead"),
            Fault::BadItemLine { line } => write!(f, "refused 81 BadItemLine {line}"),
            Fault::NotHex => write!(f, "refused 81 BadItemLine 1"),
            Fault::TooManyItems => write!(f, "refused 82 TooManyItems"),
            Fault::BadScenario => write!(f, "refused 83 BadScenario"),
            Fault::BadStep { step } => write!(f, "refused 84 BadStep {step}"),
            Fault::NotToml => write!(f, "refused 30 NotToml"),
            Fault::Strategy(fault) => write!(f, "{}", StrategyLine(*fault)),
            Fault::Check(fault) => write!(f, "{}", CheckLine(*fault)),
            Fault::Wire(fault) => {
                let code = fault.number();
                write!(f, "refused {code} {}", session_refusal_name(code))
            }
            Fault::Misplaced => write!(f, "refused 20 Misplaced"),
            Fault::Bind => write!(f, "refused 60 Bind"),
            Fault::Connect => write!(f, "refused 61 Connect"),
            Fault::Accept => write!(f, "refused 62 Accept"),
            Fault::Session { code } => {
                write!(f, "refused {code} {}", session_refusal_name(*code))
            },
            Fault::PeerRefused { code } => write!(f, "peer refused {code}"),
            Fault::ReaderFailed => write!(f, "io read"),
            Fault::WriterFailed | Fault::LinesLost => write!(f, "io write"),
            Fault::Incomplete => write!(f, "incomplete"),
            Fault::Memory => write!(f, "refused 90 Memory"),
        }
    }
}

/// Prints the fault's line, and gives the status. A line that is not taken changes nothing.
pub fn tell<E: Write + Drop>(err: E, fault: Fault) -> u8
    ensures { result ≡ status_of fault }
{
    let mut err = err;
    let _told = writeln!(err, "{fault}");
    fault.status()
}

impl From<AnswerFault> for Fault {
    ghost from_gives = { λ f e. e ≡ of_answer f };

    fn from(fault: AnswerFault) -> Fault {
        match fault {
            AnswerFault::CannotRead => Fault::CannotRead,
            AnswerFault::Wire(fault) => Fault::Wire(fault),
            AnswerFault::Misplaced => Fault::Misplaced,
            AnswerFault::Io => Fault::WriterFailed,
            AnswerFault::Memory => Fault::Memory,
        }
    }
}

impl From<InputFault> for Fault {
    ghost from_gives = { λ f e. e ≡ of_input f };

    fn from(fault: InputFault) -> Fault {
        match fault {
            InputFault::CannotRead(_) => Fault::CannotRead,
            InputFault::Memory => Fault::Memory,
        }
    }
}

impl From<DecodeError> for Fault {
    ghost from_gives = { λ f e. e ≡ of_decoding f };

    fn from(error: DecodeError) -> Fault {
        match error {
            DecodeError::Fault(fault) => Fault::Wire(fault),
            DecodeError::Memory => Fault::Memory,
        }
    }
}

impl From<ListReplyFault> for Fault {
    ghost from_gives = { λ f e. e ≡ of_listing f };

    fn from(fault: ListReplyFault) -> Fault {
        match fault {
            ListReplyFault::Misplaced => Fault::Misplaced,
            ListReplyFault::Memory => Fault::Memory,
        }
    }
}

impl From<LogFault> for Fault {
    ghost from_gives = { λ f e. e ≡ of_log f };

    fn from(fault: LogFault) -> Fault {
        match fault {
            LogFault::Full => Fault::TooManyItems,
            LogFault::Memory => Fault::Memory,
        }
    }
}

impl From<SourceFault> for Fault {
    ghost from_gives = { λ f e. e ≡ of_source f };

    fn from(fault: SourceFault) -> Fault {
        match fault {
            SourceFault::Accept => Fault::Accept,
            SourceFault::Memory => Fault::Memory,
        }
    }
}

impl From<WriterFailed> for Fault {
    ghost from_gives = { λ _ e. e ≡ faults.WriterFailed };

    fn from(_failed: WriterFailed) -> Fault {
        Fault::WriterFailed
    }
}

impl From<AllocError> for Fault {
    ghost from_gives = { λ _ e. e ≡ faults.Memory };

    fn from(_refused: AllocError) -> Fault {
        Fault::Memory
    }
}

impl<T: Drop> From<AllocFailed<T>> for Fault {
    ghost from_gives = { λ _ e. e ≡ faults.Memory };

    fn from(_refused: AllocFailed<T>) -> Fault {
        Fault::Memory
    }
}
