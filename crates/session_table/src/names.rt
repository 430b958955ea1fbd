//! The names of refusals.

ghost use Rattle.std.specs.Prelude.{◌≡◌};
ghost use Rattle.session_table.specs.Names.{session_refusal_name};

/// The name of the refusal of a session, by its number: one of the wire, of an end, or of what its process holds: its
/// log and lock, its table and gate, its listener, its input and its memory.
pub fn refusal_name(code: usize) -> &'static str
    ensures { result.now ≡ session_refusal_name code }
{
    match code {
        1 => "BadHello",
        2 => "FrameLength",
        3 => "Truncated",
        4 => "BadKind",
        5 => "BadBound",
        6 => "EmptyRange",
        7 => "ItemLength",
        8 => "ItemOrder",
        9 => "ItemOutside",
        10 => "MarkPadding",
        11 => "Trailing",
        12 => "TooManyParts",
        20 => "Misplaced",
        21 => "Stall",
        22 => "Gap",
        23 => "MissingAnswer",
        24 => "MarkCount",
        25 => "AnswerRepeats",
        26 => "Spent",
        40 => "Full",
        41 => "Busy",
        42 => "WritersSpent",
        50 => "TableFull",
        51 => "Unknown",
        52 => "OverBound",
        53 => "SerialsSpent",
        54 => "GateClosed",
        55 => "WrongSet",
        56 => "NoShard",
        57 => "BadEntry",
        62 => "Accept",
        80 => "CannotRead",
        90 => "Memory",
        _ => "Other",
    }
}

/// The name of the refusal of a session, by its number as it stands on the wire.
pub fn session_refusal_name(code: u8) -> &'static str
    ensures { result.now ≡ session_refusal_name code }
{
    refusal_name(usize::from(code))
}
