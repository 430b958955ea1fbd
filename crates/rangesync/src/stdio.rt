//! Which commands speak over standard input and output, and which keep their set equal with others.

use settings_core::{Command, NodeFlaw, NodeWords, StdioFlaw, StdioWords, node_flaw, stdio_flaw};

/// Why a command does not speak over standard input and output, if it is to and does not.
pub fn flaw_of(command: Command<'_>, is_terminal: bool) -> Option<StdioFlaw> {
    let words = match command {
        Command::Serve(words) if words.stdio => StdioWords {
            address: words.address,
            retries: false,
            items: words.items,
        },
        Command::Sync(words) if words.stdio => StdioWords {
            address: words.address,
            retries: words.retry.is_some(),
            items: Some(words.items),
        },
        _ => return None,
    };
    stdio_flaw(words, is_terminal)
}

/// Why a server does not keep its set equal with others, or answers no programs, as its words ask for it.
pub fn node_flaw_of(command: Command<'_>) -> Option<NodeFlaw> {
    let Command::Serve(words) = command else {
        return None;
    };
    node_flaw(NodeWords {
        partners: words.partners,
        has_every: words.every.is_some(),
        control: words.control,
        has_pages: words.websocket.is_some(),
        has_origins: words.origin.is_some(),
        is_stdio: words.stdio,
    })
}
