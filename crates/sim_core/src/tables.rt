//! The strategies that are shipped, in the folder `examples`, without the comments above them.

ghost use Rattle.std.specs.Prelude.{◌≡◌, option_map};
ghost use Rattle.sim_core.specs.Shipped.{shipped_text};

/// A strategy that is shipped.
#[derive(Clone, Copy, Debug)]
pub(crate) struct Shipped {
    /// The name of its file, without `.toml`.
    pub name: &'static str,
    /// The text of its file, without the comments above it.
    pub text: &'static str,
}

/// That of `all-round`.
const ALL_ROUND: &str = "bounds = \"short\"
cap = 65536
limit = 20
rounds = 4

[[row]]
upto = 20
list = true

[[row]]
upto = 200
split = [1, 1, 1, 1, 1]

[[row]]
upto = 3400
split = [1, 1, 1, 1, 1, 1]

[[row]]
upto = 12000
split = [1, 1, 1, 1, 1, 1, 1, 1, 1, 1, 1, 1, 1]

[[row]]
upto = 65536
split = [1, 1, 1, 1, 1, 1, 1, 1, 1, 1, 1, 1, 1, 1, 1]
";

/// That of `few-bytes`.
const FEW_BYTES: &str = "bounds = \"short\"
cap = 65536
limit = 16
rounds = 6

[[row]]
upto = 16
list = true

[[row]]
upto = 2000
split = [1, 1, 1, 1]

[[row]]
upto = 65536
split = [1, 1, 1, 1, 1]
";

/// That of `few-rounds`.
const FEW_ROUNDS: &str = "bounds = \"short\"
cap = 65536
limit = 64
rounds = 2

[[row]]
upto = 64
list = true

[[row]]
upto = 1500
split = [1, 1, 1, 1, 1, 1, 1, 1, 1, 1, 1, 1, 1, 1, 1, 1, 1, 1, 1, 1, 1, 1, 1, 1, 1, 1, 1]

[[row]]
upto = 65536
split = [1, 1, 1, 1, 1, 1, 1, 1, 1, 1, 1, 1, 1, 1, 1, 1, 1, 1, 1, 1, 1, 1, 1, 1, 1, 1, 1, 1, 1, 1, 1, 1, 1, 1, 1, 1,
    1, 1, 1, 1, 1, 1, 1, 1, 1, 1, 1, 1, 1, 1, 1, 1, 1, 1, 1, 1, 1, 1, 1, 1, 1, 1, 1, 1]
";

/// That of `newest-last`.
const NEWEST_LAST: &str = "bounds = \"short\"
cap = 65536
limit = 48
rounds = 5

[[row]]
upto = 48
list = true

[[row]]
upto = 200
split = [1, 1, 1, 1, 1]

[[row]]
upto = 3400
split = [1, 1, 1, 1, 1, 1]

[[row]]
upto = 12000
split = [1, 1, 1, 1, 1, 1, 1, 1, 1, 1, 1, 1, 1]

[[row]]
upto = 65536
split = [1024, 1024, 1024, 1024, 1024, 64, 8, 1]
";

/// That of `whole-list`.
const WHOLE_LIST: &str = "cap = 65536
limit = 65536
rounds = 0

[[row]]
upto = 65536
list = true
";

/// That of `small`.
const SMALL: &str = "cap = 256
limit = 16
rounds = 2

[[row]]
upto = 16
list = true

[[row]]
upto = 256
split = [1, 1, 1, 1]
";

/// All of them. Of two that are as quick the first is taken.
pub(crate) const SHIPPED: [Shipped; 6] = [
    Shipped {
        name: "all-round",
        text: ALL_ROUND,
    },
    Shipped {
        name: "few-bytes",
        text: FEW_BYTES,
    },
    Shipped {
        name: "few-rounds",
        text: FEW_ROUNDS,
    },
    Shipped {
        name: "newest-last",
        text: NEWEST_LAST,
    },
    Shipped {
        name: "whole-list",
        text: WHOLE_LIST,
    },
    Shipped {
        name: "small",
        text: SMALL,
    },
];

/// The names of all of them, as a text.
pub const SHIPPED_NAMES: &str = "all-round, few-bytes, few-rounds, newest-last, whole-list, small";

/// The text of the strategy that is shipped under this name, if one is.
pub fn shipped_text(name: &str) -> Option<&'static str>
    ensures { option_map (λ text. text.now) result ≡ shipped_text name.now ALL_ROUND.now FEW_BYTES.now FEW_ROUNDS.now
        NEWEST_LAST.now WHOLE_LIST.now SMALL.now }
{
    match name {
        "all-round" => Some(ALL_ROUND),
        "few-bytes" => Some(FEW_BYTES),
        "few-rounds" => Some(FEW_ROUNDS),
        "newest-last" => Some(NEWEST_LAST),
        "whole-list" => Some(WHOLE_LIST),
        "small" => Some(SMALL),
        _ => None,
    }
}
