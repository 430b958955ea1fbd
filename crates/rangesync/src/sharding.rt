//! Which shards a command speaks of, which part of their items, and which of them a server forgets.

ghost use Rattle.std.specs.Prelude.{◌≡◌, IfSome};
ghost use Rattle.settings_core.specs.Spans.{AreInSpan, IsShardBits};
ghost use Rattle.rangesync.specs.Ranges.{forgotten_asked, range_asked};

use item_core::Range;
use settings_core::{
    Command, FloorFlaw, FloorRule, FloorWords, PartFlaw, PartWords, ShardFlaw, ShardWords,
    Sharding, floor_rule_of, part_of, sharding_of,
};

/// A command that has nothing to do with shards.
const NO_SHARDS: ShardWords<'static> = ShardWords {
    shards: None,
    only: None,
    at_once: None,
    is_stdio: false,
};

/// The words of a command that may be about shards.
fn shard_words(command: Command<'_>) -> ShardWords<'_>
    requires { AreInSpan command }
    ensures { IfSome result.shards IsShardBits }
{
    match command {
        Command::Serve(words) => ShardWords {
            shards: words.shards,
            only: words.only,
            at_once: None,
            is_stdio: words.stdio,
        },
        Command::Sync(words) => ShardWords {
            shards: words.shards,
            only: words.only,
            at_once: words.at_once,
            is_stdio: words.stdio,
        },
        _ => NO_SHARDS,
    }
}

/// Which shards a command speaks of: none where it speaks of one set.
pub fn shards_of(command: Command<'_>) -> Result<Option<Sharding>, ShardFlaw>
    requires { AreInSpan command }
{
    sharding_of(shard_words(command))
}

/// The range of the items that a command speaks of: none where it speaks of all.
pub fn range_of(command: Command<'_>) -> Result<Option<Range>, PartFlaw>
    ensures { result ≡ range_asked command.entry }
{
    match command {
        Command::Sync(words) => part_of(PartWords {
            form: words.form,
            from: words.from,
            to: words.to,
            prefix: words.prefix,
            is_stdio: words.stdio,
        }),
        _ => Ok(None),
    }
}

/// Which items a command forgets: those of a server may be told.
pub fn forgets_of(command: Command<'_>) -> Result<FloorRule, FloorFlaw>
    ensures { result ≡ forgotten_asked command.entry }
{
    match command {
        Command::Serve(words) => floor_rule_of(FloorWords {
            form: words.form,
            not_below: words.not_below,
            newest: words.newest,
            time_form: words.time_form,
        }),
        _ => Ok(FloorRule::none()),
    }
}
