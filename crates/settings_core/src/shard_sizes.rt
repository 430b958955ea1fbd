//! Into how many shards a set is best cut.

ghost use Rattle.std.specs.Prelude.{◌≡◌};
ghost use Rattle.settings_core.specs.ShardSizes.{bits_for};

/// The greatest number of items that need no shards.
const ONE_SET: u32 = 65_536;

/// How many items a shard has on average at most: few shards of a set have 1,536 more, which still fit.
const FULL_SHARD: u64 = 64_000;

/// The bits for a set of so many items: 0 where it needs no shards; else the least for which a shard has at most 64,000
/// items on average. None where 12 are too few.
#[tactic(auto, using(crate::proofs::Rooms::more_room, crate::proofs::Rooms::some_bits, crate::proofs::Rooms::no_bits))]
pub fn shard_bits_for(items: u32) -> Option<u8>
    ensures { result ≡ bits_for items }
{
    if items <= ONE_SET {
        return Some(0);
    }
    let items = u64::from(items);
    let mut room = FULL_SHARD;
    let mut bits: u8 = 0;
    let mut more: u8 = 12;
    while room < items {
        if more == 0 {
            return None;
        }
        room *= 2;
        bits += 1;
        more -= 1;
    }
    Some(bits)
}
