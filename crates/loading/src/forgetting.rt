//! Which items a set still keeps that forgets old ones.

ghost use Rattle.std.specs.Prelude.{◌≡◌, ◌⊎◌, ◌%◌, ◌/◌, ◌+◌, ◌^◌, None, [], false, option_map};
ghost use Rattle.definitions.specs.Items.{comes_before};
ghost use Rattle.loading.specs.Forgetting.{oldest, two_digits, iso_text, IsClockAt, Begins, IsFloorAt};

use item_core::Lower;
use jiff::Timestamp;
use jiff::civil::DateTime;
use jiff::tz::Offset;
use settings_core::{FloorRule, Newest};
use shard_core::{Floor, TimeForm};
use std::time::Clock;

/// The seconds since 1970; 0 if the clock fails.
pub fn seconds_now<R: Clock>(rt: &R) -> u64 {
    rt.since_1970().map_or(0, |time| time.as_secs())
}

/// The time before which items are too old, in seconds since 1970: it moves by a sixtieth of what is kept, so that
/// servers agree on it for most of the time.
fn oldest(newest: Newest, seconds: u64) -> u64
    ensures { result ≡ oldest newest seconds }
{
    let step = u64::from(newest.seconds / 60).max(1);
    seconds.saturating_sub(u64::from(newest.seconds)) / step * step
}

/// The last two decimal digits of a number.
fn two_digits(number: u64) -> [u8; 2]
    ensures { result ≡ two_digits number [] }
{
    let number = (number % 100) as u8;
    [b'0' + number / 10, b'0' + number % 10]
}

/// What a clock in UTC shows at this time. A time that no calendar has is the last one.
fn clock_at(seconds: u64) -> DateTime
    ensures { IsClockAt seconds result }
{
    let second = i64::try_from(seconds).unwrap_or(i64::MAX);
    Offset::UTC.to_datetime(Timestamp::from_second(second).unwrap_or(Timestamp::MAX))
}

/// The text of a date and a time, as `2026-11-28T09:30:00`.
fn iso_text(time: DateTime) -> [u8; 19]
    ensures { result ≡ iso_text time }
{
    let year = u64::from(time.year().unsigned_abs());
    let [a, b] = two_digits(year / 100);
    let [c, d] = two_digits(year);
    let [e, f] = two_digits(u64::from(time.month().unsigned_abs()));
    let [g, h] = two_digits(u64::from(time.day().unsigned_abs()));
    let [i, j] = two_digits(u64::from(time.hour().unsigned_abs()));
    let [k, l] = two_digits(u64::from(time.minute().unsigned_abs()));
    let [m, n] = two_digits(u64::from(time.second().unsigned_abs()));
    [
        a, b, c, d, b'-', e, f, b'-', g, h, b'T', i, j, b':', k, l, b':', m, n,
    ]
}

/// The bound below which items are too old at this time.
fn bound_at(newest: Newest, seconds: u64) -> Lower
    ensures { Begins newest.time (oldest newest seconds) result }
{
    let oldest = oldest(newest, seconds);
    match newest.time {
        TimeForm::Unix32 => {
            let oldest = u32::try_from(oldest).unwrap_or(u32::MAX);
            Lower::of(&oldest.to_be_bytes())
        }
        TimeForm::Unix64 => Lower::of(&oldest.to_be_bytes()),
        TimeForm::Iso => Lower::of(&iso_text(clock_at(oldest))),
    }
}

/// The higher of two bounds.
pub fn higher(one: Lower, other: Lower) -> Lower
    ensures one { comes_before result one ≡ false }
    ensures other { comes_before result other ≡ false }
    ensures either { (result ≡ one) ⊎ (result ≡ other) }
{
    if one.bytes().cmp(other.bytes()).is_lt() {
        other
    } else {
        one
    }
}

/// The floor of a set by this rule, at this time in seconds since 1970.
pub fn floor_at(rule: FloorRule, seconds: u64) -> Floor
    ensures time { result.time ≡ option_map (λ n. n.time) rule.newest }
    ensures bound { comes_before result.range.lower rule.not_below ≡ false }
    ensures old { IsFloorAt rule seconds result.range.lower }
    ensures end { result.range.upper ≡ None }
{
    let oldest = match rule.newest {
        Some(newest) => bound_at(newest, seconds),
        None => Lower::start(),
    };
    Floor::at(higher(rule.not_below, oldest), rule.time())
}
