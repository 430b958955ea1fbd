//! Laws of the wire format.

ghost use Rattle.std.specs.Prelude.{ℕ, List, ◌<◌, ◌↔◌, slice_index};
ghost use Rattle.definitions.specs.Items.{IsBytes, IsItem, IsLower, IsUpper};
ghost use Rattle.definitions.specs.Wire.{Profile, IsProfile, short_text, upper_text, count_text, two_lane_profile};
ghost use Rattle.definitions.specs.Wire.{counted_profile, compact_profile};
ghost use Rattle.definitions.specs.Faults.{NoLower, NoUpper, NoItem, IsCount, Stops};
ghost use Rattle.definitions.specs.Reading.{lower_at, upper_at, text_at, number_at};
ghost use Rattle.laws.specs.Codec.{FieldIsExact, BodyIsExact, NextIsExact, MessageIsExact, SpellingsStandAlone};
ghost use Rattle.laws.specs.Codec.{FeedIsExact};
ghost use Rattle.laws.specs.Parts.{ItemsFaultIsExact, PartFaultIsExact, MarksComeBack, PaddingIsLast, FeedsJoin};
ghost use Rattle.laws.specs.Parts.{FeedsRest, HeardAreMessages, SessionsAreHeard, SetsFit, AnswersFit};
ghost use Rattle.laws.specs.Parts.{LearnedIsPaid};

/// Numbers are bytes exactly if each that is read from them is below 256.
/// docs/LAWS.md: *Marks*.
#[tactic(auto, using(crate::proofs::Fields::reads_fit, crate::proofs::Fields::byte_fits))]
pub fn reads_are_bytes()
    ensures { (bytes : List ℕ) → IsBytes bytes ↔ ((i : ℕ) → slice_index bytes i < 256) }
{}

/// Each number of these bytes is below 256.
/// docs/LAWS.md: *Marks*.
pub fn are_bytes(bytes: &[u8])
    ensures { IsBytes bytes.now }
{
    reads_are_bytes();
    let _ = bytes;
}

/// A lower bound is read exactly if one is spelled, and otherwise its fault is.
/// docs/LAWS.md: *Reading is exact*.
#[tactic(auto, using(crate::proofs::Messages::lower_exact))]
pub fn lower_is_exact()
    ensures { FieldIsExact short_text IsLower NoLower lower_at }
{}

/// So is an upper bound.
/// docs/LAWS.md: *Reading is exact*.
pub fn upper_is_exact()
    ensures { FieldIsExact upper_text IsUpper NoUpper upper_at }
{}

/// So is an item.
/// docs/LAWS.md: *Reading is exact*.
#[tactic(auto, using(crate::proofs::Messages::item_exact))]
pub fn item_is_exact()
    ensures { FieldIsExact short_text IsItem NoItem text_at }
{}

/// So is a count.
/// docs/LAWS.md: *Reading is exact*.
#[tactic(auto, using(crate::proofs::Messages::count_exact))]
pub fn count_is_exact()
    ensures { FieldIsExact count_text IsCount (Stops 4) number_at }
{}

/// A frame's body is one event's, or has a fault.
/// docs/LAWS.md: *Reading is exact*.
pub fn body_is_exact<F>()
    ensures { (P : Profile F) → IsProfile P → BodyIsExact P }
{}

/// So is what comes next in a stream, or it is no whole frame yet.
/// docs/LAWS.md: *Reading is exact*.
pub fn next_is_exact<F>()
    ensures { (P : Profile F) → IsProfile P → NextIsExact P }
{}

/// Bytes are one message's, or have a fault.
/// docs/LAWS.md: *Reading is exact*.
pub fn message_is_exact<F>()
    ensures { (P : Profile F) → IsProfile P → MessageIsExact P }
{}

/// A spelling of a message begins no other.
/// docs/LAWS.md: *No spelling begins another*.
#[tactic(auto, using(crate::proofs::Messages::spelling_alone))]
pub fn spellings_stand_alone<F>()
    ensures { (P : Profile F) → IsProfile P → SpellingsStandAlone P }
{}

/// Profile 1 is a real one.
/// docs/LAWS.md: *The wire format*.
#[tactic(auto, using(crate::proofs::Made::two_lanes_real))]
pub fn two_lanes_are_real()
    ensures { IsProfile two_lane_profile }
{}

/// Profile 2 is a real one.
/// docs/LAWS.md: *The wire format*.
#[tactic(auto, using(crate::proofs::Made::counted_real))]
pub fn counted_is_real()
    ensures { IsProfile counted_profile }
{}

/// So is the compact profile.
/// docs/LAWS.md: *The wire format*.
#[tactic(auto, using(crate::proofs::Made::compact_real))]
pub fn compact_is_real()
    ensures { IsProfile compact_profile }
{}

/// A stream is fed what its bytes mean, and nothing else.
/// docs/LAWS.md: *A stream may come in pieces*.
pub fn feed_is_exact<F>()
    ensures { (P : Profile F) → IsProfile P → FeedIsExact P }
{}

/// Items that are made have no fault exactly if a part can have them.
/// docs/LAWS.md: *What is made has a spelling*.
#[tactic(auto, using(crate::proofs::Made::items_exact))]
pub fn items_fault_is_exact()
    ensures { ItemsFaultIsExact }
{}

/// A part that is made has no fault exactly if it has a spelling.
/// docs/LAWS.md: *What is made has a spelling*.
#[tactic(auto, using(crate::proofs::Made::part_exact))]
pub fn part_fault_is_exact<F>()
    ensures { (P : Profile F) → IsProfile P → PartFaultIsExact P }
{}

/// Marks are read from their bytes.
/// docs/LAWS.md: *Marks*.
#[tactic(auto, using(crate::proofs::Marks::marks_back))]
pub fn marks_come_back()
    ensures { MarksComeBack }
{}

/// A mark bit that is not used can only be in the last byte.
/// docs/LAWS.md: *Marks*.
#[tactic(auto, using(crate::proofs::Marks::padding_last))]
pub fn padding_is_last()
    ensures { PaddingIsLast }
{}

/// A stream may be cut anywhere.
/// docs/LAWS.md: *A stream may come in pieces*.
#[tactic(auto, using(crate::proofs::Streams::feeds_joined))]
pub fn feeds_join<F>()
    ensures { (P : Profile F) → IsProfile P → FeedsJoin P }
{}

/// What is kept of a stream between its pieces has been read, and is no whole frame.
/// docs/LAWS.md: *A stream may come in pieces*.
pub fn feeds_rest<F>()
    ensures { (P : Profile F) → IsProfile P → FeedsRest P }
{}

/// What a set of 65,536 items or fewer has in a range is listed in one frame.
/// docs/LAWS.md: *What is made has a spelling*.
pub fn sets_fit<F>()
    ensures { (P : Profile F) → SetsFit P }
{}

/// What a set of 65,536 items or fewer answers to a list fits one frame.
/// docs/LAWS.md: *What is made has a spelling*.
pub fn answers_fit<F>()
    ensures { (P : Profile F) → AnswersFit P }
{}

/// What a stream spells are messages.
/// docs/LAWS.md: *A stream may come in pieces*.
#[tactic(auto, using(crate::proofs::Streams::heard_messages))]
pub fn heard_are_messages<F>()
    ensures { (P : Profile F) → IsProfile P → HeardAreMessages P }
{}

/// And a session's text spells its messages.
/// docs/LAWS.md: *A stream may come in pieces*.
#[tactic(auto, using(crate::proofs::Streams::sessions_heard))]
pub fn sessions_are_heard<F>()
    ensures { (P : Profile F) → IsProfile P → SessionsAreHeard P }
{}

/// What is learned of the other side has at most half as many items as its messages have bytes.
/// docs/LAWS.md: *What is learned takes bytes*.
#[tactic(auto, using(crate::proofs::Paid::learned_paid))]
pub fn learned_is_paid<F>()
    ensures { (P : Profile F) → LearnedIsPaid P }
{}
