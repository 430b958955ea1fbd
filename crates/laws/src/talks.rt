//! Laws of replies, placing, talks, knowledge, sessions and runs.

ghost use Rattle.std.specs.Prelude.{◌≡◌, List};
ghost use Rattle.definitions.specs.Items.{Item, whole};
ghost use Rattle.definitions.specs.Sets.{items_in};
ghost use Rattle.definitions.specs.Fingerprints.{Summary, IsExact, two_lanes, counted_lanes, compact_prints};
ghost use Rattle.definitions.specs.Messages.{Message, RangesRise};
ghost use Rattle.definitions.specs.Wire.{Profile, IsMessage};
ghost use Rattle.definitions.specs.Theorems.{RepliesArePlaced, RepliesAreShort, EndsKeepLimits, PlacingIsExact};
ghost use Rattle.definitions.specs.Theorems.{OpeningIsExact, MessagesAreFew, MessagesFit, TalksAreApart};
ghost use Rattle.definitions.specs.Theorems.{RepliesAreApart, PlacedAreApart, RepliesAreHonest, LearnsOnce};
ghost use Rattle.definitions.specs.Theorems.{InitiatorStops, ResponderStops, EndsStandFirm, EndsHearOn, EndsKeepPeers};
ghost use Rattle.definitions.specs.Theorems.{InitiatorLearns, ResponderLearns, ListsAreShort, KnowledgeIsExact};
ghost use Rattle.definitions.specs.Theorems.{KnowledgeIsSound, PartsAreFew, Headline, CostClaim, HistoryClaim};
ghost use Rattle.definitions.specs.Theorems.{AbsorbClaim, SessionsEnd};
ghost use Rattle.laws.specs.Cutting.{CutsAreExact, CutsHaveRanges, CutsArePieces, SeparatorsAreShortest};
ghost use Rattle.laws.specs.Cutting.{TalksHaveRanges};
ghost use Rattle.laws.specs.Opening.{OpeningsAreExact, OpeningsHaveCounts, OpeningsAreLower};
ghost use Rattle.laws.specs.Growing.{TalksGrow, KnowledgeGrows};
ghost use Rattle.laws.specs.Turns.{TalksBegin, TalksGoOn, EndsHear, EndsTalk};
ghost use Rattle.laws.specs.Saying.{EndsSay};
ghost use Rattle.laws.specs.Taking.{PartsAreTaken};
ghost use Rattle.laws.specs.Hearing.{FramesAgree, BytesAgree, FramesSay, HearingsGoOn, OwnBegins};
ghost use Rattle.laws.specs.Hearing.{OwnIsFew, OwnIsShort};
ghost use Rattle.laws.specs.Sessions.{SessionsOpen, SessionsGoOn, SessionsStay, SessionsKeepNodes, SessionsTell};
ghost use Rattle.laws.specs.Meeting.{TwoSessionsMeet, EndedCallsWriteAll};
ghost use Rattle.laws.specs.Sizes.{CountsTellSizes};
ghost use Rattle.laws.specs.Spreading.{SpreadClaim, UnionClaim};
ghost use Rattle.laws.specs.Weaker.{InitiatorStopsAnyhow, ResponderStopsAnyhow, ListsAreShortAnyhow};
ghost use Rattle.laws.specs.Weaker.{KnowledgeIsExactAnyhow, PartsAreFewAnyhow, count_summary, blind, wary};

// ---- fingerprints

/// The fingerprints of the first profile are compared exactly.
/// docs/LAWS.md: *Fingerprints are compared exactly*.
#[tactic(auto, using(crate::proofs::Refuted::two_lanes_exact))]
pub fn lanes_are_exact()
    ensures { IsExact two_lanes }
{}

/// So are those of the other.
/// docs/LAWS.md: *Fingerprints are compared exactly*.
#[tactic(auto, using(crate::proofs::Refuted::counted_lanes_exact))]
pub fn counted_lanes_are_exact()
    ensures { IsExact counted_lanes }
{}

/// So are those of the compact profile.
/// docs/LAWS.md: *Fingerprints are compared exactly*.
#[tactic(auto, using(crate::proofs::Refuted::compact_prints_exact))]
pub fn compact_prints_are_exact()
    ensures { IsExact compact_prints }
{}

/// Sets of fewer than 2^32 items that share a fingerprint of profile 2 are of one size, whoever made them.
/// docs/LAWS.md: *What the count of profile 2 gains*.
#[tactic(auto, using(crate::proofs::Sizes::counts_tell))]
pub fn counts_tell_sizes()
    ensures { CountsTellSizes }
{}

// ---- ranges

/// Each item lies in the range of everything.
/// docs/LAWS.md: *Ranges and cuts*.
pub fn whole_has_all()
    ensures { (A : List Item) → items_in A whole ≡ A }
{}

// ---- what a session opens with

/// What an initiator opens with is a first message, honest, and its parts make up everything.
/// docs/LAWS.md: *What a session opens with*.
pub fn openings_are_exact<F>()
    ensures { (S : Summary F) → OpeningsAreExact S }
{}

/// How many own items are in its ranges is told by the table and the number of all items.
/// docs/LAWS.md: *What a session opens with*.
#[tactic(auto, using(crate::proofs::Openings::openings_have_counts))]
pub fn openings_have_counts<F>()
    ensures { (S : Summary F) → OpeningsHaveCounts S }
{}

/// One Sum has the rank of the whole set, and the parts of a cut have lower ones.
/// docs/LAWS.md: *What a session opens with*.
#[tactic(auto, using(crate::proofs::Openings::openings_are_lower))]
pub fn openings_are_lower<F>()
    ensures { (S : Summary F) → OpeningsAreLower S }
{}

// ---- replies

/// A cut has the shares of the table, and its parts make up the range.
/// docs/LAWS.md: *A cut is exact*.
pub fn cuts_are_exact()
    ensures { CutsAreExact }
{}

/// The parts of a cut rise if the range does, whatever the table.
/// docs/LAWS.md: *A cut is exact*.
pub fn cuts_have_ranges()
    ensures { CutsHaveRanges }
{}

/// Each part of a cut has the own items between two places of the range, whatever the table.
/// docs/LAWS.md: *A cut is exact*.
pub fn cuts_are_pieces()
    ensures { CutsArePieces }
{}

/// The bound of a cut that is short is the shortest that serves.
/// docs/LAWS.md: *A cut is exact*.
pub fn separators_are_shortest()
    ensures { SeparatorsAreShortest }
{}

/// An honest reply is placed, whatever it replies to.
/// docs/LAWS.md: *An honest reply is placed*.
pub fn replies_are_placed<F>()
    ensures { (S : Summary F) → RepliesArePlaced S }
{}

/// No reply lists more items than the limit.
/// docs/LAWS.md: *Lists are short*.
pub fn replies_are_short<F>()
    ensures { (S : Summary F) → RepliesAreShort S }
{}

/// What an honest reply opens does not overlap, if what it replies to does not.
/// docs/LAWS.md: *Open ranges do not overlap*.
pub fn replies_are_apart<F>()
    ensures { (S : Summary F) → RepliesAreApart S }
{}

/// What a placed message opens does not overlap, if what it follows does not.
/// docs/LAWS.md: *Open ranges do not overlap*.
pub fn placed_are_apart<F>()
    ensures { PlacedAreApart F }
{}

/// A reply says what its sender has.
/// docs/LAWS.md: *A reply is honest*.
pub fn replies_are_honest<F>()
    ensures { (S : Summary F) → RepliesAreHonest S }
{}

/// What is learned from a placed message is learned once, and lies in no range that is still open.
/// docs/LAWS.md: *Nothing is learned twice*.
pub fn learns_once<F>()
    ensures { (S : Summary F) → LearnsOnce S }
{}

/// The placing part by part accepts exactly the placed messages.
/// docs/LAWS.md: *The placing part by part is the relation*.
pub fn placing_is_exact<F>()
    ensures { PlacingIsExact F }
{}

/// And exactly the openings.
/// docs/LAWS.md: *The placing part by part is the relation*.
pub fn opening_is_exact<F>()
    ensures { OpeningIsExact F }
{}

/// Each range of a message that has a spelling rises.
/// docs/LAWS.md: *Open ranges do not overlap*.
#[tactic(auto, using(crate::proofs::Ends::messages_have_ranges))]
pub fn messages_have_ranges<F>()
    ensures { (P : Profile F) (M : Message F) → IsMessage P M → RangesRise M }
{}

// ---- one end

/// An initiator stops, whatever well-placed messages its peer sends.
/// docs/LAWS.md: *An end stops*.
#[tactic(auto, using(crate::proofs::Stops::initiator_stops))]
pub fn initiator_stops<F>()
    ensures { (S : Summary F) → InitiatorStops S }
{}

/// So does a responder.
/// docs/LAWS.md: *An end stops*.
#[tactic(auto, using(crate::proofs::Stops::responder_stops))]
pub fn responder_stops<F>()
    ensures { (S : Summary F) → ResponderStops S }
{}

/// No message that an end says lists more items than the limit, whatever the peer sends.
/// docs/LAWS.md: *Lists are short*.
pub fn ends_keep_limits<F>()
    ensures { (S : Summary F) → EndsKeepLimits S }
{}

/// Whatever an end hears: what its own last message opens does not overlap, it sends few messages, and it learns
/// nothing twice.
/// docs/LAWS.md: *An end stands firm*.
pub fn ends_stand_firm<F>()
    ensures { (S : Summary F) → EndsStandFirm S }
{}

/// The end after one message more.
/// docs/LAWS.md: *An end stands firm*.
#[tactic(auto, using(crate::proofs::Saying::ends_hear_on))]
pub fn ends_hear_on<F>()
    ensures { (S : Summary F) → EndsHearOn S }
{}

/// No message changes who speaks.
/// docs/LAWS.md: *An end stands firm*.
#[tactic(auto, using(crate::proofs::Saying::ends_keep_peers))]
pub fn ends_keep_peers<F>()
    ensures { (S : Summary F) → EndsKeepPeers S }
{}

/// Each message that an end says is counted as sent, and after the end of its session it says nothing more.
/// docs/LAWS.md: *An end counts what it says*.
pub fn ends_say<F>()
    ensures { (S : Summary F) → EndsSay S }
{}

/// What an initiator learned, whatever its peer sends, is what its set learns from the messages that it took.
/// docs/LAWS.md: *What an end learned*.
#[tactic(auto, using(crate::proofs::Learned::initiator_learns))]
pub fn initiator_learns<F>()
    ensures { (S : Summary F) → InitiatorLearns S }
{}

/// The same of a responder.
/// docs/LAWS.md: *What an end learned*.
#[tactic(auto, using(crate::proofs::Learned::responder_learns))]
pub fn responder_learns<F>()
    ensures { (S : Summary F) → ResponderLearns S }
{}

/// What an end answers to the parts of a message, one by one up to the first that is refused, and then to their end, is
/// what it answers to the message; and it is the same end after it.
/// docs/LAWS.md: *Parts are taken*.
pub fn parts_are_taken<F>()
    ensures { (S : Summary F) → PartsAreTaken S }
{}

/// What is heard frame by frame ends where the whole messages end it, and says the same; a refusal comes at its frame.
/// docs/LAWS.md: *Frames agree*.
pub fn frames_agree<F>()
    ensures { (S : Summary F) → FramesAgree S }
{}

/// The same of the bytes of a stream.
/// docs/LAWS.md: *Frames agree*.
pub fn bytes_agree<F>()
    ensures { (S : Summary F) (P : Profile F) → BytesAgree S P }
{}

/// A part adds nothing to what is said, the end of a message its reply; after a stop nothing more is said.
/// docs/LAWS.md: *What is said at each frame*.
pub fn frames_say<F>()
    ensures { (S : Summary F) → FramesSay S }
{}

/// While a side goes on, one event more is heard and its reply is said; after a stop nothing more is, wherever the
/// bytes are cut.
/// docs/LAWS.md: *What is said at each frame*.
pub fn hearings_go_on<F>()
    ensures { (S : Summary F) → HearingsGoOn S }
{}

/// What was said so far begins what all events call for.
/// docs/LAWS.md: *What is said at each frame*.
pub fn own_begins<F>()
    ensures { (S : Summary F) → OwnBegins S }
{}

/// Whatever an end hears, it calls for few messages of its own, one that is too long to be said among them.
/// docs/LAWS.md: *What is called for is little*.
pub fn own_is_few<F>()
    ensures { (S : Summary F) → OwnIsFew S }
{}

/// And none of them lists more items than the limit.
/// docs/LAWS.md: *What is called for is little*.
pub fn own_is_short<F>()
    ensures { (S : Summary F) → OwnIsShort S }
{}

// ---- talks

/// A talk grows by the reply to its last message.
/// docs/LAWS.md: *Talks grow by replies*.
#[tactic(auto, using(crate::proofs::Knowledge::talks_grow))]
pub fn talks_grow<F>()
    ensures { (S : Summary F) → TalksGrow S }
{}

/// The talk so far is how the longer one begins.
/// docs/LAWS.md: *Talks grow by replies*.
#[tactic(auto, using(crate::proofs::Turns::talks_begin))]
pub fn talks_begin<F>()
    ensures { (S : Summary F) → TalksBegin S }
{}

/// Message number k is the last of the first k + 1, and the reply to it is the next.
/// docs/LAWS.md: *Talks grow by replies*.
pub fn talks_go_on<F>()
    ensures { (S : Summary F) → TalksGoOn S }
{}

/// Each message changes the end that hears it, and not the other.
/// docs/LAWS.md: *Two ends hand each other the talk*.
pub fn ends_hear<F>()
    ensures { (S : Summary F) → EndsHear S }
{}

/// Two honest ends hand each other exactly the talk.
/// docs/LAWS.md: *Two ends hand each other the talk*.
pub fn ends_talk<F>()
    ensures { (S : Summary F) → EndsTalk S }
{}

/// Only its hearer learns from a message.
/// docs/LAWS.md: *Talks grow by replies*.
pub fn knowledge_grows<F>()
    ensures { KnowledgeGrows F }
{}

/// Each range of a talk rises.
/// docs/LAWS.md: *Open ranges do not overlap*.
#[tactic(auto, using(crate::proofs::Ends::talks_have_ranges))]
pub fn talks_have_ranges<F>()
    ensures { (S : Summary F) → TalksHaveRanges S }
{}

/// What each message of a talk opens does not overlap.
/// docs/LAWS.md: *Open ranges do not overlap*.
#[tactic(auto, using(crate::proofs::OpenRanges::talks_are_apart))]
pub fn talks_are_apart<F>()
    ensures { (S : Summary F) → TalksAreApart S }
{}

/// A talk has few messages.
/// docs/LAWS.md: *Messages are few*.
#[tactic(auto, using(crate::proofs::Ends::messages_are_few))]
pub fn messages_are_few<F>()
    ensures { (S : Summary F) → MessagesAreFew S }
{}

/// A talk lists no more items for a range than its sender's limit.
/// docs/LAWS.md: *Lists are short*.
#[tactic(auto, using(crate::proofs::Ends::lists_are_short))]
pub fn lists_are_short<F>()
    ensures { (S : Summary F) → ListsAreShort S }
{}

/// A message of a talk has few parts.
/// docs/LAWS.md: *Parts are few*.
#[tactic(auto, using(crate::proofs::Few::few_parts))]
pub fn parts_are_few<F>()
    ensures { (S : Summary F) → PartsAreFew S }
{}

/// A message of a talk has no more parts than both sets have items, or one.
/// docs/LAWS.md: *Messages fit*.
#[tactic(auto, using(crate::proofs::Few::messages_fit))]
pub fn messages_fit<F>()
    ensures { (S : Summary F) → MessagesFit S }
{}

/// Once a talk has ended each side knows both differences.
/// docs/LAWS.md: *Knowledge is exact*.
#[tactic(auto, using(crate::proofs::Knowledge::exact_knowledge))]
pub fn knowledge_is_exact<F>()
    ensures { (S : Summary F) → KnowledgeIsExact S }
{}

/// Nothing wrong is learned, at any time.
/// docs/LAWS.md: *Nothing wrong is learned*.
#[tactic(auto, using(crate::proofs::Knowledge::sound_knowledge))]
pub fn knowledge_is_sound<F>()
    ensures { (S : Summary F) → KnowledgeIsSound S }
{}

// ---- two sides over bytes

/// Two sides, each of which gets all that the other writes and nothing else, end their sessions and have said the talk.
/// docs/LAWS.md: *Two sessions meet*.
pub fn two_sessions_meet<F>()
    ensures { (S : Summary F) (W : Profile F) → TwoSessionsMeet S W }
{}

/// A call whose session has ended wrote all that its side says.
/// docs/LAWS.md: *Two sessions meet*.
pub fn ended_calls_write_all<F>()
    ensures { (S : Summary F) (W : Profile F) → EndedCallsWriteAll S W }
{}

// ---- runs

/// In each run each session is sound.
/// docs/LAWS.md: *The main law*.
#[tactic(auto, using(crate::proofs::Runs::headline))]
pub fn headline<F>()
    ensures { (S : Summary F) → Headline S }
{}

/// The messages of a session have few parts, and no more are shown.
/// docs/LAWS.md: *Cost*.
pub fn cost_claim<F>()
    ensures { (S : Summary F) → CostClaim S }
{}

/// An item of a history was there at the start, or was inserted.
/// docs/LAWS.md: *Provenance*.
#[tactic(auto, using(crate::proofs::Runs::history_claim))]
pub fn history_claim<F>()
    ensures { (S : Summary F) → HistoryClaim S }
{}

/// An absorbed session leaves its node with both pinned versions.
/// docs/LAWS.md: *Convergence*.
#[tactic(auto, using(crate::proofs::Runs::absorb_claim))]
pub fn absorb_claim<F>()
    ensures { (S : Summary F) → AbsorbClaim S }
{}

/// An item travels along sessions, each of which is opened after the last one was absorbed.
/// docs/LAWS.md: *Spread*.
pub fn spread_claim<F>()
    ensures { (S : Summary F) → SpreadClaim S }
{}

/// Where each node reaches each one along such sessions, all end with all items, and with no others.
/// docs/LAWS.md: *Spread*.
#[tactic(auto, using(crate::proofs::Spreading::union_claim))]
pub fn union_claim<F>()
    ensures { (S : Summary F) → UnionClaim S }
{}

/// A session has ended after 513 deliveries.
/// docs/LAWS.md: *Deliveries end a session*.
#[tactic(auto, using(crate::proofs::Finishing::sessions_end))]
pub fn sessions_end<F>()
    ensures { (S : Summary F) → SessionsEnd S }
{}

// ---- what is kept of a session

/// What is kept of a session that is opened is what the world says of it.
/// docs/LAWS.md: *What a session keeps*.
pub fn sessions_open<F>()
    ensures { (S : Summary F) → SessionsOpen S }
{}

/// A delivery makes of it what is kept after the delivery, and the message made last is not refused.
/// docs/LAWS.md: *What a session keeps*.
pub fn sessions_go_on<F>()
    ensures { (S : Summary F) → SessionsGoOn S }
{}

/// No step touches what is kept of a session, except that a delivery changes the numbers of its own.
/// docs/LAWS.md: *What a session keeps*.
pub fn sessions_stay<F>()
    ensures { (S : Summary F) → SessionsStay S }
{}

/// What is kept of a session stays if the nodes stay.
/// docs/LAWS.md: *What a session keeps*.
pub fn sessions_keep_nodes<F>()
    ensures { (S : Summary F) → SessionsKeepNodes S }
{}

/// What is kept of a session gives what the world says of it.
/// docs/LAWS.md: *What a session keeps*.
pub fn sessions_tell<F>()
    ensures { (S : Summary F) → SessionsTell S }
{}

// ---- no premise can be left out

/// An initiator need not stop if received ranges do not rise.
/// docs/LAWS.md: *What does not hold*.
#[tactic(auto, using(crate::proofs::Refuted::initiator_needs_ranges))]
pub fn initiator_needs_ranges()
    ensures { InitiatorStopsAnyhow count_summary → ⊥ }
{}

/// Nor need a responder.
/// docs/LAWS.md: *What does not hold*.
#[tactic(auto, using(crate::proofs::Refuted::responder_needs_ranges))]
pub fn responder_needs_ranges()
    ensures { ResponderStopsAnyhow count_summary → ⊥ }
{}

/// A list may be long if the rows end below the cap.
/// docs/LAWS.md: *What does not hold*.
#[tactic(auto, using(crate::proofs::Refuted::lists_need_tables))]
pub fn lists_need_tables()
    ensures { ListsAreShortAnyhow count_summary → ⊥ }
{}

/// Knowledge may be wrong if the test of fingerprints errs.
/// docs/LAWS.md: *What does not hold*.
#[tactic(auto, using(crate::proofs::Refuted::knowledge_needs_exactness))]
pub fn knowledge_needs_exactness()
    ensures { KnowledgeIsExactAnyhow blind → ⊥ }
{}

/// A message may have many parts if the test of fingerprints errs.
/// docs/LAWS.md: *What does not hold*.
#[tactic(auto, using(crate::proofs::Refuted::parts_need_exactness))]
pub fn parts_need_exactness()
    ensures { PartsAreFewAnyhow wary → ⊥ }
{}
