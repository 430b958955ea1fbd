//! Laws of the compact spelling.

ghost use Rattle.definitions.specs.Fingerprints.{Summary};
ghost use Rattle.definitions.specs.Wire.{Profile, IsProfile};
ghost use Rattle.laws.specs.Compact.{UnitsComeBack, UnitsHaveOneSpelling, UnitsStandFirm, UnpackingIsExact};
ghost use Rattle.laws.specs.Compact.{MessagesMeanFrames, PiecesJoin, FramesBegin, StreamsBegin, FaultsKeepNumbers};
ghost use Rattle.laws.specs.Compact.{FramesAreHeard, StreamsAreHeard, PackingIsExact, MessagesArePacked};
ghost use Rattle.laws.specs.Compact.{PackingUndoes, SameFramesSameBytes, FramesAreBytes, MessagesComeBack};
ghost use Rattle.laws.specs.Compact.{MessagesHaveOneSpelling, PackingJoins, PiecesAdd, KeptIsShort};
ghost use Rattle.laws.specs.Compact.{StreamsComeBack, OpeningsClimb, PlacedClimb, RepliesClimb, TalksClimb};

/// A part with its skip, the end of a message and a fault are read back, whatever follows.
/// docs/LAWS.md: *The compact spelling*.
#[tactic(auto, using(crate::proofs::CompactLaws::units_back))]
pub fn units_come_back<F>()
    ensures { (P : Profile F) → IsProfile P → UnitsComeBack P }
{}

/// What is read as a unit is one, and has no other spelling.
/// docs/LAWS.md: *The compact spelling*.
pub fn units_have_one_spelling<F>()
    ensures { (P : Profile F) → IsProfile P → UnitsHaveOneSpelling P }
{}

/// With more bytes a unit stays the same, and so does a fault.
/// docs/LAWS.md: *The compact spelling*.
pub fn units_stand_firm<F>()
    ensures { (P : Profile F) → IsProfile P → UnitsStandFirm P }
{}

/// Bytes are the text of the units that are found in them, and of what is none.
/// docs/LAWS.md: *The compact spelling*.
pub fn unpacking_is_exact<F>()
    ensures { (P : Profile F) → IsProfile P → UnpackingIsExact P }
{}

/// A message whose ranges climb means its frames, whatever follows.
/// docs/LAWS.md: *The compact spelling*.
#[tactic(auto, using(crate::proofs::CompactLaws::messages_mean_frames))]
pub fn messages_mean_frames<F>()
    ensures { (P : Profile F) → IsProfile P → MessagesMeanFrames P }
{}

/// The frames that bytes mean are bytes.
/// docs/LAWS.md: *The compact spelling*.
pub fn frames_are_bytes<F>()
    ensures { (P : Profile F) → IsProfile P → FramesAreBytes P }
{}

/// Bytes in pieces mean the same as in one.
/// docs/LAWS.md: *The compact spelling*.
#[tactic(auto, using(crate::proofs::CompactLaws::pieces_join))]
pub fn pieces_join<F>()
    ensures { (P : Profile F) → IsProfile P → PiecesJoin P }
{}

/// So a piece adds to the frames what is kept and the piece mean, but for the byte of a unit that had begun.
/// docs/LAWS.md: *The compact spelling*.
pub fn pieces_add<F>()
    ensures { (P : Profile F) → IsProfile P → PiecesAdd P }
{}

/// What is kept of a unit that has not all come has fewer bytes than the longest field and 138.
/// docs/LAWS.md: *The compact spelling*.
pub fn kept_is_short<F>()
    ensures { (P : Profile F) → IsProfile P → KeptIsShort P }
{}

/// What a beginning of some bytes means is a beginning of what they mean.
/// docs/LAWS.md: *The compact spelling*.
#[tactic(auto, using(crate::proofs::CompactLaws::frames_begun))]
pub fn frames_begin<F>()
    ensures { (P : Profile F) → IsProfile P → FramesBegin P }
{}

/// So it is of a stream with its hello.
/// docs/LAWS.md: *The compact spelling*.
#[tactic(auto, using(crate::proofs::CompactLaws::streams_begun))]
pub fn streams_begin<F>()
    ensures { (P : Profile F) → IsProfile P → StreamsBegin P }
{}

/// The frames that stand for a fault are refused with its number.
/// docs/LAWS.md: *The compact spelling*.
pub fn faults_keep_numbers<F>()
    ensures { (P : Profile F) → IsProfile P → FaultsKeepNumbers P }
{}

/// A session hears the units, and then that one has begun or what its fault is.
/// docs/LAWS.md: *The compact spelling*.
#[tactic(auto, using(crate::proofs::CompactLaws::all_frames_heard))]
pub fn frames_are_heard<F>()
    ensures { (P : Profile F) → IsProfile P → FramesAreHeard P }
{}

/// So it does from the hello on.
/// docs/LAWS.md: *The compact spelling*.
#[tactic(auto, using(crate::proofs::CompactLaws::all_streams_heard))]
pub fn streams_are_heard<F>()
    ensures { (P : Profile F) → IsProfile P → StreamsAreHeard P }
{}

/// The frames of events are packed as their units, whatever follows.
/// docs/LAWS.md: *The compact spelling*.
#[tactic(auto, using(crate::proofs::CompactLaws::packing_exact))]
pub fn packing_is_exact<F>()
    ensures { (P : Profile F) → IsProfile P → PackingIsExact P }
{}

/// A message's frames are packed as its compact text, whatever follows.
/// docs/LAWS.md: *The compact spelling*.
#[tactic(auto, using(crate::proofs::CompactLaws::all_messages_packed))]
pub fn messages_are_packed<F>()
    ensures { (P : Profile F) → IsProfile P → MessagesArePacked P }
{}

/// Messages whose ranges climb mean the frames that were packed.
/// docs/LAWS.md: *The compact spelling*.
#[tactic(auto, using(crate::proofs::CompactLaws::streams_back))]
pub fn streams_come_back<F>()
    ensures { (P : Profile F) → IsProfile P → StreamsComeBack P }
{}

/// Frames in pieces are packed the same as in one.
/// docs/LAWS.md: *The compact spelling*.
pub fn packing_joins<F>()
    ensures { (P : Profile F) → IsProfile P → PackingJoins P }
{}

/// Packing what bytes mean gives them back, up to the last whole unit.
/// docs/LAWS.md: *The compact spelling*.
pub fn packing_undoes<F>()
    ensures { (P : Profile F) → IsProfile P → PackingUndoes P }
{}

/// So bytes that mean the same frames are the same up to there.
/// docs/LAWS.md: *The compact spelling*.
pub fn same_frames_same_bytes<F>()
    ensures { (P : Profile F) → IsProfile P → SameFramesSameBytes P }
{}

/// One message and nothing else is read back.
/// docs/LAWS.md: *The compact spelling*.
pub fn messages_come_back<F>()
    ensures { (P : Profile F) → IsProfile P → MessagesComeBack P }
{}

/// And what is read as one has no other spelling.
/// docs/LAWS.md: *The compact spelling*.
pub fn messages_have_one_spelling<F>()
    ensures { (P : Profile F) → IsProfile P → MessagesHaveOneSpelling P }
{}

/// The ranges of a first message climb.
/// docs/LAWS.md: *The compact spelling*.
pub fn openings_climb<F>()
    ensures { OpeningsClimb F }
{}

/// So do those of a placed message.
/// docs/LAWS.md: *The compact spelling*.
pub fn placed_climb<F>()
    ensures { PlacedClimb F }
{}

/// So do those of a reply.
/// docs/LAWS.md: *The compact spelling*.
pub fn replies_climb<F>()
    ensures { (S : Summary F) → RepliesClimb S }
{}

/// So do those of each message of a talk.
/// docs/LAWS.md: *The compact spelling*.
#[tactic(auto, using(crate::proofs::CompactClimbs::talks_climb))]
pub fn talks_climb<F>()
    ensures { (S : Summary F) → TalksClimb S }
{}
