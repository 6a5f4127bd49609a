ghost use Rattle.bn_model.specs.SegmentLaws.{AcceptedAreSpelt, SpeltAreAccepted};

/// An accepted text says a segment with few entries, pages and partners, in order and with lawful
/// rights, and is the spelling of that segment.
pub fn accepted_texts_are_spelt()
    ensures { AcceptedAreSpelt }
{}

/// The spelling of a segment with few entries, pages and partners, in order and with lawful rights,
/// is accepted, and says that segment.
pub fn spelt_segments_are_accepted()
    ensures { SpeltAreAccepted }
{}
