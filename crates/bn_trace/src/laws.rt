//! The laws of lines. Each is the contract of a function that does nothing.
ghost use Rattle.bn_trace.specs.Laws.{SpellingsAreRead};

/// A line whose fields are in their ranges is read from its spelling, whatever comes after.
pub fn spellings_are_read()
    ensures { SpellingsAreRead }
{}
