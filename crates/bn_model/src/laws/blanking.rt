//! The laws of a resting module's secrets.
ghost use Rattle.bn_model.specs.BlankingLaws.{DigestsNoSecrets, KeepsResting};
ghost use Rattle.bn_model.specs.BlankingLaws.{RestingHidesSecrets, RunsHideSecrets, TellsNoSecrets};
ghost use Rattle.bn_model.specs.BlankingLaws.{UsesNoSecrets, ZeroingChangesNothing};
ghost use Rattle.bn_model.specs.BlankingLaws.{ZeroingIsUnseen};

/// The digest of the public pages is the same without the secrets of a module.
pub fn digests_no_secrets()
    ensures { DigestsNoSecrets }
{}

/// The lines of an event are the same without the secrets of a module that rests before it.
pub fn tells_no_secrets()
    ensures { TellsNoSecrets }
{}

/// An event before and after which a module rests leaves the same state but for its secrets.
pub fn uses_no_secrets()
    ensures { UsesNoSecrets }
{}

/// A resting module that lives on keeps its private pages, and its saved frame until it starts.
pub fn keeps_resting()
    ensures { KeepsResting }
{}

/// While a module rests, zeroing its secrets changes nothing else, up to the lines of the event
/// that starts it.
pub fn zeroing_changes_nothing()
    ensures { ZeroingChangesNothing }
{}

/// Two states that differ in a resting module's secrets alone tell the same until it runs.
pub fn resting_hides_secrets()
    ensures { RestingHidesSecrets }
{}

/// A run from a sound state shows nothing of the secrets of a module while it rests.
pub fn runs_hide_secrets()
    ensures { RunsHideSecrets }
{}

/// Zeroing a module's secrets just before an event changes nothing of what a run tells while the
/// module rests.
pub fn zeroing_is_unseen()
    ensures { ZeroingIsUnseen }
{}
