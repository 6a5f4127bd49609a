//! The laws of runs.
ghost use Rattle.bn_model.specs.RunningLaws.{RunsAppend};

/// A run of two lists of events is the run of one after the other.
pub fn runs_append()
    ensures { RunsAppend }
{}
