//! The laws of modules that start and stop.
ghost use Rattle.bn_model.specs.SwitchingLaws.{ModulesStart, StopsClear, StopsSave};

/// A trap out of a module leaves x1 to x31 of the hart 0, and the hart in the untrusted world.
pub fn stops_clear()
    ensures { StopsClear }
{}

/// A trap out of a module keeps the module's registers, pc and mode in its row.
pub fn stops_save()
    ensures { StopsSave }
{}

/// A module starts only at one of its entries, as it was stopped, or back from the module that it
/// called.
pub fn modules_start()
    ensures { ModulesStart }
{}
