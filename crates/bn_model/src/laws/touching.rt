//! The laws of the pages that an event touches and changes.
ghost use Rattle.bn_model.specs.TouchingLaws.{ChangesAreTouched, TouchesAreAdmitted};

/// A page that is touched has no owners, or the module that touches it declares it there with the
/// right.
pub fn touches_are_admitted()
    ensures { TouchesAreAdmitted }
{}

/// A page that changes was stored to, or was a private or offered page of a module that is removed.
pub fn changes_are_touched()
    ensures { ChangesAreTouched }
{}
