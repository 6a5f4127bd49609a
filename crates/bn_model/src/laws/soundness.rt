ghost use Rattle.bn_model.specs.SoundnessLaws.{BlankingKeepsSound, KeepsAcceptances, KeepsAsleep};
ghost use Rattle.bn_model.specs.SoundnessLaws.{KeepsClaims, KeepsHarts, KeepsIds, KeepsModes};
ghost use Rattle.bn_model.specs.SoundnessLaws.{KeepsRows, KeepsSound, KeepsStates, KeepsStored};
ghost use Rattle.bn_model.specs.SoundnessLaws.{OpeningIsSound};

/// A run begins in a sound state.
pub fn opening_is_sound()
    ensures { OpeningIsSound }
{}

/// Zeroing the secrets of a resting module keeps soundness.
pub fn blanking_keeps_sound()
    ensures { BlankingKeepsSound }
{}

/// Every event keeps ids ascending below the next one, and identities different.
pub fn events_keep_ids()
    ensures { KeepsIds }
{}

/// Every event keeps declarations from colliding, and each acceptance from a live module at its
/// offer.
pub fn events_keep_claims()
    ensures { KeepsClaims }
{}

/// After every event harts and rows agree on who runs, and rows on who waits for whom.
pub fn events_keep_states()
    ensures { KeepsStates }
{}

/// After every event a hart that isn't started runs no module.
pub fn events_keep_harts_asleep()
    ensures { KeepsAsleep }
{}

/// After every event a hart that runs a module is in its mode.
pub fn events_keep_modes()
    ensures { KeepsModes }
{}

/// Every event keeps the shapes and ranges of rows.
pub fn events_keep_rows()
    ensures { KeepsRows }
{}

/// Every event keeps the shapes and ranges of harts.
pub fn events_keep_harts()
    ensures { KeepsHarts }
{}

/// Every event keeps the sizes and ranges of pages, keys and records.
pub fn events_keep_stored()
    ensures { KeepsStored }
{}

/// After every event a page is accepted at most four times.
pub fn events_keep_acceptances()
    ensures { KeepsAcceptances }
{}

/// Every event keeps soundness.
pub fn events_keep_sound()
    ensures { KeepsSound }
{}
