ghost use Rattle.std.specs.Prelude.{◌≡◌, ℕ, ◌≤◌, Some, IfOk, OnOk, OnErr, length, vec_len};
ghost use Rattle.bn_edge.specs.Accounts.{VaultAccount};
ghost use Rattle.bn_edge.specs.Areas.{Areas, area_room, GivesArea, written, IsTorn, MayBeTorn};
ghost use Rattle.bn_edge.specs.Counts.{CountsRefusals, CountsAreaFaults};
ghost use Rattle.bn_edge.specs.Crashes.{Elapses, Follows, LeavesNoMore, LeavesTheSame};
ghost use Rattle.bn_edge.specs.Crashes.{LeavesWhatIsRead};

use crate::{Area, AreaFault, VaultFailed};
use std::alloc::Global;

/// Two areas of at most 65,536 bytes each, which outlive a crash. Whether a vault tells them never
/// changes.
pub trait Vault {
    /// Its areas, where it tells them, what a crash may leave, now and since an earlier moment, and
    /// its faults.
    ghost account: { Self → VaultAccount };

    /// The bytes of an area, at most 65,536. It changes nothing, also where it fails.
    ///
    /// `Failed` is counted in `faults`; `Memory` is free.
    fn read_area(&mut self, alloc: Global, area: Area) -> Result<Vec<u8>, AreaFault>
        ensures short { IfOk result (λ bytes. vec_len bytes ≤ area_room) }
        ensures gives { IfOk result (λ bytes. GivesArea (account self.old).areas area bytes.items) }
        ensures kept { (account self.new).areas ≡ (account self.old).areas }
        ensures crash { LeavesTheSame (account self.old) (account self.new) }
        ensures time { Elapses (account self.old) (account self.new) }
        ensures failed { CountsAreaFaults result
            (account self.old).faults (account self.new).faults };

    /// Makes the text, of at most 65,536 bytes, the area. Until a sync succeeds a crash may leave
    /// any bytes there.
    ///
    /// `VaultFailed` leaves any bytes in the area, and is counted in `faults`.
    fn write_area(&mut self, area: Area, text: &[u8]) -> Result<(), VaultFailed>
        requires { length text.now ≤ area_room }
        ensures ok { OnOk result ((account self.new).areas
            ≡ written area text.now (account self.old).areas) }
        ensures err { OnErr result (MayBeTorn area
            (account self.old).areas (account self.new).areas) }
        ensures crash { Follows (IsTorn area) (account self.old) (account self.new) }
        ensures time { Elapses (account self.old) (account self.new) }
        ensures failed { CountsRefusals result
            (account self.old).faults (account self.new).faults };

    /// After it a crash leaves what a read gives. It changes nothing of that, also where it fails.
    ///
    /// `VaultFailed` is counted in `faults`.
    fn sync(&mut self) -> Result<(), VaultFailed>
        ensures kept { (account self.new).areas ≡ (account self.old).areas }
        ensures durable { OnOk result (LeavesWhatIsRead
            (account self.old).areas (account self.new).may_leave) }
        ensures crash { LeavesNoMore (account self.old) (account self.new) }
        ensures time { Elapses (account self.old) (account self.new) }
        ensures failed { CountsRefusals result
            (account self.old).faults (account self.new).faults };

    /// A crash may leave what a read gives.
    ghost reads: { (vault : Self) (a : Areas) →
        (account vault).areas ≡ Some a → (account vault).may_leave a };

    /// This moment is one of those since an earlier one.
    ghost counts_now: { (vault : Self) (t : ℕ) (c : Areas) →
        t ≤ (account vault).moment → (account vault).may_leave c → (account vault).left_since t c };

    /// Since this moment there is no other.
    ghost only_now: { (vault : Self) (c : Areas) →
        (account vault).left_since (account vault).moment c → (account vault).may_leave c };
}
