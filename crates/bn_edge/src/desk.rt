ghost use Rattle.std.specs.Prelude.{◌≡◌, ◌≤◌, IfOk, vec_len};
ghost use Rattle.bn_edge.specs.Accounts.{DeskAccount};
ghost use Rattle.bn_edge.specs.Counts.{CountsMisses, CountsFaults};
ghost use Rattle.bn_edge.specs.Files.{Agrees};

use crate::DeskFault;
use std::alloc::Global;

/// Files that are read by name. Whether a desk tells its files never changes.
pub trait Desk {
    /// Its files, where it tells them, its misses and its faults.
    ghost account: { Self → DeskAccount };

    /// The first `most` bytes of the file, or all where it is shorter.
    ///
    /// `Missing` comes exactly where no file has the name and the call didn't fail, and is counted
    /// in `misses`; `Failed` is counted in `faults`; `Memory` is free.
    fn read_front(&mut self, alloc: Global, name: &str, most: usize) -> Result<Vec<u8>, DeskFault>
        ensures short { IfOk result (λ bytes. vec_len bytes ≤ most) }
        ensures agrees { Agrees (account self.old).files name.now most result }
        ensures kept { (account self.new).files ≡ (account self.old).files }
        ensures missed { CountsMisses result (account self.old).misses (account self.new).misses }
        ensures failed { CountsFaults result (account self.old).faults (account self.new).faults };
}
