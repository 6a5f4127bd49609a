ghost use Rattle.std.specs.Prelude.{◌≡◌, ℕ, ◌≤◌, List, Option, IfOk, length};
ghost use Rattle.bn_edge.specs.CommandLine.{IsWordOf};

use crate::WordFault;

/// The words of a command line, those after the program's name.
pub trait Words {
    /// The words, each as its bytes, where they are told.
    ghost words: { Self → Option (List (List ℕ)) };

    /// Copies a word to the start of the room, and says how many bytes it has. The first word is
    /// number 0.
    ///
    /// `Past` comes exactly where there are no more words than the number, and `Long` where the
    /// word doesn't fit.
    fn word(&self, number: usize, room: &mut [u8]) -> Result<usize, WordFault>
        ensures within { IfOk result (λ count. count ≤ length room.new) }
        ensures size { length room.new ≡ length room.old }
        ensures word { IsWordOf (words self.now) number result room.new };
}
