//! The kinds of lines that an event gives, and their first words.
ghost use Rattle.std.specs.Prelude.{◌≡◌};
ghost use Rattle.bn_model.specs.LineShapes.{word_of};

use bn_model::Head;

/// In the order of the summary.
pub const KINDS: [Head; 18] = [
    Head::Out,
    Head::Deny,
    Head::Stop,
    Head::Trap,
    Head::Launch,
    Head::Call,
    Head::Ret,
    Head::Resume,
    Head::Evict,
    Head::Sset,
    Head::Refuse,
    Head::Start,
    Head::Key,
    Head::Nokey,
    Head::Poke,
    Head::Nopoke,
    Head::Peek,
    Head::Nopeek,
];

/// The first word of a line of this kind.
pub fn word_of_kind(kind: Head) -> &'static [u8]
    ensures { result.now ≡ word_of kind }
{
    match kind {
        Head::Out => b"out",
        Head::Deny => b"deny",
        Head::Stop => b"stop",
        Head::Trap => b"trap",
        Head::Launch => b"launch",
        Head::Call => b"call",
        Head::Ret => b"ret",
        Head::Resume => b"resume",
        Head::Evict => b"evict",
        Head::Sset => b"sset",
        Head::Refuse => b"refuse",
        Head::Start => b"start",
        Head::Key => b"key",
        Head::Nokey => b"nokey",
        Head::Poke => b"poke",
        Head::Nopoke => b"nopoke",
        Head::Peek => b"peek",
        Head::Nopeek => b"nopeek",
        Head::End => b"end",
    }
}
