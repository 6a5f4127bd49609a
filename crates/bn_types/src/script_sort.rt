/// What is wrong with a script.
#[derive(Clone, Copy, Debug, PartialEq, Eq)]
pub enum ScriptSort {
    /// The first field of a line is no command.
    Word,
    /// A command has a wrong number of fields.
    Fields,
    /// A field isn't spelled as a number, or as a byte, where it is to be one.
    Number,
    /// A number is out of its range.
    Range,
    /// The text is too long.
    Long,
}
