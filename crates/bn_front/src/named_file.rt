/// A file that the words of a run name.
#[derive(Clone, Copy, Debug, PartialEq, Eq)]
pub enum NamedFile {
    /// The image's.
    Image,
    /// The script's.
    Script,
}
