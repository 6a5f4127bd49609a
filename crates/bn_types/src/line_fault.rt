/// A text doesn't begin with a line of the trace.
#[derive(Clone, Copy, Debug, PartialEq, Eq)]
pub struct LineFault {
    /// Where the first wrong or surplus field begins; where a field is missing, the place of the
    /// line feed; where there is no line feed, the length of the text.
    pub at: usize,
}
