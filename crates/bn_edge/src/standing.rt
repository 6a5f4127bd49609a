use crate::span::Span;

/// How the two areas of a vault in memory stand at a moment.
#[derive(Clone, Copy, Debug, PartialEq, Eq)]
pub struct Standing {
    pub first: Span,
    pub second: Span,
}
