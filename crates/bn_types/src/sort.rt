/// How a module declares a page.
#[derive(Clone, Copy, Debug, Default, PartialEq, Eq)]
pub enum Sort {
    /// The module's alone.
    #[default]
    Private,
    /// Shared with the partners that the declaration's mask names.
    Offer,
    /// Another live module's offered page.
    Accept,
}
