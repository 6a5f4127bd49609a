/// The width of a load or store: 1, 2, 4 or 8 bytes.
#[derive(Clone, Copy, Debug, Default, PartialEq, Eq)]
pub enum Width {
    #[default]
    B1,
    B2,
    B4,
    B8,
}
