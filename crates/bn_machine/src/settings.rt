/// The size of a machine.
#[derive(Clone, Copy, Debug, PartialEq, Eq)]
pub struct Settings {
    /// Guest pages of RAM, from 1 to 4,096.
    pub ram_pages: u32,
    /// From 1 to 4.
    pub harts: u8,
}
