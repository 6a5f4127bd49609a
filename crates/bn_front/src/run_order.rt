use bn_types::ModId;

/// A run of an image.
#[derive(Debug, Drop)]
pub struct RunOrder {
    /// The name of the image's file, which isn't empty.
    pub image: String,
    /// Guest pages of RAM, from 16 to 4,096.
    pub ram_pages: u32,
    /// Harts, from 1 to 4.
    pub harts: u8,
    /// The most events, from 0 to 1,000,000,000.
    pub steps: u64,
    /// The name of the script's file, which isn't empty. None where the harts take turns.
    pub script: Option<String>,
    /// Whether the run opens the store, and commits it at the end.
    pub store: bool,
    /// The module that is blinded, from 1, and the event before which it is, from 0 to
    /// 1,000,000,000.
    pub blind: Option<(ModId, u64)>,
    /// After how many events a page is moved to another frame, or 0 where none is. Always 0 yet.
    pub moves: u64,
}
