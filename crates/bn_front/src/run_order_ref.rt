use bn_types::ModId;

/// A run of an image, with the names of its files as they stand in the words. The fields are those
/// of `RunOrder`.
#[derive(Clone, Copy)]
pub struct RunOrderRef<'a> {
    pub image: &'a str,
    pub ram_pages: u32,
    pub harts: u8,
    pub steps: u64,
    pub script: Option<&'a str>,
    pub store: bool,
    pub blind: Option<(ModId, u64)>,
    pub moves: u64,
}
