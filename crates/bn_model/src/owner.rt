use arrayvec::ArrayVec;
use bn_types::{Decl, ModId};

/// A live module, and the pages that it declares by ascending virtual page.
#[derive(Debug, Default, Drop)]
pub struct Owner {
    pub id: ModId,
    pub decls: ArrayVec<Decl, 64>,
}
