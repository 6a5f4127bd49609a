use arrayvec::ArrayVec;
use bn_types::Gpn;

/// Where a walk leads.
#[derive(Debug, Drop)]
pub struct Leaf {
    /// The physical page number, below 2^44, or below 2^52 in Bare.
    pub ppn: u64,
    /// Bits 7:0 of the leaf entry: V, R, W, X, U, G, A, D from bit 0 on. 0 in Bare.
    pub flags: u8,
    /// The address was taken as it is, and everything is permitted.
    pub bare: bool,
    /// The pages whose entries were read, root first.
    pub tables: ArrayVec<Gpn, 3>,
}
