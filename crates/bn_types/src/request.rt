/// A request of the guest that can be refused, as a trace line names it.
#[derive(Clone, Copy, Debug, PartialEq, Eq)]
pub enum Request {
    Launch,
    Call,
    Evict,
    Sset,
}
