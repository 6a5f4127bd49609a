/// What a branch compares (Unprivileged ISA, "Conditional Branches"). `Lt` and `Ge` are signed.
#[derive(Clone, Copy, Debug, PartialEq, Eq)]
pub enum Test {
    Eq,
    Ne,
    Lt,
    Ge,
    Ltu,
    Geu,
}
