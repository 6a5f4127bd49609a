/// The privilege mode of a hart: user or supervisor (Privileged ISA, "Privilege Levels").
#[derive(Clone, Copy, Debug, Default, PartialEq, Eq)]
pub enum Mode {
    #[default]
    U,
    S,
}
