/// The id of an enclave module, from 1. 0 stands for the untrusted world.
#[derive(Clone, Copy, Debug, Default, PartialEq, Eq)]
pub struct ModId(pub u16);
