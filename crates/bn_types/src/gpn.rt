/// The number of a guest page, from 0 for the page at guest physical address 0x80000000.
#[derive(Clone, Copy, Debug, Default, PartialEq, Eq)]
pub struct Gpn(pub u32);
