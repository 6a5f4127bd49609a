use crate::Desk;
use std::alloc::Global;

mod host;
mod memory;
mod storage;
mod words;

/// A read of at most so many bytes of a file gives these.
fn gives<D: Desk>(desk: &mut D, alloc: Global, name: &str, most: usize, want: &[u8]) -> bool {
    match desk.read_front(alloc, name, most) {
        Ok(bytes) => bytes.as_slice() == want,
        Err(_) => false,
    }
}
