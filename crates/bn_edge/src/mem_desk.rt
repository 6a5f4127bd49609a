ghost use Rattle.std.specs.Prelude.{◌≡◌, ℕ, ◌+◌, ◌-◌, ◌^◌, ◌<◌, ◌≤◌, ◌↔◌, [], Some, Err, IfOk};
ghost use Rattle.std.specs.Prelude.{IsErr, OnErr, IsTrue, min, length, take, Contains, vec_len};
ghost use Rattle.std.specs.Prelude.{option_map, option_copied};
ghost use Rattle.bn_edge.specs.Counts.{CanCount, CountsMisses, CountsFaults};
ghost use Rattle.bn_edge.specs.Files.{Agrees, file_named};
ghost use Rattle.bn_edge.specs.InMemory.{DeskContents, named_bytes};

use crate::counted::counted;
use crate::listed::is_listed;
use crate::{Desk, DeskFault};
use std::alloc::Global;
use std::marker::Model;

/// A desk in memory. It tells its files.
#[derive(Debug, Drop)]
pub struct MemDesk {
    files: Vec<(String, Vec<u8>)>,
    fails: Vec<u64>,
    calls: u64,
    misses: u64,
    faults: u64,
}

impl Model for MemDesk {
    ghost Value = { DeskContents };

    ghost view = { λ d. record {
      files = named_bytes d.files.items;
      fails = d.fails.items;
      calls = d.calls;
      misses = d.misses;
      faults = d.faults;
    } };
}

impl MemDesk {
    /// A desk of these files. The calls whose numbers, counted from 1, stand in `fails` fail.
    pub fn of(files: Vec<(String, Vec<u8>)>, fails: Vec<u64>) -> MemDesk
        ensures { result ≡ record {
          files = named_bytes files.items;
          fails = fails.items;
          calls = 0;
          misses = 0;
          faults = 0;
        } }
    {
        MemDesk {
            files,
            fails,
            calls: 0,
            misses: 0,
            faults: 0,
        }
    }
}

#[tactic(auto, unfolding(crate::specs::Files::file_named))]
fn find_file<'a>(files: &'a [(String, Vec<u8>)], name: &str) -> Option<&'a [u8]>
    ensures { option_map (λ bytes. bytes.now) result ≡ file_named (named_bytes files.now) name.now }
{
    for (other, bytes) in files {
        if other.as_str() == name {
            return Some(bytes.as_slice());
        }
    }
    None
}

impl Desk for MemDesk {
    ghost account = { λ d. record {
      files = Some d.files;
      misses = d.misses;
      faults = d.faults;
    } };

    fn read_front(&mut self, alloc: Global, name: &str, most: usize) -> Result<Vec<u8>, DeskFault>
        ensures short { IfOk result (λ bytes. vec_len bytes ≤ most) }
        ensures agrees { Agrees (Some self.old.files) name.now most result }
        ensures kept { Some self.new.files ≡ Some self.old.files }
        ensures missed { CountsMisses result self.old.misses self.new.misses }
        ensures failed { CountsFaults result self.old.faults self.new.faults }
        // It fails exactly at the listed calls.
        ensures listed { CanCount self.old.calls →
            ((result ≡ Err DeskFault.Failed) ↔ Contains self.old.fails (self.old.calls + 1)) }
        ensures counted { CanCount self.old.calls → self.new.calls ≡ self.old.calls + 1 }
        ensures missed_once { CanCount self.old.misses → self.new.misses ≤ self.old.misses + 1 }
        ensures failed_once { CanCount self.old.faults → self.new.faults ≤ self.old.faults + 1 }
        ensures lasting { self.new.fails ≡ self.old.fails }
    {
        self.calls = counted(self.calls);
        if is_listed(&self.fails, self.calls) {
            self.faults = counted(self.faults);
            return Err(DeskFault::Failed);
        }
        match find_file(&self.files, name) {
            Some(bytes) => copy_front(alloc, bytes, most),
            None => {
                self.misses = counted(self.misses);
                Err(DeskFault::Missing)
            }
        }
    }
}

fn copy_front(alloc: Global, bytes: &[u8], most: usize) -> Result<Vec<u8>, DeskFault>
    ensures ok { IfOk result (λ front. front.items ≡ take most bytes.now) }
    ensures err { OnErr result (result ≡ Err DeskFault.Memory) }
{
    let count = most.min(bytes.len());
    match Vec::from_slice(alloc, &bytes[..count]) {
        Ok(front) => Ok(front),
        Err(_) => Err(DeskFault::Memory),
    }
}
