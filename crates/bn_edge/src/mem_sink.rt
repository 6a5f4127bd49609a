ghost use Rattle.std.specs.Prelude.{◌≡◌, ℕ, ◌+◌, ◌-◌, ◌^◌, ◌<◌, ◌≤◌, ◌↔◌, ◌⊎◌, [], Some, IfOk};
ghost use Rattle.std.specs.Prelude.{IsErr, OnErr, IsTrue, min, length, take, Contains};
ghost use Rattle.std.specs.Prelude.{vec_capacity};
ghost use Rattle.bn_edge.specs.Counts.{CanCount, CountsRefusals};
ghost use Rattle.bn_edge.specs.InMemory.{SinkContents, SinkRefuses};
ghost use Rattle.bn_edge.specs.Written.{appended};

use crate::counted::counted;
use crate::{Sink, SinkFailed};
use bn_types::NoMemory;
use std::alloc::Global;
use std::marker::Model;

/// A sink in memory with room for so many bytes. It tells what was written.
#[derive(Debug, Drop)]
pub struct MemSink {
    bytes: Vec<u8>,
    room: usize,
    fails: Vec<u64>,
    calls: u64,
    faults: u64,
}

impl Model for MemSink {
    ghost Value = { SinkContents };

    ghost view = { λ s. record {
      bytes = s.bytes.items;
      room = s.room;
      fails = s.fails.items;
      calls = s.calls;
      faults = s.faults;
    } };

    ghost invariant = { λ s. (length s.bytes.items ≤ s.room) × (s.room ≤ vec_capacity s.bytes) };
}

impl MemSink {
    /// An empty sink. The calls whose numbers, counted from 1, stand in `fails` fail.
    pub fn of(alloc: Global, room: usize, fails: Vec<u64>) -> Result<MemSink, NoMemory>
        ensures { IfOk result (λ sink. sink ≡
            record { bytes = []; room = room; fails = fails.items; calls = 0; faults = 0 }) }
    {
        match Vec::with_capacity(alloc, room) {
            Ok(bytes) => Ok(MemSink {
                bytes,
                room,
                fails,
                calls: 0,
                faults: 0,
            }),
            Err(_) => Err(NoMemory),
        }
    }

    /// What was written.
    pub fn bytes(&self) -> &[u8]
        ensures { result.now ≡ self.now.bytes }
    {
        self.bytes.as_slice()
    }
}

fn is_refused(bytes: &[u8], room: usize, fails: &[u64], call: u64) -> bool
    ensures { IsTrue result ↔ (Contains fails.now call ⊎ (length bytes.now ≡ room)) }
{
    fails.contains(&call) || bytes.len() == room
}

impl Sink for MemSink {
    ghost account = { λ s. record { written = Some s.bytes; faults = s.faults } };

    fn write(&mut self, piece: &[u8]) -> Result<usize, SinkFailed>
        requires { 0 < length piece.now }
        ensures some { IfOk result (λ count. 0 < count) }
        ensures within { IfOk result (λ count. count ≤ length piece.now) }
        ensures ok { IfOk result (λ count.
            Some self.new.bytes ≡ appended (Some self.old.bytes) (take count piece.now)) }
        ensures err { OnErr result (Some self.new.bytes ≡ Some self.old.bytes) }
        ensures failed { CountsRefusals result self.old.faults self.new.faults }
        // It fails exactly at the listed calls and where its room is full, and else takes what
        // fits.
        ensures refused { CanCount self.old.calls → (IsErr result ↔ SinkRefuses self.old) }
        ensures takes { IfOk result (λ count.
            count ≡ min (length piece.now) (self.old.room - length self.old.bytes)) }
        ensures counted { CanCount self.old.calls → self.new.calls ≡ self.old.calls + 1 }
        ensures once { CanCount self.old.faults → self.new.faults ≤ self.old.faults + 1 }
        ensures kept { (self.new.room ≡ self.old.room) × (self.new.fails ≡ self.old.fails) }
    {
        self.calls = counted(self.calls);
        if is_refused(&self.bytes, self.room, &self.fails, self.calls) {
            self.faults = counted(self.faults);
            return Err(SinkFailed);
        }
        let count = piece.len().min(self.room - self.bytes.len());
        match self.bytes.extend_from_slice(&piece[..count]) {
            Ok(()) => Ok(count),
            Err(_) => unreachable!(),
        }
    }
}
