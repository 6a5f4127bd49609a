ghost use Rattle.std.specs.Prelude.{◌≡◌, ℕ, ◌+◌, ◌*◌, ◌-◌, ◌^◌, ◌<◌, ◌≤◌, ◌↔◌, ◌⊎◌, true, false};
ghost use Rattle.std.specs.Prelude.{[], ◌∷◌, ◌++◌, List, Some, Err, IfOk, IsErr, OnOk, OnErr};
ghost use Rattle.std.specs.Prelude.{IsTrue, Contains, length, vec_len, vec_capacity};
ghost use Rattle.bn_edge.specs.Areas.{Areas, area_room, area_at, GivesArea, written, IsTorn};
ghost use Rattle.bn_edge.specs.Areas.{MayBeTorn};
ghost use Rattle.bn_edge.specs.Counts.{CanCount, CountsRefusals, CountsAreaFaults};
ghost use Rattle.bn_edge.specs.Crashes.{Elapses, Follows, LeavesNoMore, LeavesTheSame};
ghost use Rattle.bn_edge.specs.Crashes.{LeavesWhatIsRead};
ghost use Rattle.bn_edge.specs.Standings.{VaultContents, account_of, areas_at, text_at, span_of};
ghost use Rattle.bn_edge.specs.Standings.{with_span, synced, is_loose, Leaves, LeftSince};
ghost use Rattle.bn_edge.specs.Standings.{reads_now, only_this, IsKept};
ghost use Rattle.std.proofs.Common.{inl};

use crate::counted::counted;
use crate::listed::is_listed;
use crate::span::Span;
use crate::standing::Standing;
use crate::{Area, AreaFault, Vault, VaultFailed};
use bn_types::NoMemory;
use std::alloc::Global;
use std::marker::Model;

const MOST_WRITES: usize = 64;

// two texts at first, and one for each write
const TEXTS_ROOM: usize = (2 + MOST_WRITES) * 65_536;

// each write and each sync after one
const MOMENTS_ROOM: usize = 2 * MOST_WRITES;

/// A vault in memory. It tells its areas, and exactly what a crash may leave.
#[derive(Debug, Drop)]
pub struct MemVault {
    texts: Vec<u8>,
    past: Vec<Standing>,
    now: Standing,
    writes: usize,
    fails: Vec<u64>,
    calls: u64,
    faults: u64,
}

impl Model for MemVault {
    ghost Value = { VaultContents };

    ghost view = { λ v. record {
      texts = v.texts.items;
      past = v.past.items;
      now = v.now;
      writes = v.writes;
      fails = v.fails.items;
      calls = v.calls;
      faults = v.faults;
    } };

    ghost invariant = { λ v. IsKept v.texts.items v.past.items v.now v.writes
        (vec_capacity v.texts) (vec_capacity v.past) };
}

impl MemVault {
    /// A vault with these areas, of at most 65,536 bytes each, and with room for 64 writes. A crash
    /// leaves the areas as they are given. The calls whose numbers, counted from 1, stand in
    /// `fails` fail.
    pub fn of(
        alloc: Global,
        first: &[u8],
        second: &[u8],
        fails: Vec<u64>,
    ) -> Result<MemVault, NoMemory>
        requires first { length first.now ≤ area_room }
        requires second { length second.now ≤ area_room }
        ensures areas { IfOk result (λ vault.
            areas_at vault.texts vault.now ≡ record { first = first.now; second = second.now }) }
        ensures stable { IfOk result (λ vault. is_loose vault.now ≡ false) }
        ensures moment { IfOk result (λ vault. vault.past ≡ []) }
        ensures counts { IfOk result (λ vault.
            (vault.writes ≡ 0) × (vault.calls ≡ 0) × (vault.faults ≡ 0)) }
        ensures fails { IfOk result (λ vault. vault.fails ≡ fails.items) }
    {
        let Ok(past) = Vec::with_capacity(alloc, MOMENTS_ROOM) else {
            return Err(NoMemory);
        };
        let texts = texts_of(alloc, first, second)?;
        let now = Standing {
            first: Span {
                at: 0,
                len: first.len(),
                loose: false,
            },
            second: Span {
                at: first.len(),
                len: second.len(),
                loose: false,
            },
        };
        Ok(MemVault {
            texts,
            past,
            now,
            writes: 0,
            fails,
            calls: 0,
            faults: 0,
        })
    }
}

fn texts_of(alloc: Global, first: &[u8], second: &[u8]) -> Result<Vec<u8>, NoMemory>
    requires { length first.now + length second.now ≤ 131072 }
    ensures { IfOk result (λ texts.
        (texts.items ≡ first.now ++ second.now) × (4325376 ≤ vec_capacity texts)) }
{
    let Ok(mut texts) = Vec::with_capacity(alloc, TEXTS_ROOM) else {
        return Err(NoMemory);
    };
    if texts.extend_from_slice(first).is_err() {
        return Err(NoMemory);
    }
    if texts.extend_from_slice(second).is_err() {
        return Err(NoMemory);
    }
    Ok(texts)
}

fn span_in(standing: Standing, area: Area) -> Span
    ensures { result ≡ span_of area standing }
{
    match area {
        Area::First => standing.first,
        Area::Second => standing.second,
    }
}

fn with_area_at(standing: Standing, area: Area, at: usize, len: usize) -> Standing
    ensures { result ≡ with_span area (record { at = at; len = len; loose = true }) standing }
{
    let span = Span {
        at,
        len,
        loose: true,
    };
    match area {
        Area::First => Standing {
            first: span,
            second: standing.second,
        },
        Area::Second => Standing {
            first: standing.first,
            second: span,
        },
    }
}

fn on_disk(standing: Standing) -> Standing
    ensures { result ≡ synced standing }
{
    Standing {
        first: Span {
            loose: false,
            ..standing.first
        },
        second: Span {
            loose: false,
            ..standing.second
        },
    }
}

fn has_loose(standing: Standing) -> bool
    ensures { result ≡ is_loose standing }
{
    standing.first.loose || standing.second.loose
}

fn is_refused(fails: &[u64], call: u64, writes: usize) -> bool
    ensures { IsTrue result ↔ (Contains fails.now call ⊎ (64 ≤ writes)) }
{
    is_listed(fails, call) || writes >= MOST_WRITES
}

fn copy_text(alloc: Global, texts: &[u8], span: Span) -> Result<Vec<u8>, AreaFault>
    requires { span.at + span.len ≤ length texts.now }
    ensures ok { IfOk result (λ bytes. bytes.items ≡ text_at texts.now span) }
    ensures err { OnErr result (result ≡ Err AreaFault.Memory) }
{
    match Vec::from_slice(alloc, &texts[span.at..span.at + span.len]) {
        Ok(bytes) => Ok(bytes),
        Err(_) => Err(AreaFault::Memory),
    }
}

impl Vault for MemVault {
    ghost account = { account_of };

    ghost reads = { λ v a told. reads_now v.texts v.now a told };

    ghost counts_now = { λ v t c le now. inl now };

    ghost only_now = { λ v c left. only_this v.texts v.past v.now c left };

    fn read_area(&mut self, alloc: Global, area: Area) -> Result<Vec<u8>, AreaFault>
        ensures short { IfOk result (λ bytes. vec_len bytes ≤ area_room) }
        ensures gives { IfOk result (λ bytes.
            GivesArea (account_of self.old).areas area bytes.items) }
        ensures kept { (account_of self.new).areas ≡ (account_of self.old).areas }
        ensures crash { LeavesTheSame (account_of self.old) (account_of self.new) }
        ensures time { Elapses (account_of self.old) (account_of self.new) }
        ensures failed { CountsAreaFaults result self.old.faults self.new.faults }
        // It fails exactly at the listed calls, and changes nothing but its counts.
        ensures listed { CanCount self.old.calls →
            ((result ≡ Err AreaFault.Failed) ↔ Contains self.old.fails (self.old.calls + 1)) }
        ensures counted { CanCount self.old.calls → self.new.calls ≡ self.old.calls + 1 }
        ensures once { CanCount self.old.faults → self.new.faults ≤ self.old.faults + 1 }
        ensures same { (self.new.texts ≡ self.old.texts) × (self.new.now ≡ self.old.now)
            × (self.new.past ≡ self.old.past) × (self.new.writes ≡ self.old.writes) }
        ensures lasting { self.new.fails ≡ self.old.fails }
    {
        self.calls = counted(self.calls);
        if is_listed(&self.fails, self.calls) {
            self.faults = counted(self.faults);
            return Err(AreaFault::Failed);
        }
        copy_text(alloc, &self.texts, span_in(self.now, area))
    }

    fn write_area(&mut self, area: Area, text: &[u8]) -> Result<(), VaultFailed>
        requires { length text.now ≤ area_room }
        ensures ok { OnOk result ((account_of self.new).areas
            ≡ written area text.now (account_of self.old).areas) }
        ensures err { OnErr result (MayBeTorn area
            (account_of self.old).areas (account_of self.new).areas) }
        ensures crash { Follows (IsTorn area) (account_of self.old) (account_of self.new) }
        ensures time { Elapses (account_of self.old) (account_of self.new) }
        ensures failed { CountsRefusals result self.old.faults self.new.faults }
        // It fails exactly at the listed calls and once 64 writes succeeded, and then writes
        // nothing.
        ensures refused { CanCount self.old.calls → (IsErr result ↔
            (Contains self.old.fails (self.old.calls + 1) ⊎ (64 ≤ self.old.writes))) }
        ensures stays { OnErr result ((self.new.texts ≡ self.old.texts)
            × (self.new.now ≡ self.old.now) × (self.new.past ≡ self.old.past)
            × (self.new.writes ≡ self.old.writes)) }
        // From then on a crash may leave any bytes in the area.
        ensures loose { OnOk result ((span_of area self.new.now).loose ≡ true) }
        ensures more { OnOk result (self.new.writes ≡ self.old.writes + 1) }
        ensures counted { CanCount self.old.calls → self.new.calls ≡ self.old.calls + 1 }
        ensures once { CanCount self.old.faults → self.new.faults ≤ self.old.faults + 1 }
        ensures lasting { self.new.fails ≡ self.old.fails }
    {
        self.calls = counted(self.calls);
        if is_refused(&self.fails, self.calls, self.writes) {
            self.faults = counted(self.faults);
            return Err(VaultFailed);
        }
        let at = self.texts.len();
        match self.texts.extend_from_slice(text) {
            Ok(()) => {}
            Err(_) => unreachable!(),
        }
        match self.past.push(self.now) {
            Ok(()) => {}
            Err(_) => unreachable!(),
        }
        self.now = with_area_at(self.now, area, at, text.len());
        self.writes += 1;
        Ok(())
    }

    fn sync(&mut self) -> Result<(), VaultFailed>
        ensures kept { (account_of self.new).areas ≡ (account_of self.old).areas }
        ensures durable { OnOk result (LeavesWhatIsRead
            (account_of self.old).areas (account_of self.new).may_leave) }
        ensures crash { LeavesNoMore (account_of self.old) (account_of self.new) }
        ensures time { Elapses (account_of self.old) (account_of self.new) }
        ensures failed { CountsRefusals result self.old.faults self.new.faults }
        // It fails exactly at the listed calls, and then a crash leaves what it left before.
        ensures listed { CanCount self.old.calls →
            (IsErr result ↔ Contains self.old.fails (self.old.calls + 1)) }
        ensures stays { OnErr result ((self.new.texts ≡ self.old.texts)
            × (self.new.now ≡ self.old.now) × (self.new.past ≡ self.old.past)) }
        ensures counted { CanCount self.old.calls → self.new.calls ≡ self.old.calls + 1 }
        ensures once { CanCount self.old.faults → self.new.faults ≤ self.old.faults + 1 }
        ensures lasting { (self.new.fails ≡ self.old.fails) × (self.new.writes ≡ self.old.writes) }
    {
        self.calls = counted(self.calls);
        if is_listed(&self.fails, self.calls) {
            self.faults = counted(self.faults);
            return Err(VaultFailed);
        }
        if has_loose(self.now) {
            match self.past.push(self.now) {
                Ok(()) => {}
                Err(_) => unreachable!(),
            }
            self.now = on_disk(self.now);
        }
        Ok(())
    }
}
