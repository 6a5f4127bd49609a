ghost use Rattle.std.specs.Prelude.{◌≡◌, ℕ, ◌+◌, ◌<◌, ◌++◌, [], ◌∷◌, IfOk, Some, length};
ghost use Rattle.std.specs.List.{list_any};
ghost use Rattle.std.specs.Option.{option_copied};
ghost use Rattle.bn_types.specs.declared.reg.Reg.{Reg};
ghost use Rattle.bn_types.specs.declared.row_state.RowState.TheVariants.{Idle, Stopped};
ghost use Rattle.bn_model.specs.Blanking.{blank_row};
ghost use Rattle.bn_model.specs.Deciding.{decision_of_evict};
ghost use Rattle.bn_model.specs.Evicting.{evicted_rows};
ghost use Rattle.bn_model.specs.Launching.{has_identity, offerer};
ghost use Rattle.bn_model.specs.Rows.{back_of, enclaves, new_row, row_of, saved_of, with_row};
ghost use Rattle.bn_model.specs.Soundness.{caller_at, caller_if_some, state_at};
ghost use Rattle.bn_model.specs.Switching.{id_of_row, row_after_answer, row_after_call};
ghost use Rattle.bn_model.specs.Switching.{row_after_resume, row_after_return, row_after_stop};
ghost use Rattle.bn_model.specs.Switching.{row_after_wait, stopped_at};
ghost use Rattle.bn_table.specs.Evictions.{decision_of_answer, rows_after};
ghost use Rattle.bn_table.specs.Tables.{IsAnswered, IsRunning, IsTable, MayCall, with_change};

use crate::change::{Change, change_row};
use crate::eviction::{refusal_of, take_chain};
use crate::offers::offering_in;
use crate::search::{is_known, row_in, stopped_in};
use crate::{EvictRefused, Left, Seat};
use arrayvec::ArrayVec;
use bn_types::{Digest, Gpn, Judged, ModId, Mode, Rights, Row, RowState, SavedFrame, Vpn};
use std::marker::Model;

/// The live modules, at most 15, in the order of their ids, which strictly ascend from 1 on and are
/// below the next id. An idle module has no caller, and a module's caller is live and waits for it.
#[derive(Drop)]
pub struct Table {
    rows: ArrayVec<Row, 15>,
    next: u32,
}

impl Model for Table {
    ghost use Rattle.bn_table.specs.Tables.{IsTable, Tabled};

    ghost Value = { Tabled };

    ghost view = { λ t. record { rows = t.rows.items; next = t.next } };

    ghost invariant = { λ t. IsTable (record { rows = t.rows.items; next = t.next }) };
}

impl Table {
    /// What holds of every table. It does nothing.
    pub fn facts(&self)
        ensures { IsTable self.now }
    {
        // For the prover: reading a field tells what the invariant says of it.
        let _next = self.next;
    }

    /// No modules. The first id is 1.
    pub fn empty() -> Table
        ensures { result ≡ record { rows = []; next = 1 } }
    {
        Table {
            rows: ArrayVec::new(),
            next: 1,
        }
    }

    /// The row of a live module.
    pub fn row(&self, id: ModId) -> Option<&Row>
        ensures { option_copied result ≡ row_of self.now.rows id.0 }
    {
        row_in(&self.rows, id)
    }

    /// How many modules are live, at most 15.
    pub fn live(&self) -> usize
        ensures { result ≡ length self.now.rows }
    {
        self.rows.len()
    }

    /// The id of the next module, from 1 to 65,536. The last that a module can have is 65,535.
    pub fn next_id(&self) -> u32
        ensures { result ≡ self.now.next }
    {
        self.next
    }

    /// The live module that offers a page to an identity with rights that include these.
    #[tactic(auto, using(crate::proofs::SearchLemmas::offerer_rows))]
    pub fn offer(&self, page: Gpn, partner: &Digest, rights: Rights) -> Option<ModId>
        ensures { result ≡ offerer (enclaves self.now.rows) partner.now page.0 rights }
    {
        id_of(offering_in(&self.rows, partner, page, rights))
    }

    /// Whether a live module has the identity.
    #[tactic(auto, using(crate::proofs::SearchLemmas::known_rows))]
    pub fn has_identity(&self, digest: &Digest) -> bool
        ensures { result ≡ list_any (has_identity digest.now) (enclaves self.now.rows) }
    {
        is_known(&self.rows, digest)
    }

    /// Enters a launched module, idle and behind all others, and tells its id.
    pub fn add(&mut self, judged: Judged) -> ModId
        requires room { length self.old.rows < 15 }
        requires ids { self.old.next < 65536 }
        ensures id { result.0 ≡ self.old.next }
        ensures rows { self.new.rows ≡ self.old.rows ++ new_row self.old.next judged ∷ [] }
        ensures next { self.new.next ≡ self.old.next + 1 }
    {
        let id = ModId(self.next as u16);
        self.rows.push(Row {
            id,
            judged,
            state: RowState::Idle,
            saved: SavedFrame::zero(),
            caller: ModId(0),
            back: SavedFrame::zero(),
        });
        self.next += 1;
        id
    }

    /// An idle module runs on the hart. Its caller is 0, the untrusted world, which gets `back`
    /// when the module returns, or a module that waits for it.
    pub fn enter(&mut self, id: ModId, hart: u8, caller: ModId, back: SavedFrame) -> Seat
        requires idle { state_at self.old.rows id.0 ≡ Some Idle }
        requires caller { MayCall self.old.rows caller.0 id.0 }
        ensures seat { result ≡ id }
        ensures running { IsRunning (state_at self.new.rows result.0) }
        ensures table { self.new ≡ record self.old
            { rows = with_row id.0 (row_after_call hart caller back) self.old.rows } }
    {
        // For the prover: what holds of every table.
        self.facts();
        self.change(id, &Change::Call { hart, caller, back });
        Seat::of(id)
    }

    /// The module of the seat waits for a module that it calls. It gets the frame back.
    pub fn wait(&mut self, seat: Seat, frame: SavedFrame, callee: ModId)
        requires { IsRunning (state_at self.old.rows seat.0) }
        ensures { self.new ≡ record self.old
            { rows = with_row seat.0 (row_after_wait frame callee.0) self.old.rows } }
    {
        // For the prover: what holds of every table.
        self.facts();
        let id = seat.spend();
        self.change(id, &Change::Wait { frame, callee });
    }

    /// The module of the seat returns to its caller, and is idle.
    pub fn leave(&mut self, seat: Seat) -> Left
        requires { IsRunning (state_at self.old.rows seat.0) }
        ensures caller { result.caller.0 ≡ caller_at self.old.rows seat.0 }
        ensures back { result.back ≡ back_of (row_of self.old.rows seat.0) }
        ensures table { self.new ≡ record self.old
            { rows = with_row seat.0 row_after_return self.old.rows } }
    {
        // For the prover: what holds of every table.
        self.facts();
        let id = seat.spend();
        let left = left_by(row_in(&self.rows, id));
        self.change(id, &Change::Return);
        left
    }

    /// A module runs again on the hart whose callee has returned. It gets its frame back.
    pub fn come_back(&mut self, id: ModId, hart: u8) -> (Seat, SavedFrame)
        requires { IsAnswered self.old.rows (state_at self.old.rows id.0) }
        ensures seat { result.0 ≡ id }
        ensures frame { result.1 ≡ saved_of (row_of self.old.rows id.0) }
        ensures running { IsRunning (state_at self.new.rows result.0.0) }
        ensures table { self.new ≡ record self.old
            { rows = with_row id.0 (row_after_answer hart) self.old.rows } }
    {
        // For the prover: what holds of every table.
        self.facts();
        let frame = saved_by(row_in(&self.rows, id));
        self.change(id, &Change::Run { hart });
        (Seat::of(id), frame)
    }

    /// The module of the seat is stopped, and its frame is kept.
    pub fn stop(&mut self, seat: Seat, frame: SavedFrame)
        requires { IsRunning (state_at self.old.rows seat.0) }
        ensures { self.new ≡ record self.old
            { rows = with_row seat.0 (row_after_stop frame) self.old.rows } }
    {
        // For the prover: what holds of every table.
        self.facts();
        let id = seat.spend();
        self.change(id, &Change::Stop { frame });
    }

    /// A stopped module runs again on the hart, and gets its frame back.
    pub fn resume(&mut self, id: ModId, hart: u8) -> (Seat, SavedFrame)
        requires { state_at self.old.rows id.0 ≡ Some Stopped }
        ensures seat { result.0 ≡ id }
        ensures frame { result.1 ≡ saved_of (row_of self.old.rows id.0) }
        ensures running { IsRunning (state_at self.new.rows result.0.0) }
        ensures table { self.new ≡ record self.old
            { rows = with_row id.0 (row_after_resume hart) self.old.rows } }
    {
        // For the prover: what holds of every table.
        self.facts();
        let frame = saved_by(row_in(&self.rows, id));
        self.change(id, &Change::Run { hart });
        (Seat::of(id), frame)
    }

    /// The module that was stopped at the pc and in the mode, in its own code at this virtual page
    /// and on this page.
    #[tactic(auto, unfolding(bn_model::specs::Switching::stopped_at))]
    pub fn stopped_at(&self, page: Gpn, vpn: Vpn, pc: u64, mode: Mode) -> Option<ModId>
        ensures { result ≡ stopped_at self.now.rows page.0 vpn.0 pc mode }
    {
        id_of(stopped_in(&self.rows, page, vpn, pc, mode))
    }

    /// Zeroes the registers that a module has saved. Its saved pc and mode stay.
    pub fn blank(&mut self, id: ModId)
        ensures { self.new ≡ record self.old { rows = with_row id.0 blank_row self.old.rows } }
    {
        // For the prover: what holds of every table.
        self.facts();
        self.change(id, &Change::Blank);
    }

    /// Takes out the rows that go with a module: its own, that of the module which waits for it,
    /// and so on, in this order. Their ids aren't given again.
    ///
    /// The error is `NoModule` where no live module has the id, and `Busy` where the module runs or
    /// waits. Nothing changes then.
    pub fn evict(&mut self, id: ModId) -> Result<ArrayVec<Row, 15>, EvictRefused>
        ensures answer { (rd : Reg) (count : ℕ) → decision_of_evict rd id.0 count
            (row_of self.old.rows id.0) ≡ decision_of_answer rd id.0 count result }
        ensures gone { IfOk result (λ gone. gone.items ≡ evicted_rows self.old.rows id.0) }
        ensures table { self.new ≡ record self.old { rows = rows_after result self.old.rows } }
    {
        // For the prover: what holds of every table.
        self.facts();
        match refusal_of(row_in(&self.rows, id)) {
            Some(refusal) => Err(refusal),
            None => Ok(take_chain(&mut self.rows, id)),
        }
    }

    fn change(&mut self, id: ModId, change: &Change)
        requires { IsTable (with_change self.old id.0 change.now) }
        ensures { self.new ≡ with_change self.old id.0 change.now }
    {
        change_row(&mut self.rows, id, change);
    }
}

fn id_of(row: Option<&Row>) -> Option<ModId>
    ensures { result ≡ id_of_row (option_copied row.entry) }
{
    match row {
        Some(row) => Some(row.id),
        None => None,
    }
}

fn left_by(row: Option<&Row>) -> Left
    ensures caller { result.caller.0 ≡ caller_if_some (option_copied row.entry) }
    ensures back { result.back ≡ back_of (option_copied row.entry) }
{
    match row {
        Some(row) => Left {
            caller: row.caller,
            back: row.back,
        },
        None => Left {
            caller: ModId(0),
            back: SavedFrame::zero(),
        },
    }
}

fn saved_by(row: Option<&Row>) -> SavedFrame
    ensures { result ≡ saved_of (option_copied row.entry) }
{
    match row {
        Some(row) => row.saved,
        None => SavedFrame::zero(),
    }
}
