//! The words that modules keep beyond their lives (this project's own rules).
ghost use Rattle.std.specs.Prelude.{◌≡◌, ◌-◌, ◌^◌, ◌<◌, [], OnErr, OnOk, length};
ghost use Rattle.std.specs.Option.{option_copied, option_map};
ghost use Rattle.bn_types.specs.declared.digest.Digest.{Digest};
ghost use Rattle.bn_types.specs.declared.set_refused.SetRefused.{SetRefused};
ghost use Rattle.bn_model.specs.Deciding.{decision_of_set, identity_if_some, identity_of};
ghost use Rattle.bn_model.specs.Deciding.{set_code};
ghost use Rattle.bn_model.specs.Decision as turn;
ghost use Rattle.bn_model.specs.Records.{get_word, set_refusal, set_word};
ghost use Rattle.bn_model.specs.Refusals.{minus};
ghost use Rattle.bn_model.specs.Rows.{enclave_of, enclaves};
ghost use Rattle.bn_model.specs.State.{hart_at};
ghost use Rattle.bn_machine.specs.Making.{IsMade, after_set, state_after, text_after};
ghost use Rattle.bn_store.specs.Answers.{refusal_of};

use crate::LineBuf;
use crate::engine::Engine;
use bn_types::{Digest, Line, Reg, Request, Row, SetRefused};

impl Engine {
    /// A word that the module which hart h runs has stored, 0 where it has none of this index.
    pub(super) fn stored_word(&self, h: u8, index: u64) -> u64
        requires { h < length self.now.state.harts }
        ensures { let s = self.now.state in result
            ≡ get_word s.records (identity_of (enclaves s.rows) (hart_at s h).current.0) index }
    {
        self.store.get(&self.identity(h), index)
    }

    /// Stores a word of the module that hart h runs, and sets rd to 0, or to the code of the
    /// refusal.
    #[inline(never)]
    pub(super) fn set_stored_word(
        &mut self,
        h: u8,
        rd: Reg,
        index: u64,
        value: u64,
        lines: &mut LineBuf,
    )
        requires hart { h < length self.old.state.harts }
        requires clock { self.old.state.clock < 2 ^ 64 - 1 }
        requires register { rd.0 < 32 }
        requires empty { lines.old ≡ [] }
        ensures made { let s = self.old.state in
            let who = identity_of (enclaves s.rows) (hart_at s h).current.0 in
            IsMade s self.new.state lines.new h
            (decision_of_set rd s.records who index value (set_refusal s.records who index)) }
    {
        let who = self.identity(h);
        match self.store_word(&who, index, value) {
            Ok(()) => self.finish_set(h, rd, index as u8, lines),
            Err(refusal) => self.refuse(h, rd, Request::Sset, code_of(refusal), lines),
        }
    }

    /// Stores a word of an identity.
    #[tactic(auto, using(crate::proofs::Storing::index_within))]
    fn store_word(&mut self, who: &Digest, index: u64, value: u64) -> Result<(), SetRefused>
        ensures refused { refusal_of result
            ≡ set_refusal self.old.state.records who.now index }
        ensures set { OnOk result (self.new.state
            ≡ after_set self.old.state who.now index value) }
        ensures within { OnOk result (index < 32) }
        ensures same { OnErr result (self.new.state ≡ self.old.state) }
    {
        self.store.set(who, index, value)
    }

    /// Tells of a word that was stored, and sets rd to 0.
    fn finish_set(&mut self, h: u8, rd: Reg, index: u8, lines: &mut LineBuf)
        requires hart { h < length self.old.state.harts }
        requires clock { self.old.state.clock < 2 ^ 64 - 1 }
        requires register { rd.0 < 32 }
        requires empty { lines.old ≡ [] }
        ensures stepped { let s = self.old.state in self.new.state
            ≡ state_after s h (turn.SetWord rd index s.records) }
        ensures told { let s = self.old.state in lines.new
            ≡ text_after s h (turn.SetWord rd index s.records) }
    {
        lines.push(&Line::Sset {
            n: self.clock,
            h,
            m: self.current(h),
            k: index,
        });
        self.harts[h as usize].go_on_with(rd, 0);
        self.clock += 1;
    }

    /// The identity of the module that hart h runs.
    #[tactic(auto, using(crate::proofs::Identities::identity_of_row))]
    fn identity(&self, h: u8) -> Digest
        requires { h < length self.now.state.harts }
        ensures { let s = self.now.state in result
            ≡ identity_of (enclaves s.rows) (hart_at s h).current.0 }
    {
        digest_of(self.table.row(self.current(h)))
    }
}

/// The identity of a module, zeros where there is none.
fn digest_of(row: Option<&Row>) -> Digest
    ensures { result ≡ identity_if_some (option_map enclave_of (option_copied row.entry)) }
{
    match row {
        Some(row) => row.judged.digest,
        None => Digest([0; 32]),
    }
}

/// The code of a refusal, which the guest gets in 64 bits.
fn code_of(refusal: SetRefused) -> i64
    ensures { result ≡ minus (set_code refusal) }
{
    match refusal {
        SetRefused::BadIndex => -1,
        SetRefused::Full => -2,
    }
}
