//! The secure instructions, each where it is legal.
ghost use Rattle.std.specs.Prelude.{◌≡◌, ◌+◌, ◌*◌, ◌-◌, ◌^◌, ◌<◌, ◌≤◌, [], length, nat_lt};
ghost use Rattle.std.specs.Option.{option_copied};
ghost use Rattle.bn_types.specs.Numbers.{number_at};
ghost use Rattle.bn_types.specs.declared.width.Width.TheVariants.{B8};
ghost use Rattle.bn_model.specs.Deciding.{caller_of, decision_of_secure};
ghost use Rattle.bn_model.specs.Deciding.{enclave_at, identity_word, word_if};
ghost use Rattle.bn_model.specs.InsnRanges.{IsSecureInRange};
ghost use Rattle.bn_model.specs.Rows.{enclaves, row_of};
ghost use Rattle.bn_model.specs.Soundness.{IsSound};
ghost use Rattle.bn_model.specs.State.{hart_at, value_of};
ghost use Rattle.bn_machine.specs.Acts.{IsForKernel, IsForModules};
ghost use Rattle.bn_machine.specs.Making.{IsMade};

use crate::LineBuf;
use crate::engine::Engine;
use crate::engine::turning::ILLEGAL_INSTRUCTION;
use bn_table::Table;
use bn_types::{Digest, ModId, Reg, Row, Secure, Steps};
use std::sync::ledger::Ledger;

impl Engine {
    /// A secure instruction.
    #[inline(never)]
    pub(super) fn carry_out_secure<L: Ledger>(
        &mut self,
        h: u8,
        secure: &Secure,
        lines: &mut LineBuf,
        steps: &mut Steps<L>,
    )
        requires sound { IsSound self.old.state }
        requires hart { h < length self.old.state.harts }
        requires clock { self.old.state.clock < 2 ^ 64 - 1 }
        requires range { IsSecureInRange secure.now }
        requires empty { lines.old ≡ [] }
        ensures made { let s = self.old.state in IsMade self.old.state self.new.state
            lines.new h (decision_of_secure s (hart_at s h) secure.now) }
    {
        match secure {
            Secure::Call { rd, id, entry } => {
                let (id, entry) = (self.register(h, *id), self.register(h, *entry));
                self.call(h, *rd, id, entry, lines);
            }
            Secure::Ident { rd, id, word } => {
                let (id, word) = (self.register(h, *id), self.register(h, *word));
                let value = self.identity_word(id, word);
                self.set(h, *rd, value);
            }
            Secure::Launch { .. } | Secure::Evict { .. } => {
                self.carry_out_for_kernel(h, secure, lines, steps)
            }
            _ => self.carry_out_inside(h, secure, lines),
        }
    }

    /// What mode S of the untrusted world may ask for.
    #[tactic(auto, using(crate::proofs::Inside::kernel_inside, crate::proofs::Inside::kernel_outside))]
    fn carry_out_for_kernel<L: Ledger>(
        &mut self,
        h: u8,
        secure: &Secure,
        lines: &mut LineBuf,
        steps: &mut Steps<L>,
    )
        requires sound { IsSound self.old.state }
        requires hart { h < length self.old.state.harts }
        requires clock { self.old.state.clock < 2 ^ 64 - 1 }
        requires range { IsSecureInRange secure.now }
        requires kernel { IsForKernel secure.now }
        requires empty { lines.old ≡ [] }
        ensures made { let s = self.old.state in IsMade self.old.state self.new.state
            lines.new h (decision_of_secure s (hart_at s h) secure.now) }
    {
        if self.harts[h as usize].is_inside() {
            self.trap(h, ILLEGAL_INSTRUCTION, 0, lines);
            return;
        }
        match secure {
            Secure::Launch { rd, at } => {
                let at = self.register(h, *at);
                self.launch_or_trap(h, *rd, at, lines, steps);
            }
            Secure::Evict { rd, id } => {
                let id = self.register(h, *id);
                self.evict_or_trap(h, *rd, id, lines, steps);
            }
            _ => unreachable!(),
        }
    }

    /// What a module alone may ask for.
    #[tactic(auto, using(crate::proofs::Inside::legal_inside, crate::proofs::Inside::modules_outside))]
    fn carry_out_inside(&mut self, h: u8, secure: &Secure, lines: &mut LineBuf)
        requires sound { IsSound self.old.state }
        requires hart { h < length self.old.state.harts }
        requires clock { self.old.state.clock < 2 ^ 64 - 1 }
        requires range { IsSecureInRange secure.now }
        requires inside { IsForModules secure.now }
        requires empty { lines.old ≡ [] }
        ensures made { let s = self.old.state in IsMade self.old.state self.new.state
            lines.new h (decision_of_secure s (hart_at s h) secure.now) }
    {
        if !self.harts[h as usize].is_inside() {
            self.trap(h, ILLEGAL_INSTRUCTION, 0, lines);
            return;
        }
        match secure {
            Secure::Ret => self.ret(h, lines),
            Secure::Caller { rd } => {
                let caller = self.caller(h);
                self.set(h, *rd, u64::from(caller.0));
            }
            Secure::Offerer { rd, at } => {
                let at = self.register(h, *at);
                let offerer = self.offerer(h, at);
                self.set(h, *rd, offerer);
            }
            Secure::Sget { rd, index } => {
                let index = self.register(h, *index);
                let word = self.stored_word(h, index);
                self.set(h, *rd, word);
            }
            Secure::Sset { rd, index, value } => {
                let (index, value) = (self.register(h, *index), self.register(h, *value));
                self.set_stored_word(h, *rd, index, value, lines);
            }
            _ => unreachable!(),
        }
    }

    /// What hart h's register holds.
    fn register(&self, h: u8, register: Reg) -> u64
        requires hart { h < length self.now.state.harts }
        requires register { register.0 < 32 }
        ensures { result ≡ value_of (hart_at self.now.state h) register }
    {
        self.harts[h as usize].regs().x[register.0 as usize]
    }

    /// The caller of the module that hart h runs.
    fn caller(&self, h: u8) -> ModId
        requires { h < length self.now.state.harts }
        ensures { let s = self.now.state in
            result ≡ caller_of (row_of s.rows (hart_at s h).current.0) }
    {
        caller_in(self.table.row(self.current(h)))
    }

    /// A word of the identity of a module, 0 where there is none.
    #[tactic(auto, using(crate::proofs::Identities::word_of_row))]
    fn identity_word(&self, id: u64, word: u64) -> u64
        ensures { result ≡ identity_word (enclave_at (enclaves self.now.state.rows) id) word }
    {
        match row_at(&self.table, id) {
            Some(row) => word_of(&row.judged.digest, word),
            None => 0,
        }
    }
}

fn caller_in(row: Option<&Row>) -> ModId
    ensures { result ≡ caller_of (option_copied row.entry) }
{
    match row {
        Some(row) => row.caller,
        None => ModId(0),
    }
}

/// The row of an id of any size.
#[tactic(auto, using(bn_switch::proofs::IdBounds::row_of_large))]
fn row_at(table: &Table, id: u64) -> Option<&Row>
    ensures { option_copied result ≡ row_of table.now.rows id }
{
    // For the prover: what holds of every table.
    table.facts();
    if id < 0x10000 {
        table.row(ModId(id as u16))
    } else {
        None
    }
}

/// A word of an identity, little endian, 0 past the last.
fn word_of(who: &Digest, word: u64) -> u64
    ensures { result ≡ word_if (nat_lt word 4) who.now word }
{
    if word < 4 {
        word_in(&who.0, 8 * word as usize)
    } else {
        0
    }
}

#[tactic(auto, unfolding(bn_types::specs::Numbers::number_at))]
fn word_in(bytes: &[u8], at: usize) -> u64
    requires { at + 8 ≤ length bytes.now }
    ensures { result ≡ number_at B8 bytes.now at }
{
    u64::from_le_bytes([
        bytes[at],
        bytes[at + 1],
        bytes[at + 2],
        bytes[at + 3],
        bytes[at + 4],
        bytes[at + 5],
        bytes[at + 6],
        bytes[at + 7],
    ])
}
