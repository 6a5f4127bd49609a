ghost use Rattle.std.specs.Prelude.{◌≡◌, ◌+◌, ◌<◌, ◌++◌, [], ◌∷◌, IfOk, if◌then◌else◌, length};
ghost use Rattle.bn_types.specs.declared.kind.Kind.TheVariants.{Fetch, Load, Store};
ghost use Rattle.bn_model.specs.Admission.{admits, admits_declared, has_right};
ghost use Rattle.std.specs.List.{list_any};
ghost use Rattle.bn_model.specs.Evicting.{is_given_up};
ghost use Rattle.bn_model.specs.Owners.{claims, is_owned};
ghost use Rattle.bn_model.specs.Rows.{owner_of};
ghost use Rattle.bn_shadow.specs.Counting.{IsCounted, LieInRam, owners_without};

use crate::counts::{copy_of, count_row, is_counted, zero_counts};
use crate::dropping::{discount, drop_owner};
use crate::giving;
use crate::search::{declaration_in, holds, is_free_to_leave, is_sourced};
use arrayvec::ArrayVec;
use bn_model::Owner;
use bn_types::{Decl, Gpn, Kind, ModId, NoMemory, Rights, Row, Vpn};
use std::alloc::Global;
use std::marker::Model;

/// The declarations of live modules, and how many of them each page has.
#[derive(Drop)]
pub struct Shadow {
    live: ArrayVec<Owner, 15>,
    counts: Vec<u16>,
}

impl Model for Shadow {
    ghost use Rattle.std.specs.Prelude.{length};
    ghost use Rattle.bn_shadow.specs.Counting.{Entered, IsCounted};

    ghost Value = { Entered };

    ghost view = { λ s. record { live = s.live.items; ram = length s.counts.items } };

    ghost invariant = { λ s. IsCounted s.live.items s.counts.items };
}

impl Shadow {
    /// The index of so many pages where no module is live. It takes memory, and no other call does.
    pub fn empty(alloc: Global, ram_pages: u32) -> Result<Shadow, NoMemory>
        ensures { IfOk result (λ shadow. shadow ≡ record { live = []; ram = ram_pages }) }
    {
        let counts = zero_counts(alloc, ram_pages)?;
        Ok(Shadow {
            live: ArrayVec::new(),
            counts,
        })
    }

    /// Whether a live module declares the page.
    pub fn owned(&self, page: Gpn) -> bool
        ensures { result ≡ is_owned self.now.live page.0 }
    {
        is_counted(&self.counts, page)
    }

    /// Whether a module, 0 for the untrusted world, may access a page in this way at a virtual page
    /// that leads to it: by its own declaration of the virtual page, where there is one, and else
    /// where no module declares the page. A module fetches from its own pages alone.
    #[tactic(auto, unfolding(bn_model::specs::Admission::admits))]
    pub fn admits(&self, module: ModId, vpn: Vpn, page: Gpn, kind: Kind) -> bool
        ensures { result ≡ admits self.now.live «module».0 vpn.0 page.0 kind }
    {
        // The untrusted world declares nothing: most accesses ask no more than this.
        if module.0 == 0 {
            return !self.owned(page);
        }
        match declaration_in(&self.live, module, vpn) {
            Some(decl) => self.admits_by(&decl, page, kind),
            None => !self.owned(page) && is_free_to_leave(module, kind),
        }
    }

    fn admits_by(&self, decl: &Decl, page: Gpn, kind: Kind) -> bool
        ensures { result ≡ admits_declared self.now.live page.0 kind decl.now }
    {
        decl.gpn.0 == page.0
            && holds(decl.rights, kind)
            && is_sourced(&self.live, decl.sort, decl.source)
    }

    /// The kinds of access that are admitted there.
    pub fn rights(&self, module: ModId, vpn: Vpn, page: Gpn) -> Rights
        ensures load { has_right Load result ≡ admits self.now.live «module».0 vpn.0 page.0 Load }
        ensures store { has_right Store result
            ≡ admits self.now.live «module».0 vpn.0 page.0 Store }
        ensures fetch { has_right Fetch result
            ≡ admits self.now.live «module».0 vpn.0 page.0 Fetch }
        ensures few { result.0 < 8 }
    {
        let load = bit_if(self.admits(module, vpn, page, Kind::Load), 1);
        let store = bit_if(self.admits(module, vpn, page, Kind::Store), 2);
        let fetch = bit_if(self.admits(module, vpn, page, Kind::Fetch), 4);
        Rights(load + store + fetch)
    }

    /// Enters the declarations of a launched module. Fewer than 15 modules are live, and its pages
    /// lie in RAM.
    pub fn add_row(&mut self, row: &Row)
        requires room { length self.old.live < 15 }
        requires inside { LieInRam self.old.ram row.now.judged.decls.items }
        ensures live { self.new.live ≡ self.old.live ++ owner_of row.now ∷ [] }
        ensures ram { self.new.ram ≡ self.old.ram }
    {
        // For the prover: a length read is the length of the list.
        let _count = row.judged.decls.len();
        let decls = copy_of(&row.judged.decls);
        count_row(&mut self.counts, &decls);
        self.live.push(Owner { id: row.id, decls });
    }

    /// Whether the page is a private or offered page of a module whose row is among these.
    #[tactic(auto, using(crate::proofs::GivingLemmas::given_owned))]
    pub fn gives_up(&self, gone: &[Row], page: Gpn) -> bool
        ensures { result ≡ list_any (is_given_up gone.now page.0) (claims self.now.live) }
    {
        self.owned(page) && giving::is_given_up(&self.live, gone, page)
    }

    /// Takes out the declarations of a module that is evicted. Nothing changes where it isn't
    /// entered.
    pub fn drop_row(&mut self, row: &Row)
        ensures live { self.new.live ≡ owners_without row.now.id.0 self.old.live }
        ensures ram { self.new.ram ≡ self.old.ram }
    {
        discount(&mut self.counts, &self.live, row.id);
        drop_owner(&mut self.live, row.id);
    }
}

fn bit_if(is_set: bool, bit: u8) -> u8
    ensures { result ≡ (if is_set then bit else 0) }
{
    if is_set { bit } else { 0 }
}
