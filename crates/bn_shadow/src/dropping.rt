ghost use Rattle.std.specs.Prelude.{◌≡◌, ℕ, ◌+◌, ◌≤◌, count_by, length, slice_index};
ghost use Rattle.bn_model.specs.Owners.{claims, is_module, is_on};
ghost use Rattle.bn_shadow.specs.Counting.{count_if, owners_without};

use crate::counts::count_down;
use arrayvec::ArrayVec;
use bn_model::Owner;
use bn_types::ModId;

/// Counts out what a module declares.
pub fn discount(counts: &mut Vec<u16>, live: &[Owner], id: ModId)
    requires { (page : ℕ) → slice_index counts.old.items page ≡ count_by (is_on page)
        (claims live.now) }
    ensures counts { (page : ℕ) → slice_index counts.new.items page ≡ count_by (is_on page)
        (claims (owners_without id.0 live.now)) }
    ensures pages { length counts.new.items ≡ length counts.old.items }
{
    discount_in(counts.as_mut_slice(), live, id);
}

fn discount_in(counts: &mut [u16], live: &[Owner], id: ModId)
    requires { (page : ℕ) → slice_index counts.old page ≡ count_by (is_on page)
        (claims live.now) }
    ensures { (page : ℕ) → slice_index counts.new page ≡ count_by (is_on page)
        (claims (owners_without id.0 live.now)) }
{
    for owner in live {
        discount_if(counts, owner, id);
    }
}

fn discount_if(counts: &mut [u16], owner: &Owner, id: ModId)
    requires { (page : ℕ) → count_if (is_module id.0 owner.now) page owner.now.decls.items
        ≤ slice_index counts.old page }
    ensures { (page : ℕ) → slice_index counts.new page + count_if (is_module id.0 owner.now) page
        owner.now.decls.items ≡ slice_index counts.old page }
{
    if owner.id.0 == id.0 {
        count_down(counts, &owner.decls);
    }
}

/// Leaves the others than a module.
pub fn drop_owner(live: &mut ArrayVec<Owner, 15>, id: ModId)
    ensures { live.new.items ≡ owners_without id.0 live.old.items }
{
    live.retain(|owner| owner.id.0 != id.0);
}
