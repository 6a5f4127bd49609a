ghost use Rattle.bn_model.specs.WalkLaws.{LeavesAreLocal, RefusedWalksAreLocal, WalksAreLocal};
ghost use Rattle.bn_model.specs.WalkLaws.{WalksReadFreePages, WalksReadThreeTables};

/// A walk reads entries from free pages alone.
pub fn walks_read_free_pages()
    ensures { WalksReadFreePages }
{}

/// A walk reads at most three entries.
pub fn walks_read_three_tables()
    ensures { WalksReadThreeTables }
{}

/// A walk that isn't refused is the same on all pages that agree on those whose entries it reads.
pub fn walks_are_local()
    ensures { WalksAreLocal }
{}

/// A refused walk is the same too, as long as no page becomes free.
pub fn refused_walks_are_local()
    ensures { RefusedWalksAreLocal }
{}

/// A leaf is the same on all pages that agree on the tables that led to it.
pub fn leaves_are_local()
    ensures { LeavesAreLocal }
{}
