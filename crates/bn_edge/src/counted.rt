ghost use Rattle.std.specs.Prelude.{◌≡◌, ◌+◌};
ghost use Rattle.bn_edge.specs.Counts.{CanCount};

/// A count after one more, which stays at the greatest number.
pub fn counted(count: u64) -> u64
    ensures { CanCount count → result ≡ count + 1 }
{
    count.saturating_add(1)
}
