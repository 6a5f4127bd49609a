ghost use Rattle.std.specs.Prelude.{◌↔◌, IsTrue, Contains};

/// A call's number stands among those of the calls that fail.
pub fn is_listed(fails: &[u64], call: u64) -> bool
    ensures { IsTrue result ↔ Contains fails.now call }
{
    fails.contains(&call)
}
