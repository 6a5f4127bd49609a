ghost use Rattle.std.specs.Prelude.{◌≡◌};
ghost use Rattle.bn_model.specs.Refusals.{minus};
ghost use Rattle.bn_table.specs.Evictions.{evict_code};

/// Why an eviction is refused.
#[derive(Clone, Copy, Debug, PartialEq, Eq)]
pub enum EvictRefused {
    /// No live module has the id.
    NoModule,
    /// The module runs, or waits for one that it called.
    Busy,
}

impl EvictRefused {
    /// The code of the refusal, which the guest gets in 64 bits: -1 or -2.
    pub fn code(&self) -> i64
        ensures { result ≡ minus (evict_code self.now) }
    {
        match self {
            EvictRefused::NoModule => -1,
            EvictRefused::Busy => -2,
        }
    }
}
