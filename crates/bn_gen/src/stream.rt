ghost use Rattle.std.specs.Prelude.{◌≡◌, ◌<◌};
ghost use Rattle.bn_model.specs.Generating as flat;

use std::marker::Model;

/// The stream of numbers that all that is generated is drawn from.
#[derive(Debug, Drop)]
pub struct Stream {
    state: u64,
}

impl Model for Stream {
    ghost use Rattle.std.specs.Prelude.{ℕ};

    ghost Value = { ℕ };

    ghost view = { λ s. s.state };
}

impl Stream {
    /// The stream that begins with a number.
    pub fn of(number: u64) -> Stream
        ensures { result ≡ number }
    {
        Stream { state: number }
    }

    /// Draws a number below a limit.
    #[tactic(auto, unfolding(bn_model::specs::Generating::below))]
    pub fn below(&mut self, limit: u64) -> u64
        requires { 0 < limit }
        ensures value { result ≡ (flat.below limit self.old).value }
        ensures state { self.new ≡ (flat.below limit self.old).state }
        ensures small { result < limit }
    {
        self.go_on();
        (self.state >> 33) % limit
    }

    /// A linear congruence modulo 2^64 (Knuth's MMIX).
    #[tactic(auto, unfolding(bn_model::specs::Generating::next_state))]
    fn go_on(&mut self)
        ensures { self.new ≡ flat.next_state self.old }
    {
        self.state = self
            .state
            .wrapping_mul(6_364_136_223_846_793_005)
            .wrapping_add(1_442_695_040_888_963_407);
    }
}
