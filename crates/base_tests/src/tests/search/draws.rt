//! Pseudo-random numbers for tests, determined by the seed.
ghost use Rattle.std.specs.Prelude.{◌<◌};

/// A linear congruential generator of 64 bits, of which the upper 31 are drawn.
#[derive(Drop)]
pub(crate) struct Draws {
    state: u64,
}

impl Draws {
    pub(crate) fn new(seed: u64) -> Draws {
        Draws { state: seed }
    }

    /// Draws a number below the bound.
    pub(crate) fn below(&mut self, bound: u32) -> u32
        requires { 0 < bound }
        ensures { result < bound }
    {
        self.state = self
            .state
            .wrapping_mul(6_364_136_223_846_793_005)
            .wrapping_add(1_442_695_040_888_963_407);
        (self.state >> 33) as u32 % bound
    }

    /// Draws true with a probability of `of_eight` eighths.
    pub(crate) fn eighths(&mut self, of_eight: u32) -> bool {
        self.below(8) < of_eight
    }
}
