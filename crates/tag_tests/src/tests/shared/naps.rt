//! How a hand of the tests sleeps between two rounds of its wait.
ghost use Rattle.std.specs.Prelude.{◌≡◌};

use tag_pool::{Hand, Kind, Pool, Sleeper};

/// A sleeper that does not sleep, and ends the wait after so many rounds.
#[derive(Drop)]
pub(crate) struct Naps {
    /// How many rounds are left.
    pub(crate) left: u32,
}

impl Sleeper<u64> for Naps {
    ghost has_ended = { λ naps. naps.left ≡ 0 };

    fn sleep(&mut self, _pool: &Pool<u64>, _hand: &Hand<u64>, _kind: Kind) -> bool {
        if self.left == 0 {
            return true;
        }
        self.left -= 1;
        false
    }
}
