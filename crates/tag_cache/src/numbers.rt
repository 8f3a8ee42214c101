//! A cache's number among the hands.
ghost use Rattle.tag_pool.specs.Hands.{number_of};

use crate::cache::Cache;
use step_ledger::Numbered;

impl<R> Numbered for Cache<R> {
    ghost number_of = { λ cache. number_of cache.hand };

    fn number(&self) -> u32 {
        self.hand.number()
    }
}
