//! Gets of one given tag.
ghost use Rattle.std.specs.Prelude.{◌≡◌, IfOk};
ghost use Rattle.refusals.specs.Refusals.{RefusesBy};
ghost use Rattle.tag_cache.specs.Caches.{IsCacheOf};
ghost use Rattle.tag_cache.specs.Changes.{IsUnchanged};
ghost use Rattle.tag_cache.specs.Exact.{DoesGetExactly, GetsAndLooks};
ghost use Rattle.tag_cache.specs.Refusals.{exact_checks};
ghost use Rattle.tag_cache.specs.Tallies.{Tallies, answered};

use crate::cache::Cache;
use tag_pool::{Found, Got, Pool, TagFault, Woken};

impl<R: Copy> Cache<R> {
    /// Takes this tag if it is free, and no other, and sees to what that left free, as `Pool::get_exactly` does. If this
    /// cache keeps the tag it is free, and is handed out by no step; one that another cache keeps is not. `NoSuchTag` means
    /// that the number is not below the total, `Spent` that the hand's life in the tag's set is used up.
    pub fn get_exactly(&mut self, pool: &Pool<R>, tag: u32) -> Result<Got<Option<u32>>, TagFault>
        requires { IsCacheOf pool.now self.old }
        ensures cache { IsCacheOf pool.now self.new }
        ensures refusals { RefusesBy (exact_checks pool.now tag self.old) (IsUnchanged self.old self.new) result }
        ensures gets { IfOk result (λ got. GetsAndLooks tag pool.now got.answer got.woken self.old self.new) }
        ensures tally { IfOk result (λ got. Tallies (answered got.answer) 0 self.old self.new) }
    {
        if self.keeps(tag) {
            self.hand_out(tag);
            return Ok(Got {
                answer: Some(tag),
                woken: Woken::none(),
            });
        }
        pool.get_exactly(&mut self.hand, tag)
    }

    /// Like `get_exactly`, but tells nobody (see `get_quietly`). It is refused as `get_exactly` is: `NoSuchTag`, `Spent`.
    pub fn get_exactly_quietly(&mut self, pool: &Pool<R>, tag: u32) -> Result<Found<u32>, TagFault>
        requires { IsCacheOf pool.now self.old }
        ensures cache { IsCacheOf pool.now self.new }
        ensures does { DoesGetExactly tag pool.now result self.old self.new }
    {
        if self.keeps(tag) {
            self.hand_out(tag);
            return Ok(Found {
                answer: Some(tag),
                left: 0,
            });
        }
        pool.get_exactly_quietly(&mut self.hand, tag)
    }
}
