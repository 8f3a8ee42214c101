//! Gets that tell nobody, and return how many ordinary tags they left free.
ghost use Rattle.std.specs.Prelude.{◌≡◌, ◌<◌, IfOk, Ok, Some, None};
ghost use Rattle.tag_pool.specs.Refusals as of_hand;
ghost use Rattle.tag_pool.specs.Gets as hands;
ghost use Rattle.tag_pool.specs.Gets.{left_free};
ghost use Rattle.tag_pool.specs.declared.kind.Kind.TheVariants.{Ordinary};
ghost use Rattle.tag_cache.specs.Caches.{IsCacheOf, KeepsNone, hand_of};
ghost use Rattle.tag_cache.specs.Changes.{IsUnchanged, KeepsSame};
ghost use Rattle.tag_cache.specs.Gets.{LearnsAnswer};
ghost use Rattle.refusals.specs.Refusals.{RefusesBy};
ghost use Rattle.tag_cache.specs.Calls.{DoesGet, DoesGetReserved, DoesGetShallow, DoesGetBatch};
ghost use Rattle.tag_cache.specs.Many.{DoesGetMany};

use crate::cache::Cache;
use tag_pool::{Found, Pool, TagFault};

impl<R: Copy> Cache<R> {
    /// Like `get`, but tells nobody: `left` is the number of ordinary tags that its sweeps freed and it did not take, 0 for
    /// none and for a kept tag. Whatever it answers, the caller sees to so many (`see_to`, `wake`), or knows that nobody
    /// waits. It is refused as `get` is: `Spent`.
    #[inline(always)]
    pub fn get_quietly(&mut self, pool: &Pool<R>) -> Result<Found<u32>, TagFault>
        requires { IsCacheOf pool.now self.old }
        ensures cache { IsCacheOf pool.now self.new }
        ensures does { DoesGet pool.now result self.old self.new }
    {
        if self.keeps_none() {
            return self.win_quietly(pool);
        }
        Ok(Found {
            answer: Some(self.get_kept(pool)),
            left: 0,
        })
    }

    /// Returns the least kept tag, where one is kept (`keeps_none`): what `get_quietly` does then. It leaves none free.
    #[inline(always)]
    pub fn get_kept(&mut self, pool: &Pool<R>) -> u32
        requires cache { IsCacheOf pool.now self.old }
        requires some { ¬ (KeepsNone self.old) }
        ensures cache { IsCacheOf pool.now self.new }
        ensures does { DoesGet pool.now (Ok (record { answer = Some result; left = 0 })) self.old self.new }
    {
        self.reuse()
    }

    /// Has the hand get a tag. It is out of line, so that a get is short where a tag is kept.
    #[inline(never)]
    fn win_quietly(&mut self, pool: &Pool<R>) -> Result<Found<u32>, TagFault>
        requires cache { IsCacheOf pool.now self.old }
        requires none { KeepsNone self.old }
        ensures cache { IsCacheOf pool.now self.new }
        ensures refusals { RefusesBy (of_hand.get_checks (hand_of self.old)) (IsUnchanged self.old self.new) result }
        ensures gets { IfOk result (λ found. hands.Gets pool.now Ordinary found.answer (hand_of self.old) (hand_of self.new)) }
        ensures left { IfOk result (λ found. found.left ≡ left_free Ordinary (hand_of self.old) (hand_of self.new)) }
        ensures kept { KeepsSame self.old self.new }
        ensures knows { IfOk result (λ found. LearnsAnswer found.answer self.old self.new) }
    {
        let Found { answer, left } = pool.get_quietly(&mut self.hand)?;
        let Some(tag) = answer else {
            return Ok(Found { answer: None, left });
        };
        self.learn(tag);
        Ok(Found {
            answer: Some(tag),
            left,
        })
    }

    /// Like `get_reserved`, but tells nobody (see `get_quietly`): `left` counts reserved tags. It is refused as `get_reserved`
    /// is: `NoReserved`, `Spent`.
    pub fn get_reserved_quietly(&mut self, pool: &Pool<R>) -> Result<Found<u32>, TagFault>
        requires { IsCacheOf pool.now self.old }
        ensures cache { IsCacheOf pool.now self.new }
        ensures does { DoesGetReserved pool.now result self.old self.new }
    {
        pool.get_reserved_quietly(&mut self.hand)
    }

    /// Like `get_shallow`, but tells nobody (see `get_quietly`). It is refused as `get_shallow` is: `TooShallow`, `Spent`.
    pub fn get_shallow_quietly(
        &mut self,
        pool: &Pool<R>,
        depth: u32,
    ) -> Result<Found<u32>, TagFault>
        requires { IsCacheOf pool.now self.old }
        ensures cache { IsCacheOf pool.now self.new }
        ensures does { DoesGetShallow depth pool.now result self.old self.new }
    {
        pool.get_shallow_quietly(&mut self.hand, depth)
    }

    /// Like `get_batch`, but tells nobody (see `get_quietly`). It is refused as `get_batch` is: `BadCount`, `Spent`.
    pub fn get_batch_quietly(
        &mut self,
        pool: &Pool<R>,
        n: u32,
    ) -> Result<Found<(u32, u64)>, TagFault>
        requires { IsCacheOf pool.now self.old }
        ensures cache { IsCacheOf pool.now self.new }
        ensures does { DoesGetBatch n pool.now result self.old self.new }
    {
        pool.get_batch_quietly(&mut self.hand, n)
    }

    /// Like `get_many`, but tells nobody: after its answer it returns the sum of how many ordinary tags each of its gets left
    /// free, and of those that it gave back. The caller sees to so many (`see_to`, `wake`). It is refused as `get_many` is:
    /// `BadCount`, `Spent`.
    pub fn get_many_quietly(
        &mut self,
        pool: &Pool<R>,
        tags: &mut [u32],
    ) -> Result<(bool, u64), TagFault>
        requires { IsCacheOf pool.now self.old }
        ensures cache { IsCacheOf pool.now self.new }
        ensures does { DoesGetMany pool.now tags.old tags.new result self.old self.new }
    {
        pool.get_many_quietly(&mut self.hand, tags)
    }
}
