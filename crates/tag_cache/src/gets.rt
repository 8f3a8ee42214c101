//! Gets: the calls that take tags, and then see to those that their sweeps freed and they did not take.
ghost use Rattle.std.specs.Prelude.{◌≡◌, ◌<◌, false, IfOk, IsTrue, length, None};
ghost use Rattle.tag_bell.specs.Calls.{nobody};
ghost use Rattle.tag_bell.specs.Sleeping.{told_by};
ghost use Rattle.tag_pool.specs.Refusals as of_hand;
ghost use Rattle.tag_pool.specs.Refusals.{CountsBatch};
ghost use Rattle.tag_pool.specs.declared.kind.Kind.TheVariants.{Ordinary, Reserved};
ghost use Rattle.tag_pool.specs.Hands.{hint_of};
ghost use Rattle.tag_pool.specs.Gets as hands;
ghost use Rattle.tag_pool.specs.Gets.{IsAnswer, IsInRun};
ghost use Rattle.tag_pool.specs.Many as hands_many;
ghost use Rattle.tag_cache.specs.Batches.{answered_run};
ghost use Rattle.tag_cache.specs.Caches.{IsCacheOf, KeepsNone, hand_of};
ghost use Rattle.tag_cache.specs.Changes.{IsUnchanged, KeepsSame, SameWindow};
ghost use Rattle.tag_cache.specs.Holding.{HoldsMore};
ghost use Rattle.tag_cache.specs.Many.{HoldsAllOrSame, TalliesAllOrFewer};
ghost use Rattle.tag_cache.specs.Tallies.{Tallies, answered};
ghost use Rattle.tag_cache.specs.Gets.{GetsAndLooks, LearnsAnswer};
ghost use Rattle.refusals.specs.Refusals.{RefusesBy};
ghost use Rattle.tag_cache.specs.Refusals.{get_checks};

use crate::cache::Cache;
use tag_pool::{Got, Pool, TagFault, Woken};

impl<R: Copy> Cache<R> {
    /// Returns the least kept tag, by no step. If no tag is kept it takes a free ordinary tag as `Pool::get` does, and
    /// sees to what it left free as that does. `Spent` means that the hand's life is used up.
    #[inline(always)]
    pub fn get(&mut self, pool: &Pool<R>) -> Result<Got<Option<u32>>, TagFault>
        requires { IsCacheOf pool.now self.old }
        ensures cache { IsCacheOf pool.now self.new }
        ensures refusals { RefusesBy (get_checks self.old) (IsUnchanged self.old self.new) result }
        ensures gets { IfOk result (λ got. GetsAndLooks pool.now got.answer got.woken self.old self.new) }
        ensures knows { IfOk result (λ got. LearnsAnswer got.answer self.old self.new) }
        ensures tally { IfOk result (λ got. Tallies (answered got.answer) 0 self.old self.new) }
    {
        if self.keeps_none() {
            return self.win(pool);
        }
        Ok(Got {
            answer: Some(self.reuse()),
            woken: Woken::none(),
        })
    }

    /// Has the hand get a tag. It is out of line, so that a get is short where a tag is kept.
    #[inline(never)]
    fn win(&mut self, pool: &Pool<R>) -> Result<Got<Option<u32>>, TagFault>
        requires cache { IsCacheOf pool.now self.old }
        requires none { KeepsNone self.old }
        ensures cache { IsCacheOf pool.now self.new }
        ensures refusals { RefusesBy (of_hand.get_checks (hand_of self.old)) (IsUnchanged self.old self.new) result }
        ensures gets { IfOk result (λ got.
            hands.GetsAndLooks Ordinary (hands.Gets pool.now Ordinary got.answer) got.woken (hand_of self.old) (hand_of self.new)) }
        ensures kept { KeepsSame self.old self.new }
        ensures knows { IfOk result (λ got. LearnsAnswer got.answer self.old self.new) }
    {
        let Got { answer, woken } = pool.get(&mut self.hand)?;
        let Some(tag) = answer else {
            return Ok(Got {
                answer: None,
                woken,
            });
        };
        self.learn(tag);
        Ok(Got {
            answer: Some(tag),
            woken,
        })
    }

    /// Takes a free reserved tag as `Pool::get_reserved` does, and sees to what it left free as that does. `NoReserved` means
    /// that there are none, `Spent` that the hand's life in the reserved set is used up.
    pub fn get_reserved(&mut self, pool: &Pool<R>) -> Result<Got<Option<u32>>, TagFault>
        requires { IsCacheOf pool.now self.old }
        ensures cache { IsCacheOf pool.now self.new }
        ensures refusals { RefusesBy (of_hand.reserved_checks pool.now (hand_of self.old)) (IsUnchanged self.old self.new) result }
        ensures gets { IfOk result (λ got.
            hands.GetsAndLooks Reserved (hands.Gets pool.now Reserved got.answer) got.woken (hand_of self.old) (hand_of self.new)) }
        ensures more { IfOk result (λ got. HoldsMore (IsAnswer got.answer) self.old self.new) }
        ensures kept { KeepsSame self.old self.new }
        ensures window { SameWindow self.old self.new }
        ensures tally { IfOk result (λ got. Tallies (answered got.answer) 0 self.old self.new) }
    {
        pool.get_reserved(&mut self.hand)
    }

    /// Takes a free ordinary tag as `Pool::get_shallow` does: never one that is kept, which may lie beyond the depth.
    /// `TooShallow` means that `depth` is 0 or below the minimum shallow depth, `Spent` that the hand's life is used
    /// up.
    pub fn get_shallow(&mut self, pool: &Pool<R>, depth: u32) -> Result<Got<Option<u32>>, TagFault>
        requires { IsCacheOf pool.now self.old }
        ensures cache { IsCacheOf pool.now self.new }
        ensures refusals { RefusesBy (of_hand.shallow_checks pool.now (hand_of self.old) depth) (IsUnchanged self.old self.new) result }
        ensures gets { IfOk result (λ got.
            hands.GetsAndLooks Ordinary (hands.GetsShallow pool.now depth got.answer) got.woken (hand_of self.old) (hand_of self.new)) }
        ensures more { IfOk result (λ got. HoldsMore (IsAnswer got.answer) self.old self.new) }
        ensures kept { KeepsSame self.old self.new }
        ensures window { SameWindow self.old self.new }
        ensures tally { IfOk result (λ got. Tallies (answered got.answer) 0 self.old self.new) }
    {
        pool.get_shallow(&mut self.hand, depth)
    }

    /// Takes up to `n` free ordinary tags out of `n` consecutive ones of one word, as `Pool::get_batch` does. It takes
    /// none of the kept tags, so it may find more after a `flush`. `BadCount` means an `n` out of range, `Spent` that
    /// the hand's life does not suffice for `n` more tags.
    pub fn get_batch(&mut self, pool: &Pool<R>, n: u32) -> Result<Got<Option<(u32, u64)>>, TagFault>
        requires { IsCacheOf pool.now self.old }
        ensures cache { IsCacheOf pool.now self.new }
        ensures refusals { RefusesBy (of_hand.batch_checks pool.now (hand_of self.old) n) (IsUnchanged self.old self.new) result }
        ensures round_robin { CountsBatch pool.now n → IsTrue (hint_of (hand_of self.old) Ordinary).round_robin
            → IfOk result (λ got. (got.answer ≡ None) × (told_by got.woken ≡ nobody)) × IsUnchanged self.old self.new }
        ensures gets { (hint_of (hand_of self.old) Ordinary).round_robin ≡ false → IfOk result (λ got.
            hands.GetsAndLooks Ordinary (hands.GetsBatch pool.now n got.answer) got.woken (hand_of self.old) (hand_of self.new)) }
        ensures more { IfOk result (λ got. HoldsMore (IsInRun got.answer) self.old self.new) }
        ensures kept { KeepsSame self.old self.new }
        ensures window { SameWindow self.old self.new }
        ensures tally { IfOk result (λ got. Tallies (answered_run got.answer) 0 self.old self.new) }
    {
        pool.get_batch(&mut self.hand, n)
    }

    /// Takes as many free ordinary tags as the slice has places and writes them there, or takes none, as `Pool::get_many`
    /// does, and sees to what it left free as that does. It takes none of the kept tags, so it may find enough after a
    /// `flush`. `BadCount` means that there are fewer ordinary tags than places, `Spent` that the hand's life does not
    /// suffice for so many more tags.
    pub fn get_many(&mut self, pool: &Pool<R>, tags: &mut [u32]) -> Result<Got<bool>, TagFault>
        requires { IsCacheOf pool.now self.old }
        ensures cache { IsCacheOf pool.now self.new }
        ensures refusals { RefusesBy (of_hand.many_checks pool.now (hand_of self.old) (length tags.old))
            (IsUnchanged self.old self.new × (tags.new ≡ tags.old)) result }
        ensures count { length tags.new ≡ length tags.old }
        ensures gets { IfOk result (λ got.
            hands_many.GetsManyAndLooks pool.now tags.new got.answer got.woken (hand_of self.old) (hand_of self.new)) }
        ensures more { IfOk result (λ got. HoldsAllOrSame got.answer tags.new self.old self.new) }
        ensures kept { KeepsSame self.old self.new }
        ensures window { SameWindow self.old self.new }
        ensures tally { IfOk result (λ got. TalliesAllOrFewer got.answer tags.new self.old self.new) }
    {
        pool.get_many(&mut self.hand, tags)
    }
}
