//! Waits for a tag of a set by the bell: a hand lists itself, learns that it was told, and gets up; and whoever makes tags
//! free, or keeps ordinary ones, sees to them.
ghost use Rattle.std.specs.Prelude.{◌≡◌};
ghost use Rattle.tag_pool.specs.Bell as bell;
ghost use Rattle.tag_pool.specs.Hands.{layout_of, Changes};
ghost use Rattle.tag_pool.specs.Sides as side;
ghost use Rattle.tag_pool.specs.Sides.{see_to_all_steps};
ghost use Rattle.tag_pool.specs.declared.kind.Kind.TheVariants.{Ordinary};
ghost use Rattle.tag_cache.specs.Bell.{GivesAndTells, SeesTo};
ghost use Rattle.tag_cache.specs.Caches.{IsCacheOf, KeepsNone, hand_of, reused_of};
ghost use Rattle.tag_cache.specs.Changes.{SameTerms, SameWindow};
ghost use Rattle.tag_cache.specs.Holding.{HoldsSame};
ghost use Rattle.tag_cache.specs.Same.{SameTags};
ghost use Rattle.tag_cache.specs.Tallies.{Tallies};

use crate::cache::Cache;
use tag_pool::{Kind, Pool, Told, Turn, Waiter};

impl<R: Copy> Cache<R> {
    /// Lists the hand among those that wait, as `Pool::list_self` does. A get that finds no tag keeps none either.
    pub fn list_self(&mut self, pool: &Pool<R>, kind: Kind, waiter: Waiter, turn: Turn)
        requires { IsCacheOf pool.now self.old }
        ensures cache { IsCacheOf pool.now self.new }
        ensures lists { Changes kind (bell.ListsSelf waiter turn) (hand_of self.old) (hand_of self.new) }
        ensures same { SameTags self.old self.new }
    {
        pool.list_self(&mut self.hand, kind, waiter, turn);
    }

    /// Ends the hand's wait, and returns whether somebody had told it, as `Pool::get_up` does.
    pub fn get_up(&mut self, pool: &Pool<R>, kind: Kind) -> bool
        requires { IsCacheOf pool.now self.old }
        ensures cache { IsCacheOf pool.now self.new }
        ensures gets_up { Changes kind (bell.GetsUp result) (hand_of self.old) (hand_of self.new) }
        ensures same { SameTags self.old self.new }
    {
        pool.get_up(&mut self.hand, kind)
    }

    /// Looks whether the hand was told, as `Pool::is_told` does.
    pub fn is_told(&mut self, pool: &Pool<R>, kind: Kind) -> bool
        requires { IsCacheOf pool.now self.old }
        ensures cache { IsCacheOf pool.now self.new }
        ensures looks { Changes kind (bell.LooksIfTold result) (hand_of self.old) (hand_of self.new) }
        ensures same { SameTags self.old self.new }
    {
        pool.is_told(&mut self.hand, kind)
    }

    /// Returns whether it finds a hand that waits for a tag of this kind, as `Pool::finds_waiters` does.
    #[inline]
    pub fn finds_waiters(&mut self, pool: &Pool<R>, kind: Kind) -> bool
        requires { IsCacheOf pool.now self.old }
        ensures cache { IsCacheOf pool.now self.new }
        ensures looks { Changes kind (bell.LooksForWaiters result) (hand_of self.old) (hand_of self.new) }
        ensures same { SameTags self.old self.new }
    {
        pool.finds_waiters(&mut self.hand, kind)
    }

    /// Sees to all that the hand has to see to, after its user gave `freed` tags of this kind back, which became free or are
    /// kept. Where somebody waits for an ordinary tag, it gives all kept tags back, and tells others as `Pool::see_to` does,
    /// of as many tags as became free; for a reserved tag it tells them at once, and keeps what it keeps. Returns those
    /// told, who are to be woken (`Pool::wake_told`). Where nobody waits it makes one load.
    #[inline]
    pub fn see_to(&mut self, pool: &Pool<R>, kind: Kind, freed: u32) -> Told
        requires { IsCacheOf pool.now self.old }
        ensures cache { IsCacheOf pool.now self.new }
        ensures does { SeesTo kind freed pool.now result self.old self.new }
    {
        match kind {
            Kind::Ordinary => self.see_with_kept(pool, freed),
            Kind::Reserved => pool.see_to(&mut self.hand, Kind::Reserved, freed),
        }
    }

    /// Sees to ordinary tags, the kept ones among them.
    #[inline]
    fn see_with_kept(&mut self, pool: &Pool<R>, freed: u32) -> Told
        requires { IsCacheOf pool.now self.old }
        ensures cache { IsCacheOf pool.now self.new }
        ensures does { SeesTo Ordinary freed pool.now result self.old self.new }
    {
        if !pool.finds_waiters(&mut self.hand, Kind::Ordinary) {
            return Told::none();
        }
        self.give_back_and_tell(pool, freed)
    }

    /// Gives all kept tags back, and tells as many as became free by that, or by what was given back before.
    #[inline(never)]
    fn give_back_and_tell(&mut self, pool: &Pool<R>, freed: u32) -> Told
        requires { IsCacheOf pool.now self.old }
        ensures cache { IsCacheOf pool.now self.new }
        ensures gives { GivesAndTells freed pool.now result self.old (hand_of self.old) (hand_of self.new) }
        ensures none { KeepsNone self.new }
        ensures same { HoldsSame self.old self.new }
        ensures tally { Tallies 0 0 self.old self.new }
        ensures terms { SameTerms self.old self.new }
        ensures reused { reused_of self.new ≡ reused_of self.old }
        ensures window { SameWindow self.old self.new }
    {
        let kept = self.flush_quietly(pool);
        pool.see_to(&mut self.hand, Kind::Ordinary, freed.max(kept))
    }

    /// Sees to all that the hand has to see to, after it was told and got up, and won another tag or gave up, as
    /// `Pool::see_to_all` does. Returns those told, who are to be woken.
    pub fn see_to_all(&mut self, pool: &Pool<R>, kind: Kind) -> Told
        requires { IsCacheOf pool.now self.old }
        ensures cache { IsCacheOf pool.now self.new }
        ensures sees_to { Changes kind (side.SeesTo 1 (see_to_all_steps (layout_of pool.now kind)) result)
            (hand_of self.old) (hand_of self.new) }
        ensures same { SameTags self.old self.new }
    {
        pool.see_to_all(&mut self.hand, kind)
    }
}
