//! Takes tags through the handle of a hand. Each call is described in tags.h.
ghost use Rattle.std.specs.Prelude.{◌≡◌, ◌≢◌};
ghost use Rattle.tag_search.specs.declared.search.Unfinished.TheVariants.{Full, Lost};
ghost use Rattle.tag_pool.specs.declared.kind.Kind.TheVariants.{Ordinary, Reserved};
ghost use Rattle.tag_c.specs.Begun.{TriesFirst};
ghost use Rattle.tag_c.specs.Calls.{HandCalls, CacheCalls, DoesGet, DoesGetExactly, DoesGetReserved, DoesGetShallow, TellsBy};
ghost use Rattle.tag_c.specs.Codes.{IsRefusal, code_of};
ghost use Rattle.tag_c.specs.Telling.{GetsBatch, GetsMany, GetsTag, Tells, TellsOfKind};
ghost use Rattle.tag_c.specs.declared.status.Status.TheVariants.{NoTag};

use crate::any_hand::{AnyHand, on_hand};
use crate::bell::ToldHands;
use crate::cached::CachedMember;
use crate::codes::{answer_and_left, batch_code, get_code, many_code_and_left};
use crate::handle::Handle;
use crate::member::Member;
use crate::telling::TellingCalls;
use tag_pool::{Kind, Unfinished};

/// Calls that take tags, and tell others of those that they left free.
trait GetCalls: AnyHand {
    /// Takes a free ordinary tag and returns it.
    fn get(&mut self, told: &mut ToldHands) -> i32
        ensures { Self.changes (GetsTag DoesGet (Tells Ordinary) told.old told.new result) self.old self.new };

    /// Takes a free reserved tag and returns it.
    fn get_reserved(&mut self, told: &mut ToldHands) -> i32
        ensures { Self.changes (GetsTag DoesGetReserved (Tells Reserved) told.old told.new result) self.old self.new };

    /// Takes a free ordinary tag within the words' shares of `depth` and returns it.
    fn get_shallow(&mut self, depth: u32, told: &mut ToldHands) -> i32
        ensures { Self.changes (GetsTag (DoesGetShallow depth) (Tells Ordinary) told.old told.new result)
            self.old self.new };

    /// Takes this tag, if it is free, and returns it.
    fn get_exactly(&mut self, tag: u32, told: &mut ToldHands) -> i32
        ensures { Self.changes (GetsTag (DoesGetExactly tag) (TellsOfKind tag) told.old told.new result)
            self.old self.new };

    /// Takes up to `n` ordinary tags of one word, and returns the first tag of their run. Bit 0 of `won` becomes 1 if
    /// that tag was won, bit 1 if the next one was, and so on. If no tag was won, `won` keeps its value.
    fn get_batch(&mut self, n: u32, won: &mut u64, told: &mut ToldHands) -> i32
        ensures { Self.changes (GetsBatch n won.old won.new told.old told.new result) self.old self.new };

    /// Takes as many free ordinary tags as the slice has places and returns 0, or takes none. `NoTag` leaves anything in
    /// the slice.
    fn get_many(&mut self, tags: &mut [u32], told: &mut ToldHands) -> i32
        ensures calls { Self.changes (GetsMany tags.old tags.new told.old told.new result) self.old self.new }
        ensures kept { IsRefusal result → result ≢ code_of NoTag → tags.new ≡ tags.old };
}

// What a get does after its first try is out of line and called last, with numbers alone: the first try then needs no
// memory, and saves few registers.
impl Member {
    /// Makes a whole get.
    #[inline(never)]
    fn get_whole(&mut self, told: &mut ToldHands) -> i32
        ensures { HandCalls (GetsTag DoesGet (Tells Ordinary) told.old told.new result) self.old self.new }
    {
        let found = self.shared.tags.get_quietly(&mut self.hand);
        let (answer, left) = answer_and_left(found);
        self.look_after(Kind::Ordinary, left, get_code(answer), told)
    }

    /// Goes on after a first try that found the hint's word full.
    #[inline(never)]
    fn get_past_full(&mut self, told: &mut ToldHands) -> i32
        requires { (before : Member) × TriesFirst Full before self.old }
        ensures { (before : Member) → TriesFirst Full before self.old
            → HandCalls (GetsTag DoesGet (Tells Ordinary) told.old told.new result) before self.new }
    {
        self.finish_get(told, Unfinished::Full)
    }

    /// Goes on after a first try that lost its claim, at the place `from` of the word as the claim found it.
    #[inline(never)]
    fn get_past_lost(&mut self, told: &mut ToldHands, from: u32, word: u64) -> i32
        requires { (before : Member) × TriesFirst (Lost from word) before self.old }
        ensures { (before : Member) → TriesFirst (Lost from word) before self.old
            → HandCalls (GetsTag DoesGet (Tells Ordinary) told.old told.new result) before self.new }
    {
        self.finish_get(told, Unfinished::Lost { from, found: word })
    }

    /// Finishes a get whose first try won nothing.
    #[inline(always)]
    fn finish_get(&mut self, told: &mut ToldHands, rest: Unfinished) -> i32
        requires { (before : Member) × TriesFirst rest before self.old }
        ensures { (before : Member) → TriesFirst rest before self.old
            → HandCalls (GetsTag DoesGet (Tells Ordinary) told.old told.new result) before self.new }
    {
        let found = self.shared.tags.finish_get(&mut self.hand, rest);
        self.look_after(Kind::Ordinary, found.left, get_code(Ok(found.answer)), told)
    }
}

impl GetCalls for Member {
    // It is out of line too: what it saves of the registers of its caller, a get over a cache need not save.
    #[inline(never)]
    fn get(&mut self, told: &mut ToldHands) -> i32 {
        match self.shared.tags.begin_get(&mut self.hand) {
            Ok(won) => get_code(Ok(Some(won))),
            Err(Unfinished::NotBegun) => self.get_whole(told),
            Err(Unfinished::Full) => self.get_past_full(told),
            Err(Unfinished::Lost { from, found }) => self.get_past_lost(told, from, found),
        }
    }

    #[inline(always)]
    fn get_reserved(&mut self, told: &mut ToldHands) -> i32 {
        let found = self.shared.tags.get_reserved_quietly(&mut self.hand);
        let (answer, left) = answer_and_left(found);
        self.look_after(Kind::Reserved, left, get_code(answer), told)
    }

    #[inline(always)]
    fn get_shallow(&mut self, depth: u32, told: &mut ToldHands) -> i32 {
        let found = self.shared.tags.get_shallow_quietly(&mut self.hand, depth);
        let (answer, left) = answer_and_left(found);
        self.look_after(Kind::Ordinary, left, get_code(answer), told)
    }

    #[inline(always)]
    fn get_exactly(&mut self, tag: u32, told: &mut ToldHands) -> i32 {
        let found = self.shared.tags.get_exactly_quietly(&mut self.hand, tag);
        let (answer, left) = answer_and_left(found);
        let kind = self.shared.tags.kind(tag);
        self.look_after(kind, left, get_code(answer), told)
    }

    #[inline(always)]
    fn get_batch(&mut self, n: u32, won: &mut u64, told: &mut ToldHands) -> i32 {
        let found = self.shared.tags.get_batch_quietly(&mut self.hand, n);
        let (answer, left) = answer_and_left(found);
        if let Ok(Some((_, mask))) = answer {
            *won = mask;
        }
        self.look_after(Kind::Ordinary, left, batch_code(answer), told)
    }

    #[inline(always)]
    fn get_many(&mut self, tags: &mut [u32], told: &mut ToldHands) -> i32 {
        let answer = self.shared.tags.get_many_quietly(&mut self.hand, tags);
        let (code, left) = many_code_and_left(answer);
        self.look_after(Kind::Ordinary, left, code, told)
    }
}

impl CachedMember {
    /// Takes a free ordinary tag, kept or not, and returns it. It is out of line, and called last, so that a get of a kept
    /// tag needs no memory and saves no registers.
    #[inline(never)]
    fn get_any(&mut self, told: &mut ToldHands) -> i32
        ensures { CacheCalls (GetsTag DoesGet (Tells Ordinary) told.old told.new result) self.old self.new }
    {
        let found = self.cache.get_quietly(&self.shared.tags);
        let (answer, left) = answer_and_left(found);
        self.look_after(Kind::Ordinary, left, get_code(answer), told)
    }
}

impl GetCalls for CachedMember {
    #[inline(always)]
    fn get(&mut self, told: &mut ToldHands) -> i32 {
        if self.cache.keeps_none() {
            return self.get_any(told);
        }
        let tag = self.cache.get_kept(&self.shared.tags);
        get_code(Ok(Some(tag)))
    }

    #[inline(never)]
    fn get_reserved(&mut self, told: &mut ToldHands) -> i32 {
        let found = self.cache.get_reserved_quietly(&self.shared.tags);
        let (answer, left) = answer_and_left(found);
        self.look_after(Kind::Reserved, left, get_code(answer), told)
    }

    #[inline(never)]
    fn get_shallow(&mut self, depth: u32, told: &mut ToldHands) -> i32 {
        let found = self.cache.get_shallow_quietly(&self.shared.tags, depth);
        let (answer, left) = answer_and_left(found);
        self.look_after(Kind::Ordinary, left, get_code(answer), told)
    }

    #[inline(never)]
    fn get_exactly(&mut self, tag: u32, told: &mut ToldHands) -> i32 {
        let found = self.cache.get_exactly_quietly(&self.shared.tags, tag);
        let (answer, left) = answer_and_left(found);
        let kind = self.shared.tags.kind(tag);
        self.look_after(kind, left, get_code(answer), told)
    }

    #[inline(never)]
    fn get_batch(&mut self, n: u32, won: &mut u64, told: &mut ToldHands) -> i32 {
        let found = self.cache.get_batch_quietly(&self.shared.tags, n);
        let (answer, left) = answer_and_left(found);
        if let Ok(Some((_, taken))) = answer {
            *won = taken;
        }
        self.look_after(Kind::Ordinary, left, batch_code(answer), told)
    }

    #[inline(never)]
    fn get_many(&mut self, tags: &mut [u32], told: &mut ToldHands) -> i32 {
        let answer = self.cache.get_many_quietly(&self.shared.tags, tags);
        let (code, left) = many_code_and_left(answer);
        self.look_after(Kind::Ordinary, left, code, told)
    }
}

#[unsafe(no_mangle)]
pub extern "C" fn tags_get(hand: &mut Handle, told: &mut ToldHands) -> i32
    ensures { TellsBy (GetsTag DoesGet (Tells Ordinary)) told.old told.new result
        hand.old.object.value hand.new.object.value }
{
    on_hand!(hand.get(told))
}

#[unsafe(no_mangle)]
pub extern "C" fn tags_get_reserved(hand: &mut Handle, told: &mut ToldHands) -> i32
    ensures { TellsBy (GetsTag DoesGetReserved (Tells Reserved)) told.old told.new result
        hand.old.object.value hand.new.object.value }
{
    on_hand!(hand.get_reserved(told))
}

#[unsafe(no_mangle)]
pub extern "C" fn tags_get_shallow(hand: &mut Handle, depth: u32, told: &mut ToldHands) -> i32
    ensures { TellsBy (GetsTag (DoesGetShallow depth) (Tells Ordinary)) told.old told.new result
        hand.old.object.value hand.new.object.value }
{
    on_hand!(hand.get_shallow(depth, told))
}

#[unsafe(no_mangle)]
pub extern "C" fn tags_get_exactly(hand: &mut Handle, tag: u32, told: &mut ToldHands) -> i32
    ensures { TellsBy (GetsTag (DoesGetExactly tag) (TellsOfKind tag)) told.old told.new result
        hand.old.object.value hand.new.object.value }
{
    on_hand!(hand.get_exactly(tag, told))
}

#[unsafe(no_mangle)]
pub extern "C" fn tags_get_batch(
    hand: &mut Handle,
    n: u32,
    won: &mut u64,
    told: &mut ToldHands,
) -> i32
    ensures calls { TellsBy (GetsBatch n won.old won.new) told.old told.new result
        hand.old.object.value hand.new.object.value }
    ensures kept { IsRefusal result → won.new ≡ won.old }
{
    on_hand!(hand.get_batch(n, won, told))
}

#[unsafe(no_mangle)]
pub extern "C" fn tags_get_many(hand: &mut Handle, tags: &mut [u32], told: &mut ToldHands) -> i32
    ensures calls { TellsBy (GetsMany tags.old tags.new) told.old told.new result
        hand.old.object.value hand.new.object.value }
    ensures kept { IsRefusal result → result ≢ code_of NoTag → tags.new ≡ tags.old }
{
    on_hand!(hand.get_many(tags, told))
}
