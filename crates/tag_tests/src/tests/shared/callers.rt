//! Hands, with a cache or without.
ghost use Rattle.std.specs.Prelude.{◌≡◌, All, IfOk};
ghost use Rattle.tag_pool.specs.Hands.{IsHandOf};
ghost use Rattle.tag_tests.specs.Shared.{hand_in};

use crate::caller::Caller;
use std::alloc::{AllocError, Global};
use tag_cache::{Cache, Keeping};
use tag_pool::{Hand, Numbered, Pool};

/// Which of the callers have caches, and on what terms.
#[derive(Clone, Copy)]
pub(crate) struct Terms {
    /// How many of the callers have a cache: those with the lowest numbers.
    pub(crate) caches: u32,
    /// The most tags that each of them keeps.
    pub(crate) most: u32,
    pub(crate) keeping: Keeping,
}

impl Terms {
    /// Gives the hand a cache if these terms do.
    fn caller(self, hand: Hand<u64>) -> Caller
        ensures { hand_in result ≡ hand }
    {
        if Numbered::number(&hand) >= self.caches {
            return Caller::Bare(hand);
        }
        Caller::Cached(Cache::with_keeping(hand, self.most, self.keeping))
    }

    /// The same for several hands.
    pub(crate) fn callers(
        self,
        alloc: Global,
        pool: &Pool<u64>,
        hands: Vec<Hand<u64>>,
    ) -> Result<Vec<Caller>, AllocError>
        requires { All (IsHandOf pool.now) hands.items }
        ensures { IfOk result (λ callers. All (λ caller. IsHandOf pool.now (hand_in caller)) callers.items) }
    {
        let mut callers = Vec::new(alloc);
        for hand in hands {
            callers.push(self.caller(hand))?;
        }
        Ok(callers)
    }
}

/// Takes the hands out of their caches, whose kept tags go back.
pub(crate) fn hands_of(
    alloc: Global,
    pool: &Pool<u64>,
    callers: Vec<Caller>,
) -> Result<Vec<Hand<u64>>, AllocError>
    requires { All (λ caller. IsHandOf pool.now (hand_in caller)) callers.items }
    ensures { IfOk result (λ hands. All (IsHandOf pool.now) hands.items) }
{
    let mut hands = Vec::new(alloc);
    for caller in callers {
        hands.push(hand_of(pool, caller))?;
    }
    Ok(hands)
}

fn hand_of(pool: &Pool<u64>, caller: Caller) -> Hand<u64>
    requires { IsHandOf pool.now (hand_in caller) }
    ensures { IsHandOf pool.now result }
{
    match caller {
        Caller::Bare(hand) => hand,
        Caller::Cached(cache) => {
            let (hand, _) = cache.into_hand(pool);
            hand
        }
    }
}
