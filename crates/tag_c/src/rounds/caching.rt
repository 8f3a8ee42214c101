//! A round of a hand with a cache, also where other calls of the hand came before it.
ghost use Rattle.std.specs.Prelude.{◌≡◌, ◌≤◌, IfOk};
ghost use Rattle.refusals.specs.Refusals.{RefusesBy};
ghost use Rattle.tag_pool.specs.Hands.{layout_of};
ghost use Rattle.tag_cache.specs.Caches.{IsCacheOf};
ghost use Rattle.tag_cache.specs.Changes.{IsUnchanged};
ghost use Rattle.tag_cache.specs.Waits.{EndsWait};
ghost use Rattle.tag_c.specs.Rounds.{round_checks_over, get_checks_over, BeginsOver, GetsOver, MakesRoundOver};

use tag_cache::Cache;
use tag_pool::{Found, Kind, Next, Pool, TagFault, Told, Turn, Waiter};

/// Makes a round as `make_round` does, over a cache: a kept tag ends a wait for an ordinary one at once.
pub(crate) fn make_round_over(
    pool: &Pool<u64>,
    cache: &mut Cache<u64>,
    kind: Kind,
    waiter: Waiter,
    is_over: bool,
    turn: Turn,
) -> (Result<Next, TagFault>, Told)
    requires { IsCacheOf pool.now cache.old }
    ensures cache { IsCacheOf pool.now cache.new }
    ensures refusals { RefusesBy (round_checks_over kind is_over pool.now cache.old)
        (EndsWait pool.now kind result.1 cache.old cache.new) result.0 }
    ensures makes { IfOk result.0 (λ next.
        MakesRoundOver pool.now kind waiter turn is_over next result.1 cache.old cache.new) }
{
    match begin_over(pool, cache, kind, is_over) {
        Ok(None) => {
            let (next, told) = cache.wait_on(pool, kind, waiter, false, turn);
            (Ok(next), told)
        }
        Ok(Some(end)) => (Ok(end), cache.end_wait(pool, kind)),
        Err(fault) => (Err(fault), cache.end_wait(pool, kind)),
    }
}

/// Returns how the wait ends before the round, or `None` if the hand can make it: at once, or after a get that found none.
fn begin_over(
    pool: &Pool<u64>,
    cache: &mut Cache<u64>,
    kind: Kind,
    is_over: bool,
) -> Result<Option<Next>, TagFault>
    requires { IsCacheOf pool.now cache.old }
    ensures cache { IsCacheOf pool.now cache.new }
    ensures refusals { RefusesBy (round_checks_over kind is_over pool.now cache.old) (IsUnchanged cache.old cache.new) result }
    ensures begins { IfOk result (λ end. BeginsOver pool.now kind is_over end cache.old cache.new) }
{
    if pool.layout(kind).depth() == 0 {
        return Err(kind.no_tag());
    }
    if is_over {
        return Ok(Some(Next::Over));
    }
    if cache.can_wait(kind) {
        return Ok(None);
    }
    let found = match get_over(pool, cache, kind) {
        Ok(found) => found,
        Err(fault) => return Err(fault),
    };
    match found.answer {
        Some(tag) => Ok(Some(Next::Won(tag))),
        None => Ok(None),
    }
}

/// Makes a get of this kind that tells nobody, where there are such tags.
fn get_over(pool: &Pool<u64>, cache: &mut Cache<u64>, kind: Kind) -> Result<Found<u32>, TagFault>
    requires cache { IsCacheOf pool.now cache.old }
    requires some { 1 ≤ (layout_of pool.now kind).depth }
    ensures cache { IsCacheOf pool.now cache.new }
    ensures refusals { RefusesBy (get_checks_over kind cache.old) (IsUnchanged cache.old cache.new) result }
    ensures gets { IfOk result (λ found. GetsOver pool.now kind found.answer cache.old cache.new) }
{
    match kind {
        Kind::Ordinary => cache.get_quietly(pool),
        Kind::Reserved => cache.get_reserved_quietly(pool),
    }
}
