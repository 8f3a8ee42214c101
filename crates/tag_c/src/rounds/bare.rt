//! A round of a hand without a cache, also where other calls of the hand came before it.
ghost use Rattle.std.specs.Prelude.{◌≡◌, IfOk};
ghost use Rattle.refusals.specs.Refusals.{RefusesBy};
ghost use Rattle.tag_pool.specs.Hands.{IsHandOf, IsStillOf};
ghost use Rattle.tag_pool.specs.Waits.{EndsWait};
ghost use Rattle.tag_c.specs.Rounds.{round_checks, Begins, MakesRound};

use tag_pool::{Hand, Kind, Next, Pool, TagFault, Told, Turn, Waiter};

/// Makes a round for a tag of this kind as this waiter, or ends the wait if it is over or the hand can't wait. `NoSuchTag`
/// means that there are no ordinary tags, `NoReserved` that there are no reserved ones, `Spent` that the hand's life is
/// used up. With any answer but `Sleep` the hand is up and has nothing to see to.
pub(crate) fn make_round(
    pool: &Pool<u64>,
    hand: &mut Hand<u64>,
    kind: Kind,
    waiter: Waiter,
    is_over: bool,
    turn: Turn,
) -> (Result<Next, TagFault>, Told)
    requires { IsHandOf pool.now hand.old }
    ensures hand { IsStillOf pool.now hand.old hand.new }
    ensures refusals { RefusesBy (round_checks kind is_over pool.now hand.old)
        (EndsWait pool.now kind result.1 hand.old hand.new) result.0 }
    ensures makes { IfOk result.0 (λ next.
        MakesRound pool.now kind waiter turn is_over next result.1 hand.old hand.new) }
{
    match begin(pool, hand, kind, is_over) {
        Ok(None) => {
            let (next, told) = pool.wait_on(hand, kind, waiter, false, turn);
            (Ok(next), told)
        }
        Ok(Some(end)) => (Ok(end), end_wait(pool, hand, kind)),
        Err(fault) => (Err(fault), end_wait(pool, hand, kind)),
    }
}

/// Returns how the wait ends before the round, or `None` if the hand can make it: at once, or after a get that found none.
fn begin(
    pool: &Pool<u64>,
    hand: &mut Hand<u64>,
    kind: Kind,
    is_over: bool,
) -> Result<Option<Next>, TagFault>
    requires { IsHandOf pool.now hand.old }
    ensures hand { IsStillOf pool.now hand.old hand.new }
    ensures refusals { RefusesBy (round_checks kind is_over pool.now hand.old) (hand.new ≡ hand.old) result }
    ensures begins { IfOk result (λ end. Begins pool.now kind is_over end hand.old hand.new) }
{
    if pool.layout(kind).depth() == 0 {
        return Err(kind.no_tag());
    }
    if is_over {
        return Ok(Some(Next::Over));
    }
    if hand.can_wait(kind) {
        return Ok(None);
    }
    let Ok(found) = pool.get_in_quietly(hand, kind) else {
        return Err(TagFault::Spent);
    };
    match found.answer {
        Some(tag) => Ok(Some(Next::Won(tag))),
        None => Ok(None),
    }
}

/// Ends the hand's wait: it gets up, and then sees to all tags of this kind.
fn end_wait(pool: &Pool<u64>, hand: &mut Hand<u64>, kind: Kind) -> Told
    requires { IsHandOf pool.now hand.old }
    ensures hand { IsStillOf pool.now hand.old hand.new }
    ensures ends { EndsWait pool.now kind result hand.old hand.new }
{
    pool.get_up(hand, kind);
    pool.see_to_all(hand, kind)
}
