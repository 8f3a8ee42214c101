//! Clients of a pool.
ghost use Rattle.std.specs.Prelude.{◌≡◌, All, IfOk};
ghost use Rattle.tag_pool.specs.Hands.{IsHandOf};

use std::alloc::Global;
use tag_pool::{Hand, Kind, Options, Pool, TagFault, Totals, Turn, Waiter};

/// Gets a tag, writes its value and reads it, hands the tag over to itself, and clears it. Returns the value read.
pub fn serve_from_pool(pool: &Pool<u64>, hand: &mut Hand<u64>, value: u64) -> Result<u64, TagFault>
    requires { IsHandOf pool.now hand.old }
    ensures hand { IsHandOf pool.now hand.new }
    ensures value { IfOk result (λ found. found ≡ value) }
{
    let Some(tag) = pool.get(hand)?.answer else {
        return Ok(value);
    };
    pool.write(hand, tag, value)?;
    let found = pool.read(hand, tag)?;
    pool.post(hand, tag)?;
    pool.take(hand, tag)?;
    pool.clear(hand, tag)?;
    Ok(found)
}

/// Waits while it gets a batch and a reserved tag, clears a tag of each kind, and sees to the others. Returns whether
/// it was told.
pub fn see_to_others(pool: &Pool<u64>, hand: &mut Hand<u64>) -> Result<bool, TagFault>
    requires { IsHandOf pool.now hand.old }
    ensures { IsHandOf pool.now hand.new }
{
    pool.list_self(hand, Kind::Ordinary, Waiter::Listener, Turn::Next);
    let batch = pool.get_batch(hand, 2)?.answer;
    let reserved = pool.get_reserved(hand)?.answer;
    let told = pool.get_up(hand, Kind::Ordinary);
    let Some((first, _)) = batch else {
        return Ok(false);
    };
    let Some(tag) = reserved else {
        return Ok(false);
    };
    pool.clear_batch(hand, &[first])?;
    pool.clear(hand, tag)?;
    pool.wake_next(hand, Kind::Ordinary);
    Ok(told)
}

/// Opens a pool, resizes it, and gathers its hands. `None` if memory runs out.
pub fn open_and_end_pool(alloc: Global) -> Option<Totals> {
    let options = Options::new(8, 2).with_reserved(2);
    let Ok((pool, hands)) = Pool::open(alloc, options, 0u64) else {
        return None;
    };
    let Ok((pool, hands)) = Pool::resize(alloc, pool, hands, 16) else {
        return None;
    };
    let Ok(totals) = Pool::gather(pool, hands) else {
        return None;
    };
    Some(totals)
}
