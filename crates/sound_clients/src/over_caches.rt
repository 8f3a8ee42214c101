//! Clients of a cache.
ghost use Rattle.std.specs.Prelude.{◌≡◌, IfOk};
ghost use Rattle.tag_cache.specs.Caches.{IsCacheOf};

use tag_cache::{Cache, Pool, TagFault};
use tag_pool::{Kind, Turn, Waiter};

/// Gets a tag, writes its value and reads it, hands the tag over to itself, and clears it. Returns the value read.
pub fn serve_from_cache(
    cache: &mut Cache<u64>,
    pool: &Pool<u64>,
    value: u64,
) -> Result<u64, TagFault>
    requires { IsCacheOf pool.now cache.old }
    ensures cache { IsCacheOf pool.now cache.new }
    ensures value { IfOk result (λ found. found ≡ value) }
{
    let Some(tag) = cache.get(pool)?.answer else {
        return Ok(value);
    };
    cache.write(pool, tag, value)?;
    let found = cache.read(pool, tag)?;
    cache.post(pool, tag)?;
    cache.take(pool, tag)?;
    cache.clear(pool, tag)?;
    Ok(found)
}

/// Gets a batch while others can tell it of tags, clears its first tag, sees to those who wait, and flushes what is kept.
/// Returns how many tags of the batch its user still holds.
pub fn flush_after_batch(cache: &mut Cache<u64>, pool: &Pool<u64>) -> Result<u32, TagFault>
    requires { IsCacheOf pool.now cache.old }
    ensures { IsCacheOf pool.now cache.new }
{
    cache.list_self(pool, Kind::Ordinary, Waiter::Sleeper, Turn::Next);
    let batch = cache.get_batch(pool, 2)?.answer;
    cache.get_up(pool, Kind::Ordinary);
    let Some((first, mask)) = batch else {
        return Ok(0);
    };
    cache.clear_batch(pool, &[first])?;
    cache.wake_next(pool, Kind::Ordinary);
    cache.flush(pool);
    let left = mask.count_ones().saturating_sub(1);
    Ok(left)
}
