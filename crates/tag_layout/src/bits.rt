//! The search for a 0 bit in one word.
ghost use Rattle.std.specs.Prelude.{ℕ, ◌≤◌, MatchOption};
ghost use Rattle.tag_layout.specs.Bits.{IsFirstClear, AllSet};

/// Returns the least place in `from .. limit` whose bit is 0. `limit` is at most 64.
pub fn first_clear(bits: u64, from: u32, limit: u32) -> Option<u32>
    requires { limit ≤ 64 }
    ensures { MatchOption result (AllSet bits from limit) (IsFirstClear bits from limit) }
{
    if from >= limit {
        return None;
    }
    let clear = !bits >> from;
    let place = from + clear.trailing_zeros();
    if place < limit { Some(place) } else { None }
}
