//! Converts the options that C passes and the totals that it gets.
ghost use Rattle.std.specs.Prelude.{◌≡◌};
ghost use Rattle.tag_c.specs.Exports.{options_of, sums_of, terms_of};

use crate::cached::CacheTerms;
use crate::structs::{BY_HANDS, ROUND_ROBIN, RequestedOptions, Sums, WHILE_HOLDING};
use tag_cache::Keeping;
use tag_pool::{MOST_WON, Options, Totals};

/// Returns the options as `tag_pool` takes them. A negative shift and a `min_shallow` of 0 become `None`, and each hand
/// may win as much as the limit allows. The words are for the number of hands if the shift is `BY_HANDS`.
pub(crate) fn read_options(requested: &RequestedOptions) -> Options
    ensures { result ≡ options_of requested.now }
{
    let shift = if requested.shift < 0 {
        None
    } else {
        Some(requested.shift as u32)
    };
    let min_shallow = if requested.min_shallow == 0 {
        None
    } else {
        Some(requested.min_shallow)
    };
    Options {
        depth: requested.total,
        reserved: requested.reserved,
        hands: requested.hands,
        shift,
        by_hands: requested.shift == BY_HANDS,
        round_robin: requested.flags == ROUND_ROBIN,
        min_shallow,
        life: MOST_WON,
    }
}

/// Returns the terms on which the hands of a pool keep tags: `WHILE_HOLDING`, or always.
pub(crate) fn read_terms(most: u32, keeping: u32) -> CacheTerms
    ensures { result ≡ terms_of most keeping }
{
    let keeping = if keeping == WHILE_HOLDING {
        Keeping::WhileHolding
    } else {
        Keeping::Always
    };
    CacheTerms { most, keeping }
}

/// Returns the totals of a pool as C sees them.
pub(crate) fn read_sums(totals: Totals) -> Sums
    ensures { result ≡ sums_of totals }
{
    Sums {
        got: totals.got,
        back: totals.back,
        held: totals.held,
        posted: totals.posted,
    }
}
