//! Options and totals.
use tag_pool::{Options, Totals};

/// The initial value of each slot.
pub(crate) const FILL: u64 = 9;

/// Options for this many tags, of which so many are reserved, and hands.
pub(crate) fn tags(depth: u32, reserved: u32, hands: u32) -> Options {
    Options::new(depth, hands).with_reserved(reserved)
}

/// Tags got, given back, held and posted.
pub(crate) fn totals(got: u64, back: u64, held: u64, posted: u64) -> Totals {
    Totals {
        got,
        back,
        held,
        posted,
    }
}
