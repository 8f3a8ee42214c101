//! Totals of tags.
use tag_model::Totals;

/// Tags got, given back, held and posted.
pub(crate) fn totals(got: u64, back: u64, held: u64, posted: u64) -> Totals {
    Totals {
        got,
        back,
        held,
        posted,
    }
}
