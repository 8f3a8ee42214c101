//! How records move from seat to seat.
ghost use Rattle.std.specs.Prelude.{[]};
ghost use Rattle.step_ledger.specs.Views.{viewing, first_view, other_views, both_views};

use crate::record::View;
use atomic_table::{Join, Split};

/// Moves the first record to a new seat.
pub struct HandOut;

impl<P> Split<View<P>> for HandOut {
    ghost left = { other_views };

    ghost right = { first_view };
}

/// Moves all records of one seat to another.
pub struct Collect;

impl<P> Join<View<P>> for Collect {
    ghost both = { both_views };

    ghost spent = { viewing [] };
}
