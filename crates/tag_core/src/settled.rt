//! A map together with all its callers.
ghost use Rattle.std.specs.Prelude.{◌≡◌, map, All};
ghost use Rattle.tag_core.specs.Callers.{IsCallerOf, record_of};
ghost use Rattle.tag_core.specs.Settling.{AreSettled};

use crate::caller::Caller;
use crate::map::Map;
use tag_model::Totals;

/// A map and all its callers, so that nobody else acts on it. They are returned unchanged, or go on with a new map.
#[derive(Drop)]
pub struct Settled<R> {
    pub(crate) tags: Map<R>,
    /// In the order in which they were passed in.
    pub(crate) callers: Vec<Caller<R>>,
    /// Their totals: tags won, given back, held and posted.
    pub(crate) totals: Totals,
    ghost own: { All (λ c. IsCallerOf tags c) callers.items },
    ghost known: { ∥ AreSettled tags.shape (map record_of callers.items) totals ∥₁ },
}
