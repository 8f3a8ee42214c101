//! What is left of a map once its callers are gathered.
use crate::caller::Caller;
use crate::map::Map;
use step_ledger::GatherCause;
use tag_layout::Layout;
use tag_model::Totals;

/// A map that has ended.
#[derive(Drop)]
pub struct Closed<R> {
    /// How its tags are numbered.
    pub layout: Layout,
    /// The totals of its callers: tags won, given back, held and posted.
    pub totals: Totals,
    /// The slots of the tags, in order. The slot of a tag that is still held has some value.
    pub slots: Vec<R>,
}

/// Why a map was neither gathered nor settled, with everything that was passed in.
#[derive(Drop)]
pub struct GatherFault<R> {
    pub cause: GatherCause,
    pub map: Map<R>,
    /// In the order in which they were passed in.
    pub callers: Vec<Caller<R>>,
}
