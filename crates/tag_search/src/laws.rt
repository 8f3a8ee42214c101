//! Laws of the search. These functions do nothing: the contract of each is a law over all histories of a shared map.
ghost use Rattle.tag_search.specs.AloneLaws.{AloneGetsChoose, AloneBatchesChoose};

/// On a map with one caller, a get answers the choice over what that caller's earlier steps left.
pub fn alone_gets_choose<R>()
    ensures { AloneGetsChoose R }
{}

/// The same for a get of several tags.
pub fn alone_batches_choose<R>()
    ensures { AloneBatchesChoose R }
{}
