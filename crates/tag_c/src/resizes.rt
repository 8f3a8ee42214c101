//! Resizing a pool whose hands are all back.
ghost use Rattle.std.specs.Prelude.{◌≡◌, All};
ghost use Rattle.std.specs.Arc.{arc_value};
ghost use Rattle.tag_pool.specs.Hands.{IsHandOf, reserved_of};
ghost use Rattle.tag_pool.specs.Resizing.{HasRange};
ghost use Rattle.tag_c.specs.Resizes.{status_of_cause, EndsResize, ResizesAs, ResizesBy};

use crate::handle::Handle;
use crate::object::{Kind, Object};
use crate::pool::OpenPool;
use crate::pool_state::PoolState;
use crate::status::Status;
use core::mem::replace_with;
use std::alloc::Global;
use std::sync::Arc;
use tag_pool::{Hand, MAX_DEPTH, OpenFault, Pool, PoolResizeFault, ResizeCause};

/// Returns the status for the cause that refused a resize.
fn status_of(cause: ResizeCause) -> Status
    ensures { result ≡ status_of_cause cause }
{
    match cause {
        ResizeCause::Missing(_) => Status::HandLost,
        ResizeCause::DepthTooLarge => Status::NotOpened(OpenFault::TotalTooLarge),
        ResizeCause::InUse(_, _) => Status::InUse,
        ResizeCause::Waiting(_) => Status::HandsWait,
        ResizeCause::Memory => Status::NotOpened(OpenFault::Memory),
    }
}

impl PoolState {
    /// Resizes the tags with the spare hands and those that left, and returns all of them. If the resize is refused, the
    /// tags and the hands continue as they were.
    fn resize(self, request: (Global, u32, Vec<Hand<u64>>)) -> (PoolState, (Vec<Hand<u64>>, Status))
        requires own { All (IsHandOf self.tags) request.2.items }
        requires range { HasRange request.1 (reserved_of self.tags) }
        ensures own { All (IsHandOf result.0.tags) result.1.0.items }
        ensures ends { EndsResize request.1 self.tags request.2.items result.1.1 result.0.tags result.1.0.items }
        ensures cache { result.0.cache ≡ self.cache }
    {
        let (alloc, total, spare) = request;
        let (former, reserved, cache) = (self.total, self.reserved, self.cache);
        let (tags, hands, mut cells) = self.part(spare);
        match Pool::resize(alloc, tags, hands, total) {
            Ok((tags, hands)) => {
                let members = &hands[..cells.len()];
                cells.clear();
                let shared = PoolState::with_cells(tags, total, reserved, cache, members, cells);
                (shared, (hands, Status::Done))
            }
            Err(
                PoolResizeFault {
                    cause,
                    pool: tags,
                    hands,
                },
            ) => {
                let shared = PoolState {
                    tags,
                    total: former,
                    reserved,
                    cache,
                    cells,
                };
                (shared, (hands, status_of(cause)))
            }
        }
    }
}

impl OpenPool {
    /// Continues with this many tags, as many of them reserved as before, if all hands are back, no tag is in use and no hand
    /// waits.
    pub(crate) fn resize(self, request: (Global, u32)) -> (OpenPool, Status)
        ensures ends { EndsResize request.1 (arc_value self.shared).tags self.spare.items result.1
            (arc_value result.0.shared).tags result.0.spare.items }
        ensures cache { (arc_value result.0.shared).cache ≡ (arc_value self.shared).cache }
    {
        let (alloc, total) = request;
        if total > MAX_DEPTH {
            return (self, Status::NotOpened(OpenFault::TotalTooLarge));
        }
        if total < self.shared.reserved {
            return (self, Status::NotOpened(OpenFault::ReservedTooLarge));
        }
        let OpenPool { mut shared, spare } = self;
        let Some(inner) = Arc::get_mut(&mut shared) else {
            return (OpenPool { shared, spare }, Status::HandsOut);
        };
        let (spare, status) = replace_with(inner, (alloc, total, spare), PoolState::resize);
        (OpenPool { shared, spare }, status)
    }
}

impl Object {
    /// Resizes a pool. A hand is refused.
    pub(crate) fn resize(&mut self, alloc: Global, total: u32) -> i32
        ensures { ResizesAs total result self.old.kind self.new.kind }
    {
        let Kind::Pool(pool) = &mut self.kind else {
            return Status::BadHandle.code();
        };
        replace_with(pool, (alloc, total), OpenPool::resize).code()
    }
}

#[unsafe(no_mangle)]
pub extern "C" fn tags_resize(alloc: Global, pool: &mut Handle, total: u32) -> i32
    ensures { ResizesBy total result pool.old.object.value pool.new.object.value }
{
    let Some(object) = pool.lend() else {
        return Status::BadHandle.code();
    };
    object.resize(alloc, total)
}
