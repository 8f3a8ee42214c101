//! Tags with their callers, for tests of one thread.
ghost use Rattle.std.specs.Prelude.{All};
ghost use Rattle.tag_tests.specs.Owning.{All-fact};

use crate::tests::allocator::TagAllocator;
use std::alloc::Global;

/// Tags and their callers, which tests name by their index in the list, from 0.
#[derive(Drop)]
pub(crate) struct Stage<T: TagAllocator> {
    pub(crate) tags: T,
    pub(crate) callers: Vec<T::Caller>,
    /// Callers that were sent away, and are absent when the others are gathered.
    pub(crate) away: Vec<T::Caller>,
    ghost own: { All (T.is_own tags) callers.items } by { All-fact T.is_own T.is_fact tags callers.items },
    ghost own_away: { All (T.is_own tags) away.items } by { All-fact T.is_own T.is_fact tags away.items },
}

impl<T: TagAllocator> Stage<T> {
    pub(crate) fn of(alloc: Global, tags: T, callers: Vec<T::Caller>) -> Stage<T>
        requires { All (T.is_own tags) callers.items }
    {
        Stage {
            tags,
            callers,
            away: Vec::new(alloc),
        }
    }

    pub(crate) fn number(&self, at: usize) -> Option<u32> {
        Some(T::number(self.callers.get(at)?))
    }

    /// Returns how many callers are present.
    pub(crate) fn count(&self) -> usize {
        self.callers.len()
    }
}
