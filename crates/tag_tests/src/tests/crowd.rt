//! How the callers of a stage meet, leave, return, and are gathered.
ghost use Rattle.std.specs.Prelude.{◌≡◌, All, IfSome};

use crate::tests::allocator::TagAllocator;
use crate::tests::stage::Stage;
use std::alloc::Global;
use std::mem::replace;
use std::test::Fail;
use tag_pool::{GatherCause, ResizeCause, Totals};

/// Puts the caller after the others.
fn put_back<T: TagAllocator>(
    tags: &T,
    callers: &mut Vec<T::Caller>,
    caller: T::Caller,
) -> Result<(), Fail>
    requires { All (T.is_own tags.now) callers.old.items × T.is_own tags.now caller }
    ensures { All (T.is_own tags.now) callers.new.items }
{
    callers.push(caller)?;
    Ok(())
}

/// Puts the other caller at this index and returns the one that was there, or the other one if the index is too high.
fn trade<T: TagAllocator>(
    tags: &T,
    callers: &mut Vec<T::Caller>,
    at: usize,
    other: T::Caller,
) -> T::Caller
    requires { All (T.is_own tags.now) callers.old.items × T.is_own tags.now other }
    ensures own { All (T.is_own tags.now) callers.new.items }
    ensures caller { T.is_own tags.now result }
{
    match callers.get_mut(at) {
        Some(caller) => replace(caller, other),
        None => other,
    }
}

/// Establishes that the second caller does not hold the tag, if the first one does. Returns whether the first holds it.
fn tell_apart<T: TagAllocator>(
    tags: &T,
    first: &mut T::Caller,
    second: &mut T::Caller,
    tag: u32,
) -> bool
    requires { T.is_own tags.now first.old × T.is_own tags.now second.old }
    ensures { T.is_own tags.now first.new × T.is_own tags.now second.new }
{
    if !tags.has(first, tag) {
        return false;
    }
    tags.apart(first, second, tag);
    true
}

impl<T: TagAllocator> Stage<T> {
    fn take_last(&mut self) -> Option<T::Caller>
        ensures tags { self.new.tags ≡ self.old.tags }
        ensures caller { IfSome result (T.is_own self.old.tags) }
    {
        self.callers.pop()
    }

    fn take_out(&mut self, at: usize) -> Option<T::Caller>
        ensures tags { self.new.tags ≡ self.old.tags }
        ensures caller { IfSome result (T.is_own self.old.tags) }
    {
        match self.take_last() {
            Some(last) => Some(trade(&self.tags, &mut self.callers, at, last)),
            None => None,
        }
    }

    fn meet_with(&mut self, at: usize, other: &mut T::Caller) -> bool
        requires { T.is_own self.old.tags other.old }
        ensures tags { self.new.tags ≡ self.old.tags }
        ensures caller { T.is_own self.old.tags other.new }
    {
        match self.callers.get_mut(at) {
            Some(caller) => {
                self.tags.meet(caller, other);
                true
            }
            None => false,
        }
    }

    /// Has the last caller meet another one.
    pub(crate) fn meet(&mut self, at: usize) -> Result<bool, Fail> {
        let Some(mut last) = self.take_last() else {
            return Ok(false);
        };
        let is_there = self.meet_with(at, &mut last);
        put_back(&self.tags, &mut self.callers, last)?;
        Ok(is_there)
    }

    fn apart_from(&mut self, at: usize, other: &mut T::Caller, tag: u32) -> bool
        requires { T.is_own self.old.tags other.old }
        ensures tags { self.new.tags ≡ self.old.tags }
        ensures caller { T.is_own self.old.tags other.new }
    {
        match self.callers.get_mut(at) {
            Some(caller) => tell_apart(&self.tags, caller, other, tag),
            None => false,
        }
    }

    /// Establishes that the last caller does not hold a tag that another one holds.
    pub(crate) fn apart(&mut self, at: usize, tag: u32) -> Result<bool, Fail> {
        let Some(mut last) = self.take_last() else {
            return Ok(false);
        };
        let is_held = self.apart_from(at, &mut last, tag);
        put_back(&self.tags, &mut self.callers, last)?;
        Ok(is_held)
    }

    /// Sends a caller away. The last one takes its place.
    pub(crate) fn send_away(&mut self, at: usize) -> Result<(), Fail> {
        if let Some(caller) = self.take_out(at) {
            put_back(&self.tags, &mut self.away, caller)?;
        }
        Ok(())
    }

    /// Brings the caller that went away last back, after the others.
    pub(crate) fn bring_back(&mut self) -> Result<(), Fail> {
        if let Some(caller) = self.away.pop() {
            put_back(&self.tags, &mut self.callers, caller)?;
        }
        Ok(())
    }

    /// Drops a caller. The last one takes its place.
    pub(crate) fn lose(&mut self, at: usize) {
        drop(self.take_out(at));
    }

    pub(crate) fn gather(self) -> Result<Totals, (GatherCause, Stage<T>)> {
        let Stage {
            tags,
            callers,
            away,
        } = self;
        match tags.gather(callers) {
            Ok(totals) => Ok(totals),
            Err((cause, tags, callers)) => Err((
                cause,
                Stage {
                    tags,
                    callers,
                    away,
                },
            )),
        }
    }

    pub(crate) fn close(self) -> Result<Totals, Fail> {
        match self.gather() {
            Ok(totals) => Ok(totals),
            Err(_) => Err(Fail::new("a caller is missing")),
        }
    }

    /// Makes a gather that must be refused, and returns the cause, with the stage that was handed back.
    pub(crate) fn missing(self) -> Result<(GatherCause, Stage<T>), Fail> {
        match self.gather() {
            Ok(_) => Err(Fail::new("no caller is missing")),
            Err(refused) => Ok(refused),
        }
    }

    /// Resizes the tags with the callers that are present. Those that are away are dropped.
    pub(crate) fn resize(
        self,
        alloc: Global,
        count: u32,
    ) -> Result<Stage<T>, (ResizeCause, Stage<T>)> {
        let Stage {
            tags,
            callers,
            away,
        } = self;
        match tags.resize(alloc, callers, count) {
            Ok((tags, callers)) => Ok(Stage::of(alloc, tags, callers)),
            Err((cause, tags, callers)) => Err((
                cause,
                Stage {
                    tags,
                    callers,
                    away,
                },
            )),
        }
    }

    pub(crate) fn resized(self, alloc: Global, count: u32) -> Result<Stage<T>, Fail> {
        match self.resize(alloc, count) {
            Ok(resized) => Ok(resized),
            Err(_) => Err(Fail::new("a resize is refused")),
        }
    }

    /// Makes a resize that must be refused, and returns the cause, with the stage that was handed back.
    pub(crate) fn refused(
        self,
        alloc: Global,
        count: u32,
    ) -> Result<(ResizeCause, Stage<T>), Fail> {
        match self.resize(alloc, count) {
            Ok(_) => Err(Fail::new("a resize is not refused")),
            Err(refused) => Ok(refused),
        }
    }
}
