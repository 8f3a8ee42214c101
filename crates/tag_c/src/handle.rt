//! The handle by which C refers to a pool or a hand.
ghost use Rattle.std.specs.Prelude.{◌≡◌, Some, None, IfSome, IfNone};
ghost use Rattle.std.specs.Borrow.{sem};
ghost use Rattle.tag_c.specs.Held.{flag_of};

use crate::box_parts::BoxParts;
use crate::erased::ErasedPointer;
use crate::object::Object;
use std::alloc::Global;
use std::mem::replace;

/// A flag and a pointer to the object that the handle owns. If all bytes are 0, the handle is empty.
#[repr(C)]
#[derive(Drop)]
pub struct Handle {
    /// 1 if there is an object, 0 if the handle is empty.
    pub full: u64,
    pub object: ErasedPointer,
    ghost held: { full ≡ flag_of object.value },
}

impl Handle {
    ghost use Rattle.tag_c.specs.Lending.{LendsIfFull};

    /// Returns an empty handle.
    pub(crate) fn empty(alloc: Global) -> Handle
        ensures { result.object.value ≡ None }
    {
        Handle {
            full: 0,
            object: ErasedPointer::empty(alloc),
        }
    }

    /// Returns a handle that owns this object.
    pub(crate) fn of(object: Box<Object, Global>) -> Handle
        ensures { result.object.value ≡ Some object.value }
    {
        Handle {
            full: 1,
            object: ErasedPointer::erase(BoxParts::of(object)),
        }
    }

    /// Returns the object, or `None` if the handle is empty.
    pub(crate) fn into_box(self) -> Option<Box<Object, Global>>
        ensures some { IfSome result (λ object. self.object.value ≡ Some object.value) }
        ensures none { IfNone result (self.object.value ≡ None) }
    {
        let Handle { full, object } = self;
        if full == 1 {
            Some(object.restore().into_box())
        } else {
            None
        }
    }

    /// Lends the object, or returns `None` if the handle is empty.
    pub(crate) fn lend(&mut self) -> Option<&mut Object>
        ensures* writes_back { sem 𝓛 (LendsIfFull self.entry result) }
        ensures some { IfSome result (λ object. self.old.object.value ≡ Some object.now) }
        ensures none { IfNone result (self.old.object.value ≡ None) }
    {
        if self.full == 1 {
            Some(self.object.lend())
        } else {
            None
        }
    }

    /// Takes the object out and leaves the handle empty. Returns `None` if it was empty before.
    pub(crate) fn take(&mut self, alloc: Global) -> Option<Box<Object, Global>>
        ensures some { IfSome result (λ object. self.old.object.value ≡ Some object.value) }
        ensures none { IfNone result (self.old.object.value ≡ None) }
        ensures empty { self.new.object.value ≡ None }
    {
        replace(self, Handle::empty(alloc)).into_box()
    }
}
