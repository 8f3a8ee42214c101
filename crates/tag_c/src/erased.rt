//! A pointer to an object, without its type.
ghost use Rattle.std.specs.Prelude.{◌≡◌, Option, Some, None};
ghost use Rattle.std.specs.Borrow.{sem};
ghost use Rattle.std.specs.Coded.{coded_option};
ghost use Rattle.tag_c.specs.Held.{held};
ghost use Rattle.tag_c.specs.contracts.object.Object.{the_row};
ghost use Rattle.tag_c.specs.declared.object.Object.{Object};

use crate::box_parts::BoxParts;
use crate::object::Object;
use std::alloc::Global;
use std::marker::Model;

/// An object or none, behind a pointer to bytes, which a struct of C can hold.
#[repr(C)]
#[derive(Drop)]
pub struct ErasedPointer {
    at: *mut u8,
    alloc: Global,
    pub ghost value: { Option Object } by { coded_option the_row.coded },
}

impl Model for ErasedPointer {
    ghost also_owns = { λ h. held h.alloc h.at h.value };
}

impl ErasedPointer {
    ghost use Rattle.tag_c.specs.Lending.{LendsObject};

    /// Returns a null pointer, with no object.
    pub(crate) fn empty(alloc: Global) -> ErasedPointer
        ensures { result.value ≡ None }
    {
        ErasedPointer {
            at: std::ptr::null_mut(),
            alloc,
        }
    }

    /// Drops the type of the pointer, and keeps the object.
    pub(crate) fn erase(parts: BoxParts<Object, Global>) -> ErasedPointer
        ensures { result.value ≡ Some parts.value }
    {
        let BoxParts { at, alloc } = parts;
        ErasedPointer {
            at: at as *mut u8,
            alloc,
        }
    }

    /// Gives the pointer its type back. There must be an object.
    pub(crate) fn restore(self) -> BoxParts<Object, Global>
        requires { (x : Object) × (self.value ≡ Some x) }
        ensures { self.value ≡ Some result.value }
    {
        let ErasedPointer { at, alloc } = self;
        BoxParts {
            at: at as *mut Object,
            alloc,
        }
    }

    /// Lends the object. There must be one.
    pub(crate) fn lend(&mut self) -> &mut Object
        requires { (x : Object) × (self.old.value ≡ Some x) }
        ensures* writes_back { sem 𝓛 (LendsObject self.entry result) }
        ensures value { self.old.value ≡ Some result.now }
    {
        unsafe { &mut *(self.at as *mut Object) }
    }
}
