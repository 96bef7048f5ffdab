//! Where a handle keeps a type of values.
ghost use Rattle.std.specs.Prelude.{◌≡◌, is_some, true, Option, Some, None};
ghost use Rattle.std.specs.Borrow.{sem};
ghost use Rattle.wave_wasm.specs.Types.{TypeTree};
ghost use Rattle.wave_handle.specs.Private.Slots.{stored_type};

use crate::parts::Parts;
use std::alloc::Global;
use std::marker::Model;
use std::ptr;
use wave_type::ty::Type;

/// A box's pointer, without its type, and its allocator; or a null pointer. To drop it is to leak the
/// box, so a handle takes that out first.
#[repr(C)]
#[derive(Drop)]
pub struct TypeSlot {
    at: *mut u8,
    alloc: Global,
    pub ghost value: { Option TypeTree } by { stored_type },
}

impl Model for TypeSlot {
    ghost use Rattle.wave_handle.specs.Private.Slots.{type_slot_owns};

    ghost also_owns = { λ s. type_slot_owns s.alloc s.at s.value };
}

impl TypeSlot {
    ghost use Rattle.wave_handle.specs.Private.TypeSlot.{LendsType};

    pub(crate) fn empty(alloc: Global) -> TypeSlot
        ensures { result.value ≡ None }
    {
        TypeSlot {
            at: ptr::null_mut(),
            alloc,
        }
    }

    pub(crate) fn of_parts(parts: Parts<Type, Global>) -> TypeSlot
        ensures { result.value ≡ Some parts.value }
    {
        let Parts { at, alloc } = parts;
        TypeSlot {
            at: at as *mut u8,
            alloc,
        }
    }

    pub(crate) fn into_parts(self) -> Parts<Type, Global>
        requires { is_some self.value ≡ true }
        ensures { self.value ≡ Some result.value }
    {
        let TypeSlot { at, alloc } = self;
        Parts {
            at: at as *mut Type,
            alloc,
        }
    }

    /// What is in the box.
    pub(crate) fn lent(&mut self) -> &mut Type
        requires { is_some self.old.value ≡ true }
        ensures* writes_back { sem 𝓛 (LendsType self.entry result) }
        ensures value { self.old.value ≡ Some result.now }
    {
        unsafe { &mut *(self.at as *mut Type) }
    }
}
