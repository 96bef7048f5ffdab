//! Where a handle keeps a function's type.
ghost use Rattle.std.specs.Prelude.{◌≡◌, is_some, true, Option, Some, None};
ghost use Rattle.std.specs.Borrow.{sem};
ghost use Rattle.wave_type.specs.FunctionType.{FunctionType};
ghost use Rattle.wave_handle.specs.Private.Slots.{stored_function_type};

use crate::parts::Parts;
use std::alloc::Global;
use std::marker::Model;
use std::ptr;
use wave_type::func::FuncType;

/// A box's pointer, without its type, and its allocator; or a null pointer. To drop it is to leak the
/// box, so a handle takes that out first.
#[repr(C)]
#[derive(Drop)]
pub struct FuncTypeSlot {
    at: *mut u8,
    alloc: Global,
    pub ghost value: { Option FunctionType } by { stored_function_type },
}

impl Model for FuncTypeSlot {
    ghost use Rattle.wave_handle.specs.Private.Slots.{function_type_slot_owns};

    ghost also_owns = { λ s. function_type_slot_owns s.alloc s.at s.value };
}

impl FuncTypeSlot {
    ghost use Rattle.wave_handle.specs.Private.FuncTypeSlot.{LendsFunctionType};

    pub(crate) fn empty(alloc: Global) -> FuncTypeSlot
        ensures { result.value ≡ None }
    {
        FuncTypeSlot {
            at: ptr::null_mut(),
            alloc,
        }
    }

    pub(crate) fn of_parts(parts: Parts<FuncType, Global>) -> FuncTypeSlot
        ensures { result.value ≡ Some parts.value }
    {
        let Parts { at, alloc } = parts;
        FuncTypeSlot {
            at: at as *mut u8,
            alloc,
        }
    }

    pub(crate) fn into_parts(self) -> Parts<FuncType, Global>
        requires { is_some self.value ≡ true }
        ensures { self.value ≡ Some result.value }
    {
        let FuncTypeSlot { at, alloc } = self;
        Parts {
            at: at as *mut FuncType,
            alloc,
        }
    }

    /// What is in the box.
    pub(crate) fn lent(&mut self) -> &mut FuncType
        requires { is_some self.old.value ≡ true }
        ensures* writes_back { sem 𝓛 (LendsFunctionType self.entry result) }
        ensures value { self.old.value ≡ Some result.now }
    {
        unsafe { &mut *(self.at as *mut FuncType) }
    }
}
