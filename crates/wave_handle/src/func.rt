//! A handle of a function's type.
ghost use Rattle.std.specs.Prelude.{◌≡◌, is_some, Some, None, IfOk, IfErr, MatchOption, option_copied};
ghost use Rattle.std.specs.Borrow.{sem};

use self::slot::FuncTypeSlot;
use crate::parts::Parts;
use std::alloc::{AllocError, Global};
use wave_type::func::FuncType;

pub(crate) mod slot;

/// A handle: open, it holds a function's type, which lies on the heap; closed, nothing. In C it is
/// `struct { void *at; bool full; }`, which `{0}` closes and the calls alone change. It is handed on by
/// its address: whoever copies it has what it holds twice.
#[repr(C)]
pub struct FuncTypeHandle {
    slot: FuncTypeSlot,
    full: bool,
    alloc: Global,
    ghost agrees: { full ≡ is_some slot.value },
}

impl FuncTypeHandle {
    ghost use Rattle.wave_handle.specs.FuncTypeHandle.{held_function_type, KeepsFunctionType};

    /// A closed handle.
    pub fn closed(alloc: Global) -> FuncTypeHandle
        ensures { held_function_type result ≡ None }
    {
        FuncTypeHandle {
            slot: FuncTypeSlot::empty(alloc),
            full: false,
            alloc,
        }
    }

    fn holding(alloc: Global, value: FuncType) -> Result<FuncTypeHandle, AllocError>
        ensures { IfOk result (λ h. held_function_type h ≡ Some value) }
    {
        let boxed = Box::new(alloc, value)?;
        Ok(FuncTypeHandle {
            slot: FuncTypeSlot::of_parts(Parts::of(boxed)),
            full: true,
            alloc,
        })
    }

    /// Opens the handle, so that it holds this and no longer what it held, which is dropped. Without
    /// memory for it the handle stays as it is, open or closed, and this is dropped.
    pub fn open(&mut self, alloc: Global, value: FuncType) -> Result<(), AllocError>
        ensures opened { IfOk result (λ _. held_function_type self.new ≡ Some value) }
        ensures kept { IfErr result (λ _. self.new ≡ self.old) }
    {
        *self = FuncTypeHandle::holding(alloc, value)?;
        Ok(())
    }

    /// Closes the handle, and drops what it held, if it was open.
    pub fn close(&mut self)
        ensures { held_function_type self.new ≡ None }
    {
        *self = FuncTypeHandle::closed(self.alloc);
    }

    /// What the handle holds, if it is open. The handle stays as it is.
    pub fn get(&mut self) -> Option<&FuncType>
        ensures* kept { sem 𝓛 (KeepsFunctionType self.entry) }
        ensures value { option_copied result ≡ held_function_type self.old }
    {
        if self.full {
            let value: &FuncType = self.slot.lent();
            return Some(value);
        }
        None
    }

    fn into_box(self) -> Option<Box<FuncType>>
        ensures { MatchOption result (held_function_type self ≡ None) (λ b. held_function_type self ≡ Some b.value) }
    {
        let FuncTypeHandle {
            slot,
            full,
            alloc: _,
        } = self;
        if full {
            return Some(slot.into_parts().into_box());
        }
        None
    }
}

impl Drop for FuncTypeHandle {
    fn drop(self) {
        drop(self.into_box());
    }
}
