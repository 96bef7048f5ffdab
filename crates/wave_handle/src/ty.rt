//! A handle of a type of values.
ghost use Rattle.std.specs.Prelude.{◌≡◌, is_some, Some, None, IfOk, IfErr, MatchOption, option_copied};
ghost use Rattle.std.specs.Borrow.{sem};

use self::slot::TypeSlot;
use crate::parts::Parts;
use std::alloc::{AllocError, Global};
use wave_type::ty::Type;

pub(crate) mod slot;

/// A handle: open, it holds a type of values, which lies on the heap; closed, nothing. In C it is
/// `struct { void *at; bool full; }`, which `{0}` closes and the calls alone change. It is handed on by
/// its address: whoever copies it has what it holds twice.
#[repr(C)]
pub struct TypeHandle {
    slot: TypeSlot,
    full: bool,
    alloc: Global,
    ghost agrees: { full ≡ is_some slot.value },
}

impl TypeHandle {
    ghost use Rattle.wave_handle.specs.TypeHandle.{held_type, KeepsType};

    /// A closed handle.
    pub fn closed(alloc: Global) -> TypeHandle
        ensures { held_type result ≡ None }
    {
        TypeHandle {
            slot: TypeSlot::empty(alloc),
            full: false,
            alloc,
        }
    }

    fn holding(alloc: Global, value: Type) -> Result<TypeHandle, AllocError>
        ensures { IfOk result (λ h. held_type h ≡ Some value) }
    {
        let boxed = Box::new(alloc, value)?;
        Ok(TypeHandle {
            slot: TypeSlot::of_parts(Parts::of(boxed)),
            full: true,
            alloc,
        })
    }

    /// Opens the handle, so that it holds this and no longer what it held, which is dropped. Without
    /// memory for it the handle stays as it is, open or closed, and this is dropped.
    pub fn open(&mut self, alloc: Global, value: Type) -> Result<(), AllocError>
        ensures opened { IfOk result (λ _. held_type self.new ≡ Some value) }
        ensures kept { IfErr result (λ _. self.new ≡ self.old) }
    {
        *self = TypeHandle::holding(alloc, value)?;
        Ok(())
    }

    /// Closes the handle, and drops what it held, if it was open.
    pub fn close(&mut self)
        ensures { held_type self.new ≡ None }
    {
        *self = TypeHandle::closed(self.alloc);
    }

    /// What the handle holds, if it is open. The handle stays as it is.
    pub fn get(&mut self) -> Option<&Type>
        ensures* kept { sem 𝓛 (KeepsType self.entry) }
        ensures value { option_copied result ≡ held_type self.old }
    {
        if self.full {
            let value: &Type = self.slot.lent();
            return Some(value);
        }
        None
    }

    fn into_box(self) -> Option<Box<Type>>
        ensures { MatchOption result (held_type self ≡ None) (λ b. held_type self ≡ Some b.value) }
    {
        let TypeHandle {
            slot,
            full,
            alloc: _,
        } = self;
        if full {
            return Some(slot.into_parts().into_box());
        }
        None
    }
}

impl Drop for TypeHandle {
    fn drop(self) {
        drop(self.into_box());
    }
}
