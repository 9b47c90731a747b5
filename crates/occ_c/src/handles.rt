//! Handles: what C has of a desk.
ghost use Rattle.std.specs.Prelude.{◌≡◌};
ghost use Rattle.occ_c.specs.declared.desks.Desk.{Desk};
ghost use Rattle.occ_c.specs.Handles.{desk_coded, desk_owns};

mod parts;

use crate::desks::Desk;
use parts::Parts;
use std::alloc::Global;
use std::marker::Model;

/// What a handle points to, for C.
#[repr(C)]
#[derive(Drop)]
pub struct Opaque {
    byte: u8,
}

/// A handle of a desk. C has the address alone, and gives it to one call at a time.
#[repr(C)]
pub struct Handle {
    at: *mut Opaque,
    alloc: Global,
    pub ghost desk: { Desk } by { desk_coded },
}

impl Model for Handle {
    ghost also_owns = { λ h. desk_owns h.alloc h.at h.desk };
}

impl Handle {
    /// The handle of a desk.
    pub(crate) fn of(desk: Box<Desk>) -> Handle
        ensures { result.desk ≡ desk.value }
    {
        Handle::of_parts(Parts::of(desk))
    }

    /// The desk of a handle.
    pub(crate) fn into_box(self) -> Box<Desk>
        ensures { result.value ≡ self.desk }
    {
        self.into_parts().into_box()
    }

    fn of_parts(parts: Parts<Desk, Global>) -> Handle
        ensures { result.desk ≡ parts.value }
    {
        let Parts { ptr, alloc } = parts;
        Handle {
            at: ptr as *mut Opaque,
            alloc,
        }
    }

    fn into_parts(self) -> Parts<Desk, Global>
        ensures { result.value ≡ self.desk }
    {
        let Handle { at, alloc } = self;
        Parts {
            ptr: at as *mut Desk,
            alloc,
        }
    }
}

/// The address of a desk, for C, which has it from then on.
pub(crate) fn leak(desk: Box<Desk>) -> *mut Opaque {
    Box::into_raw(desk) as *mut Opaque
}
