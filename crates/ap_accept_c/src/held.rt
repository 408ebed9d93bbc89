//! A service behind a pointer, as C holds it.
ghost use Rattle.std.specs.Prelude.{◌≡◌, Option, Some, None, IsSome};
ghost use Rattle.ap_accept_c.specs.Held.{option_coded, owned_if};
ghost use Rattle.ap_accept_c.specs.declared.service.Service.{Service};

use crate::parts::Parts;
use crate::service::Service;
use std::alloc::Global;
use std::marker::Model;
use std::ptr;

/// A boxed service, or none.
///
/// A type that owns memory can't cross to C by itself, so the pointer is one to a byte.
#[repr(C)]
#[derive(Drop)]
pub struct Held {
    at: *mut u8,
    alloc: Global,
    pub ghost value: { Option Service } by { option_coded },
}

impl Model for Held {
    ghost also_owns = { λ h. owned_if h.alloc h.at h.value };
}

impl Held {
    /// Returns the pointer that owns this service.
    pub fn of(service: Box<Service>) -> Held
        ensures { result.value ≡ Some service.value }
    {
        Held::of_parts(Parts::of(service))
    }

    /// Returns the service. There must be one.
    pub fn into_box(self) -> Box<Service>
        requires { IsSome self.value }
        ensures { self.value ≡ Some result.value }
    {
        self.into_parts().into_box()
    }

    /// Returns a null pointer, which holds no service.
    pub fn none(alloc: Global) -> Held
        ensures { result.value ≡ None }
    {
        Held {
            at: ptr::null_mut(),
            alloc,
        }
    }

    fn of_parts(parts: Parts<Service, Global>) -> Held
        ensures { result.value ≡ Some parts.value }
    {
        let Parts { ptr, alloc } = parts;
        Held {
            at: ptr as *mut u8,
            alloc,
        }
    }

    fn into_parts(self) -> Parts<Service, Global>
        requires { IsSome self.value }
        ensures { self.value ≡ Some result.value }
    {
        let Held { at, alloc } = self;
        Parts {
            ptr: at as *mut Service,
            alloc,
        }
    }
}
