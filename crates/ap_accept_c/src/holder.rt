//! The acceptor as a C program holds it.
ghost use Rattle.std.specs.Prelude.{◌≡◌, None, Some, IfNone, IfSome};
ghost use Rattle.ap_accept_c.specs.Holder.{IsHolder};

use crate::held::Held;
use crate::service::Service;
use std::alloc::Global;
use std::mem;

/// The `struct ap_acceptor` of the header. It is closed until a service is put in. In C it starts with all bytes zero.
#[repr(C)]
#[derive(Drop)]
pub struct Holder {
    /// Whether there is a service.
    pub is_open: bool,
    /// The boxed service; none while the acceptor is closed.
    pub held: Held,
}

impl Holder {
    /// Takes the service out and leaves the holder closed.
    pub fn take(&mut self, alloc: Global) -> Option<Box<Service>>
        requires { IsHolder self.old }
        ensures closed { IsHolder self.new × (self.new.held.value ≡ None) }
        ensures none { IfNone result (self.old.held.value ≡ None) }
        ensures some { IfSome result (λ service. self.old.held.value ≡ Some service.value) }
    {
        if !self.is_open {
            return None;
        }
        self.is_open = false;
        Some(mem::replace(&mut self.held, Held::none(alloc)).into_box())
    }

    /// Puts a service into a closed holder.
    pub fn put(&mut self, service: Box<Service>)
        requires { self.old.held.value ≡ None }
        ensures { IsHolder self.new × (self.new.held.value ≡ Some service.value) }
    {
        self.held = Held::of(service);
        self.is_open = true;
    }
}
