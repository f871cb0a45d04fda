//! The handle of a server.

ghost use Rattle.std.specs.Box.Ownership.{box_owns};
ghost use Rattle.std.specs.Prelude.{◌≡◌, IfNone, IfSome, OnSome};
ghost use Rattle.std.specs.contracts.impls.GlobalAllocator.TheImpl.{ghosts};
ghost use Rattle.kifzaro_c.specs.contracts.server_handle.ServerSlot.{the_row};
ghost use Rattle.kifzaro_c.specs.declared.server_handle.ServerSlot.{ServerSlot as Inside};
ghost use Rattle.kifzaro_c.specs.declared.server_handle.ServerSlot.TheVariants as slots;

use crate::loose::{Loose, in_box};
use crate::status;
use kifzaro::Server;
use std::alloc::Global;
use std::marker::Model;
use std::mem;

/// What a handle's box holds: a server, which is away only while a call is at work on it.
#[derive(Drop)]
pub enum ServerSlot {
    /// A call is at work on it.
    Away,
    /// It is here.
    Here(Server),
}

/// A pointer that owns a server. C sees the pointer alone: what frees it has no bytes, and a pointer to what holds a `Vec` doesn't
/// cross under its own type.
#[repr(C)]
pub struct ServerHandle {
    pub(crate) at: *mut u8,
    pub(crate) alloc: Global,
    pub(crate) ghost value: { Inside },
}

impl Model for ServerHandle {
    ghost also_owns = { λ h. box_owns (ghosts.dealloc_token h.alloc) the_row h.at h.value };
}

impl ServerHandle {
    fn of_loose(it: Loose<ServerSlot, Global>) -> ServerHandle
        ensures { result.value ≡ it.value }
    {
        let Loose { at, alloc } = it;
        let at = at as *mut u8;
        ServerHandle { at, alloc }
    }

    fn into_loose(self) -> Loose<ServerSlot, Global>
        ensures { result.value ≡ self.value }
    {
        let ServerHandle { at, alloc } = self;
        let at = at as *mut ServerSlot;
        Loose { at, alloc }
    }

    /// The handle of a box.
    pub(crate) fn of(it: Box<ServerSlot>) -> ServerHandle
        ensures { result.value ≡ it.value }
    {
        ServerHandle::of_loose(Loose::of(it))
    }

    /// The box of a handle.
    pub(crate) fn into_box(self) -> Box<ServerSlot>
        ensures { result.value ≡ self.value }
    {
        self.into_loose().into_box()
    }

    /// The box out of the handle: one with nothing is in its place until `put`. None where there is no memory, and the handle is as it
    /// was.
    fn take(&mut self, alloc: Global) -> Option<Box<ServerSlot>>
        ensures taken { IfSome result (λ slot. slot.value ≡ self.old.value) }
        ensures away { OnSome result (self.new.value ≡ slots.Away) }
        ensures unchanged { IfNone result (self.new ≡ self.old) }
    {
        match in_box(alloc, ServerSlot::Away) {
            Some(spare) => Some(mem::replace(self, ServerHandle::of(spare)).into_box()),
            None => None,
        }
    }

    /// The box is back in the handle.
    fn put(&mut self, slot: Box<ServerSlot>)
        ensures { self.new.value ≡ slot.value }
    {
        let spare = mem::replace(self, ServerHandle::of(slot)).into_box();
        drop(spare);
    }

    /// Has a call work on the server, and tells its status: `MEMORY` where there is none for a box, and nothing was done.
    pub(crate) fn run<F: FnOnce(&mut Server) -> u32>(&mut self, alloc: Global, call: F) -> u32
        requires callable { F.IsAlwaysCallable call }
    {
        let Some(mut slot) = self.take(alloc) else {
            return status::MEMORY;
        };
        let told = match slot.as_mut() {
            ServerSlot::Here(server) => call(server),
            ServerSlot::Away => status::NO_HANDLE,
        };
        self.put(slot);
        told
    }
}

/// A pointer to a box of its own for a server, which a handle becomes by it; none where there is no memory.
pub(crate) fn boxed(alloc: Global, it: Server) -> Option<*mut u8> {
    match in_box(alloc, ServerSlot::Here(it)) {
        Some(slot) => Some(Box::into_raw(slot).cast()),
        None => None,
    }
}
