//! The handle of a client.

ghost use Rattle.std.specs.Box.Ownership.{box_owns};
ghost use Rattle.std.specs.Prelude.{◌≡◌, IfNone, IfSome, OnSome};
ghost use Rattle.std.specs.contracts.impls.GlobalAllocator.TheImpl.{ghosts};
ghost use Rattle.kifzaro_c.specs.contracts.client_handle.ClientSlot.{the_row};
ghost use Rattle.kifzaro_c.specs.declared.client_handle.ClientSlot.{ClientSlot as Inside};
ghost use Rattle.kifzaro_c.specs.declared.client_handle.ClientSlot.TheVariants as slots;

use crate::loose::{Loose, in_box};
use crate::status;
use kifzaro::Client;
use std::alloc::Global;
use std::marker::Model;
use std::mem;

/// What a handle's box holds: a client, which is away only while a call is at work on it.
#[derive(Drop)]
pub enum ClientSlot {
    /// A call is at work on it.
    Away,
    /// It is here.
    Here(Client),
}

/// A pointer that owns a client. C sees the pointer alone: what frees it has no bytes, and a pointer to what holds a `Vec` doesn't
/// cross under its own type.
#[repr(C)]
pub struct ClientHandle {
    pub(crate) at: *mut u8,
    pub(crate) alloc: Global,
    pub(crate) ghost value: { Inside },
}

impl Model for ClientHandle {
    ghost also_owns = { λ h. box_owns (ghosts.dealloc_token h.alloc) the_row h.at h.value };
}

impl ClientHandle {
    fn of_loose(it: Loose<ClientSlot, Global>) -> ClientHandle
        ensures { result.value ≡ it.value }
    {
        let Loose { at, alloc } = it;
        let at = at as *mut u8;
        ClientHandle { at, alloc }
    }

    fn into_loose(self) -> Loose<ClientSlot, Global>
        ensures { result.value ≡ self.value }
    {
        let ClientHandle { at, alloc } = self;
        let at = at as *mut ClientSlot;
        Loose { at, alloc }
    }

    /// The handle of a box.
    pub(crate) fn of(it: Box<ClientSlot>) -> ClientHandle
        ensures { result.value ≡ it.value }
    {
        ClientHandle::of_loose(Loose::of(it))
    }

    /// The box of a handle.
    pub(crate) fn into_box(self) -> Box<ClientSlot>
        ensures { result.value ≡ self.value }
    {
        self.into_loose().into_box()
    }

    /// The box out of the handle: one with nothing is in its place until `put`. None where there is no memory, and the handle is as it
    /// was.
    fn take(&mut self, alloc: Global) -> Option<Box<ClientSlot>>
        ensures taken { IfSome result (λ slot. slot.value ≡ self.old.value) }
        ensures away { OnSome result (self.new.value ≡ slots.Away) }
        ensures unchanged { IfNone result (self.new ≡ self.old) }
    {
        match in_box(alloc, ClientSlot::Away) {
            Some(spare) => Some(mem::replace(self, ClientHandle::of(spare)).into_box()),
            None => None,
        }
    }

    /// The box is back in the handle.
    fn put(&mut self, slot: Box<ClientSlot>)
        ensures { self.new.value ≡ slot.value }
    {
        let spare = mem::replace(self, ClientHandle::of(slot)).into_box();
        drop(spare);
    }

    /// Has a call work on the client, and tells its status: `MEMORY` where there is none for a box, and nothing was done.
    pub(crate) fn run<F: FnOnce(&mut Client) -> u32>(&mut self, alloc: Global, call: F) -> u32
        requires callable { F.IsAlwaysCallable call }
    {
        let Some(mut slot) = self.take(alloc) else {
            return status::MEMORY;
        };
        let told = match slot.as_mut() {
            ClientSlot::Here(client) => call(client),
            ClientSlot::Away => status::NO_HANDLE,
        };
        self.put(slot);
        told
    }
}

/// A pointer to a box of its own for a client, which a handle becomes by it; none where there is no memory.
pub(crate) fn boxed(alloc: Global, it: Client) -> Option<*mut u8> {
    match in_box(alloc, ClientSlot::Here(it)) {
        Some(slot) => Some(Box::into_raw(slot).cast()),
        None => None,
    }
}
