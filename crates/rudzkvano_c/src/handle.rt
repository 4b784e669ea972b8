//! Handles, which C holds.
ghost use Rattle.std.specs.Prelude.{◌≡◌, Option, None, Some, option_map};
ghost use Rattle.std.specs.Coded.{coded_option};
ghost use Rattle.std.specs.Fn.{CalledAtMut};
ghost use Rattle.host_clients.specs.declared.object.Object.{Object};
ghost use Rattle.host_clients.specs.contracts.object.Object.{the_row};
ghost use Rattle.rudzkvano_c.specs.Made.{MakesClientHeld, MakesHeld, Puts};

use foreign_handles::{Slot, sent};
use host_clients::{Fault, HostClient, Object};
use std::alloc::Global;
use std::marker::{Model, Send};
use std::mem;

/// C's `struct { void *at; }`, which holds an object or nothing. A handle of zeros holds nothing.
///
/// `held` is what it holds.
///
/// It is a struct in the host's memory, and no pointer that is passed by value: so a call finds out by itself
/// whether it holds nothing, a server or a client, and refuses the wrong one.
#[repr(C)]
pub struct Handle {
    at: *mut u8,
    pub ghost held: { Option Object } by { coded_option the_row.coded },
}

impl Model for Handle {
    ghost use Rattle.foreign_handles.specs.Held.{owns_held};
    ghost use Rattle.host_clients.specs.contracts.object.Object.{the_row};

    ghost also_owns = { λ h. owns_held the_row h.at h.held };
}

// It owns the box of its object, of which nothing else has a part.
unsafe impl Send for Handle {}

impl Handle {
    fn of(slot: Slot<Object>) -> Handle
        ensures { result.held ≡ slot.held }
    {
        let Slot { at } = slot;
        Handle { at: at.cast() }
    }

    fn into_slot(self) -> Slot<Object>
        ensures { result.held ≡ self.held }
    {
        let Handle { at } = self;
        Slot { at: at.cast() }
    }

    /// Takes out what it holds. Then it holds nothing. `alloc` takes no bytes: C passes nothing for it.
    pub fn take(&mut self, alloc: Global) -> Option<Box<Object>>
        ensures taken { option_map (λ b. b.value) result
            ≡ self.old.held }
        ensures empty { self.new.held ≡ None }
    {
        mem::replace(self, Handle::of(Slot::vacant()))
            .into_slot()
            .into_box(alloc)
    }

    /// Holds what was made, in a box of its own, unless nothing was. What it held before is freed.
    pub fn put_made(&mut self, alloc: Global, made: Result<Object, Fault>) -> Result<(), Fault>
        ensures { Puts made self.old.held
            self.new.held result }
    {
        let Ok(object) = Box::new(alloc, made?) else {
            return Err(Fault::NoMemory);
        };
        self.put(alloc, object);
        Ok(())
    }

    /// Does this to the object that it holds, once, unless it holds nothing.
    pub fn on_object<T, F: FnMut(&mut Object) -> Result<T, Fault>>(
        &mut self,
        alloc: Global,
        act: &mut F,
    ) -> Result<T, Fault>
        requires { (x : _) → F.pre act.old x }
        ensures { MakesHeld (λ o p r. CalledAtMut F.FnMut act.old o r act.new p) (act.new ≡ act.old)
            self.old.held self.new.held result }
    {
        let Some(mut object) = self.take(alloc) else {
            return Err(Fault::BadHandle);
        };
        let done = act(&mut object);
        self.put(alloc, object);
        done
    }

    /// Does this to the client that it holds, once, unless it holds none.
    pub fn on_client<T, F: FnMut(&mut HostClient) -> Result<T, Fault>>(
        &mut self,
        alloc: Global,
        act: &mut F,
    ) -> Result<T, Fault>
        requires { (x : _) → F.pre act.old x }
        ensures { MakesClientHeld (λ c d r. CalledAtMut F.FnMut act.old c r act.new d) (act.new ≡ act.old)
            self.old.held self.new.held result }
    {
        let Some(mut object) = self.take(alloc) else {
            return Err(Fault::BadHandle);
        };
        match &mut *object {
            Object::Client(client) => {
                let done = act(client);
                self.put(alloc, object);
                done
            }
            Object::Server(_) | Object::Queries(_) => {
                self.put(alloc, object);
                Err(Fault::BadHandle)
            }
        }
    }

    // Holds this. What it held before is freed.
    fn put(&mut self, alloc: Global, object: Box<Object>)
        ensures { self.new.held ≡ Some object.value }
    {
        let held = mem::replace(self, Handle::of(Slot::of(object)));
        let _ = held.into_slot().into_box(alloc);
    }
}

/// The handle as it is. That this is proved says that a handle may go to another thread.
fn to_other_thread(handle: Handle) -> Handle
    ensures { result ≡ handle }
{
    sent(handle)
}
