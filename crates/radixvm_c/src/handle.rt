//! What C holds between two calls.
//!
//! A machine's place is C's, its pointer the library's: an export can't give a `Machine`. The struct's ghost field is
//! the machine or none, so nothing is made over a machine, nor freed twice through one place. That it isn't copied is
//! left to C.
ghost use Rattle.std.specs.Prelude.{Option};
ghost use Rattle.coded.specs.declared.held.AnyMachine.{AnyMachine};
ghost use Rattle.radixvm_c.specs.Behind.{held_at};

use crate::loose::Loose;
use coded::held::AnyMachine;
use std::alloc::Global;
use std::marker::Model;
use std::mem::replace;
use std::ptr::null_mut;

/// A machine, or none, as C holds it: a pointer that the library wrote, or null.
#[repr(C)]
#[derive(Drop)]
pub struct Handle {
    at: *mut u8,
    alloc: Global,
    pub ghost value: { Option AnyMachine },
}

// What it points to may go to another thread.
unsafe impl Send for Handle {}

impl Model for Handle {
    ghost also_owns = { λ h. held_at h.alloc h.at h.value };
}

impl Handle {
    ghost use Rattle.std.specs.Prelude.{◌≡◌, IsSome, None, Some, is_some};
    ghost use Rattle.std.specs.Borrow.{sem};
    ghost use Rattle.radixvm_c.specs.Handles.{LendsHeld};

    /// Whether there is one.
    pub fn is_open(&mut self) -> bool
        ensures value { result ≡ is_some self.old.value }
        ensures same { self.new.value ≡ self.old.value }
    {
        !self.at.is_null()
    }

    /// The machine, lent with the handle.
    pub fn get_mut(&mut self) -> &mut AnyMachine
        requires { IsSome self.old.value }
        ensures* writes_back { sem 𝓛 (LendsHeld self.entry result) }
        ensures value { self.old.value ≡ Some result.now }
    {
        unsafe { &mut *(self.at as *mut AnyMachine) }
    }

    fn empty(alloc: Global) -> Handle
        ensures { result.value ≡ None }
    {
        Handle {
            at: null_mut(),
            alloc,
        }
    }

    fn of(loose: Loose<AnyMachine, Global>) -> Handle
        ensures { result.value ≡ Some loose.value }
    {
        let Loose { at, alloc } = loose;
        Handle {
            at: at as *mut u8,
            alloc,
        }
    }

    fn into_loose(self) -> Loose<AnyMachine, Global>
        requires { IsSome self.value }
        ensures { self.value ≡ Some result.value }
    {
        let Handle { at, alloc } = self;
        Loose {
            at: at as *mut AnyMachine,
            alloc,
        }
    }

    /// Puts a machine into an empty handle.
    pub fn put(&mut self, held: Box<AnyMachine, Global>)
        requires { self.old.value ≡ None }
        ensures { self.new.value ≡ Some held.value }
    {
        *self = Handle::of(Loose::of(held));
    }

    /// Takes the machine, and leaves the handle empty.
    pub fn take(&mut self, alloc: Global) -> Box<AnyMachine, Global>
        requires { IsSome self.old.value }
        ensures taken { self.old.value ≡ Some result.value }
        ensures left { self.new.value ≡ None }
    {
        replace(self, Handle::empty(alloc)).into_loose().into_box()
    }
}
