//! What C holds of a machine that threads share.
ghost use Rattle.std.specs.Prelude.{◌≡◌, Option, is_some};
ghost use Rattle.radixvm_c.specs.declared.chair.Chair.{Chair};
ghost use Rattle.radixvm_c.specs.Behind.{chair_at};
ghost use Rattle.radixvm_c.specs.Seats.{core_on};

use crate::chair::Chair;
use crate::loose::Loose;
use std::alloc::Global;
use std::marker::Model;
use std::mem::replace;
use std::ptr::null_mut;

/// A seat, or none, as C holds it: a pointer that the library wrote, or null.
#[repr(C)]
#[derive(Drop)]
pub struct ChairHandle {
    at: *mut u8,
    alloc: Global,
    pub ghost value: { Option Chair },
}

// What it points to may go to another thread.
unsafe impl Send for ChairHandle {}

impl Model for ChairHandle {
    ghost also_owns = { λ h. chair_at h.alloc h.at h.value };
}

impl ChairHandle {
    ghost use Rattle.std.specs.Prelude.{◌≡◌, IsSome, None, Some, is_some};
    ghost use Rattle.std.specs.Borrow.{sem};
    ghost use Rattle.radixvm_c.specs.Handles.{LendsChair};
    ghost use Rattle.radixvm_c.specs.Seats.{core_in};

    /// Whether there is one.
    pub fn is_open(&mut self) -> bool
        ensures value { result ≡ is_some self.old.value }
        ensures same { self.new.value ≡ self.old.value }
    {
        !self.at.is_null()
    }

    /// The chair, lent with the handle.
    pub fn get_mut(&mut self) -> &mut Chair
        requires { IsSome self.old.value }
        ensures* writes_back { sem 𝓛 (LendsChair self.entry result) }
        ensures value { self.old.value ≡ Some result.now }
    {
        unsafe { &mut *(self.at as *mut Chair) }
    }

    /// Whether there is a seat.
    pub fn has_seat(&mut self) -> bool
        ensures value { result ≡ is_some (core_in self.old.value) }
        ensures same { self.new.value ≡ self.old.value }
    {
        if !self.is_open() {
            return false;
        }
        is_taken(self.get_mut())
    }

    fn empty(alloc: Global) -> ChairHandle
        ensures { result.value ≡ None }
    {
        ChairHandle {
            at: null_mut(),
            alloc,
        }
    }

    fn of(loose: Loose<Chair, Global>) -> ChairHandle
        ensures { result.value ≡ Some loose.value }
    {
        let Loose { at, alloc } = loose;
        ChairHandle {
            at: at as *mut u8,
            alloc,
        }
    }

    fn into_loose(self) -> Loose<Chair, Global>
        requires { IsSome self.value }
        ensures { self.value ≡ Some result.value }
    {
        let ChairHandle { at, alloc } = self;
        Loose {
            at: at as *mut Chair,
            alloc,
        }
    }

    /// Puts a chair into an empty handle.
    pub fn put(&mut self, chair: Box<Chair, Global>)
        requires { self.old.value ≡ None }
        ensures { self.new.value ≡ Some chair.value }
    {
        *self = ChairHandle::of(Loose::of(chair));
    }

    /// Takes the chair, and leaves the handle empty.
    pub fn take(&mut self, alloc: Global) -> Box<Chair, Global>
        requires { IsSome self.old.value }
        ensures taken { self.old.value ≡ Some result.value }
        ensures left { self.new.value ≡ None }
    {
        replace(self, ChairHandle::empty(alloc))
            .into_loose()
            .into_box()
    }
}

// Whether it has a seat.
fn is_taken(chair: &Chair) -> bool
    ensures { result ≡ is_some (core_on chair.now) }
{
    match chair {
        Chair::Vacant => false,
        Chair::Taken(_) => true,
    }
}
