//! What C holds of an engine.

ghost use Rattle.std.specs.Prelude.{◌≡◌};
ghost use Rattle.std.specs.Fn.{FnOnceReturnsAtMut};
ghost use Rattle.std.specs.Option.{MatchOption};
ghost use Rattle.std.specs.Coded.{coded_option};
ghost use denote.RawPtr.{null_ptr};
ghost use Rattle.std.specs.declared.option.Option.{Option as Maybe};
ghost use Rattle.std.specs.declared.option.Option.TheVariants.{None, Some};
ghost use Rattle.ocp_flight.specs.Flown.{Flown};
ghost use Rattle.ocp_flight.specs.Mirror.Codes.{flown_code};
ghost use Rattle.ocp_c.specs.Held.{ownership_at};
ghost use Rattle.ocp_c.specs.With.{ReturnsAtBuffer};
ghost use Rattle.ocp_c.specs.declared.status.Status.{Status as Answer};
ghost use Rattle.ocp_c.specs.declared.status.Status.TheVariants as status;
ghost use Rattle.ocp_c.specs.Statuses.{number_of};

use crate::loose::Loose;
use crate::{OpenEngine, Status};
use ocp_flight::Flight;
use std::alloc::Global;
use std::marker::Model;
use std::mem;
use std::ptr::null_mut;

/// The pointer of an engine, or null while none is open. Contracts see the world that it began in,
/// all its entries since then, and how many of them were released.
#[repr(C)]
pub struct Handle {
    at: *mut u8,
    alloc: Global,
    pub ghost held: { Maybe Flown } by { coded_option flown_code },
}

impl Model for Handle {
    ghost also_owns = { λ h. ownership_at h.alloc h.at h.held };
}

impl Drop for Handle {
    fn drop(self) {
        if let Some(loose) = self.into_loose() {
            drop(loose.into_box());
        }
    }
}

impl Handle {
    fn none(at: *mut u8, alloc: Global) -> Handle
        requires { at ≡ null_ptr }
        ensures { result.held ≡ None }
    {
        Handle { at, alloc }
    }

    fn full(from: Loose<OpenEngine, Global>) -> Handle
        ensures { result.held ≡ Some from.value }
    {
        let Loose { at, alloc } = from;
        Handle {
            at: at as *mut u8,
            alloc,
        }
    }

    fn into_loose(self) -> Option<Loose<OpenEngine, Global>>
        ensures { MatchOption result (self.held ≡ None) (λ loose. self.held ≡ Some loose.value) }
    {
        let Handle { at, alloc } = self;
        if at.is_null() {
            None
        } else {
            Some(Loose {
                at: at as *mut OpenEngine,
                alloc,
            })
        }
    }

    fn without_engine(alloc: Global) -> Handle
        ensures { result.held ≡ None }
    {
        let at: *mut u8 = null_mut();
        Handle::none(at, alloc)
    }

    /// The engine, if one is open. The handle is then closed until `put`.
    pub fn take(&mut self, alloc: Global) -> Option<Box<OpenEngine>>
        ensures left { self.new.held ≡ None }
        ensures taken { MatchOption result (self.old.held ≡ None)
            (λ engine. self.old.held ≡ Some engine.value) }
    {
        let closed = Handle::without_engine(alloc);
        let taken = mem::replace(self, closed);
        match taken.into_loose() {
            Some(loose) => Some(loose.into_box()),
            None => None,
        }
    }

    /// Holds an engine.
    pub fn put(&mut self, engine: Box<OpenEngine>)
        ensures { self.new.held ≡ Some engine.value }
    {
        *self = Handle::full(Loose::of_box(engine));
    }

    /// What a call of the engine with a buffer returns, or none if the handle is closed.
    pub fn with_buffer<T: Drop, F: FnOnce(&mut OpenEngine, &mut [u8]) -> T>(
        &mut self,
        alloc: Global,
        buffer: &mut [u8],
        call: F,
    ) -> Option<T>
        requires { F.IsAlwaysCallable call }
        ensures closed { self.old.held ≡ None →
            (result ≡ None) × (self.new.held ≡ None) × (buffer.new ≡ buffer.old) }
        ensures open { (flown : Flown) → self.old.held ≡ Some flown →
            (answer : T) × (after : Flown) ×
            ReturnsAtBuffer F.FnOnce call flown buffer.old answer after buffer.new
            × (result ≡ Some answer) × (self.new.held ≡ Some after) }
    {
        let mut held = self.take(alloc)?;
        let answer = call(&mut held, buffer);
        self.put(held);
        Some(answer)
    }

    /// What a call of the engine returns, or none if the handle is closed.
    pub fn with_engine<T: Drop, F: FnOnce(&mut Flight) -> T>(
        &mut self,
        alloc: Global,
        call: F,
    ) -> Option<T>
        requires { F.IsAlwaysCallable call }
        ensures closed { self.old.held ≡ None → (result ≡ None) × (self.new.held ≡ None) }
        ensures open { (flown : Flown) → self.old.held ≡ Some flown →
            (answer : T) × (after : Flown) × FnOnceReturnsAtMut F.FnOnce call flown answer after
            × (result ≡ Some answer) × (self.new.held ≡ Some after) }
    {
        let mut held = self.take(alloc)?;
        let answer = call(&mut held.engine);
        self.put(held);
        Some(answer)
    }

    /// The number of the status of a call of the engine, or that the handle is closed.
    pub fn answer<F: FnOnce(&mut Flight) -> Status>(&mut self, alloc: Global, call: F) -> u32
        requires { F.IsAlwaysCallable call }
        ensures closed { self.old.held ≡ None →
            (result ≡ number_of status.NotOpen) × (self.new.held ≡ None) }
        ensures open { (flown : Flown) → self.old.held ≡ Some flown →
            (answer : Answer) × (after : Flown) ×
            FnOnceReturnsAtMut F.FnOnce call flown answer after
            × (result ≡ number_of answer) × (self.new.held ≡ Some after) }
    {
        let answer = self.with_engine(alloc, call);
        answer.unwrap_or(Status::NotOpen).number()
    }
}
