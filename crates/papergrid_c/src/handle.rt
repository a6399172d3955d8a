// What C holds of a builder: a pointer that is null, or owns a box.
ghost use Rattle.std.specs.Prelude.{◌≡◌, MatchOption};
ghost use Rattle.std.specs.declared.option.Option.{Option};
ghost use Rattle.std.specs.declared.option.Option.TheVariants.{None, Some};
ghost use Rattle.papergrid_c.specs.Handle.{Held, handle_owns, held_coded};

mod loose;

use loose::Loose;
use papergrid_builder::Builder;
use std::alloc::Global;
use std::marker::Model;

/// A builder that C holds, or none. It has the size of a pointer, and all bits 0 are none.
#[repr(C)]
pub struct Handle {
    at: *mut u8,
    alloc: Global,
    pub ghost held: { Option Held } by { held_coded },
}

impl Model for Handle {
    ghost also_owns = { λ h. handle_owns h.alloc h.at h.held };
}

impl Handle {
    /// No builder.
    pub fn empty(alloc: Global) -> Handle
        ensures { result.held ≡ None }
    {
        Handle {
            at: std::ptr::null_mut(),
            alloc,
        }
    }

    /// The builder in the box.
    pub fn of(builder: Box<Builder>) -> Handle
        ensures { result.held ≡ Some builder.value }
    {
        Handle::of_loose(Loose::of(builder))
    }

    /// The builder in a box, if there is one.
    pub fn into_box(self) -> Option<Box<Builder>>
        ensures { MatchOption result (self.held ≡ None) (λ b. self.held ≡ Some b.value) }
    {
        match self.into_loose() {
            None => None,
            Some(loose) => Some(loose.into_box()),
        }
    }

    /// Takes the builder out in a box, if there is one.
    pub fn take(&mut self, alloc: Global) -> Option<Box<Builder>>
        ensures builder { MatchOption result (self.old.held ≡ None)
            (λ b. self.old.held ≡ Some b.value) }
        ensures rest { self.new.held ≡ None }
    {
        std::mem::replace(self, Handle::empty(alloc)).into_box()
    }

    fn of_loose(loose: Loose<Builder, Global>) -> Handle
        ensures { result.held ≡ Some loose.value }
    {
        let Loose { at, alloc } = loose;
        Handle {
            at: at as *mut u8,
            alloc,
        }
    }

    fn into_loose(self) -> Option<Loose<Builder, Global>>
        ensures { MatchOption result (self.held ≡ None) (λ l. self.held ≡ Some l.value) }
    {
        let Handle { at, alloc } = self;
        if at.is_null() {
            return None;
        }
        Some(Loose {
            at: at as *mut Builder,
            alloc,
        })
    }
}

impl Drop for Handle {
    fn drop(self) {
        drop(self.into_box());
    }
}

unsafe impl Send for Handle {}
