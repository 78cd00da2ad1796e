//! A table as C holds it.
ghost use Rattle.std.specs.Prelude.{◌≡◌, Some, None, MatchOption};
ghost use Rattle.yarib_c.specs.declared.held.Held.{Held};
ghost use Rattle.yarib_c.specs.Handle.{held_at};
ghost use Rattle.yarib_c.specs.inside.Owned.{owns_held, held_coded};

use crate::held::Held;
use crate::loose::Loose;
use std::alloc::Global;
use std::marker::Model;
use std::mem;
use std::ptr::null_mut;

/// Makes a call on the contents of the handle, which holds them again afterwards, and returns its status. If the handle holds nothing,
/// returns `NOTHING`. It is a macro since contracts don't say what a closure leaves in the lists of its caller.
macro_rules! with_held {
    ($handle:ident, $alloc:ident, $held:ident => $status:expr) => {
        match $handle.take($alloc) {
            None => $crate::status::NOTHING,
            Some(mut $held) => {
                let status = $status;
                *$handle = $crate::handle::Yarib::of($held);
                status
            }
        }
    };
}

pub(crate) use with_held;

/// The handle that C keeps: a pointer, which is null if the handle holds nothing. Contracts see the contents.
#[repr(C)]
pub struct Yarib {
    at: *mut (),
    alloc: Global,
    pub ghost held: { Held } by { held_coded },
}

impl Model for Yarib {
    ghost also_owns = { λ y. owns_held y.alloc y.at y.held };
}

impl Yarib {
    fn none(alloc: Global) -> Yarib
        ensures { held_at result.at result.held ≡ None }
    {
        Yarib {
            at: null_mut(),
            alloc,
        }
    }

    fn close(loose: Loose<Held, Global>) -> Yarib
        ensures { held_at result.at result.held ≡ Some loose.value }
    {
        let Loose { ptr, alloc } = loose;
        Yarib {
            at: ptr as *mut (),
            alloc,
        }
    }

    fn open(self) -> Option<Loose<Held, Global>>
        ensures { MatchOption result (held_at self.at self.held ≡ None) (λ l. held_at self.at self.held ≡ Some l.value) }
    {
        let Yarib { at, alloc } = self;
        if at.is_null() {
            None
        } else {
            Some(Loose {
                ptr: at as *mut Held,
                alloc,
            })
        }
    }

    /// Returns a handle that holds this.
    pub(crate) fn of(held: Box<Held>) -> Yarib
        ensures { held_at result.at result.held ≡ Some held.value }
    {
        Yarib::close(Loose::of(held))
    }

    fn into_held(self) -> Option<Box<Held>>
        ensures { MatchOption result (held_at self.at self.held ≡ None) (λ b. held_at self.at self.held ≡ Some b.value) }
    {
        match self.open() {
            None => None,
            Some(loose) => Some(loose.into_box()),
        }
    }

    /// Returns the contents, if there are any, and leaves the handle empty.
    pub(crate) fn take(&mut self, alloc: Global) -> Option<Box<Held>>
        ensures left { held_at self.new.at self.new.held ≡ None }
        ensures taken { MatchOption result (held_at self.old.at self.old.held ≡ None)
            (λ b. held_at self.old.at self.old.held ≡ Some b.value) }
    {
        mem::replace(self, Yarib::none(alloc)).into_held()
    }
}

impl Drop for Yarib {
    fn drop(self) {
        drop(self.into_held());
    }
}

unsafe impl Send for Yarib {}
