//! A value that only clauses read.
ghost use Rattle.std.specs.Prelude.{◌≡◌};
ghost use base.Fml.{ftrue};

use std::marker::{Model, PhantomData};

/// A `T` that existed once, as clauses see it. It has no bytes and owns nothing.
pub struct GhostValue<T> {
    marker: PhantomData<T>,
    pub ghost value: { T },
}

impl<T> Model for GhostValue<T> {
    ghost also_owns = { λ _. ftrue };
}

impl<T> GhostValue<T> {
    /// Returns the value as it is now, for clauses.
    pub fn of(x: &T) -> GhostValue<T>
        ensures { result.value ≡ x.now }
    {
        GhostValue::made(x)
    }

    /// Returns the same value.
    pub fn again(&self) -> GhostValue<T>
        ensures { result.value ≡ self.now.value }
    {
        GhostValue::made(self)
    }

    /// Returns a value that the proof of the call derives from the view of the reference.
    fn made<X>(x: &X) -> GhostValue<T>
        ghost value: { T }
        ensures { result.value ≡ value }
    {
        let _ = x;
        GhostValue {
            marker: PhantomData,
        }
    }
}

unsafe impl<T> Send for GhostValue<T> {}

impl<T> Drop for GhostValue<T> {
    fn drop(self) {
        let Self { marker: _ } = self;
    }
}
