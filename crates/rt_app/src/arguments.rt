//! The program's arguments.

use std::alloc::Global;
use std::env::{self, Env, FillError};
use std::io;

/// The program's name in help texts and messages.
const NAME: &[u8] = b"yarib";

/// Returns the program's name and its arguments. The path by which the program was started isn't one of them: it may be
/// any bytes.
pub(crate) fn read_arguments<R: Env>(env: &R, alloc: Global) -> io::Result<Vec<String>> {
    Ok(env::args(&(Named(env), alloc))?.collect(alloc)?)
}

/// An environment in which argument 0 is the program's name.
#[derive(Drop)]
struct Named<'a, R>(&'a R);

impl<R: Env> Env for Named<'_, R> {
    fn arg(&self, i: usize, buf: &mut [u8]) -> Result<usize, FillError> {
        if i > 0 {
            return self.0.arg(i, buf);
        }
        match buf.get_mut(..NAME.len()) {
            None => Err(FillError::TooLong),
            Some(start) => {
                start.copy_from_slice(NAME);
                Ok(NAME.len())
            }
        }
    }

    fn var(&self, name: &str, buf: &mut [u8]) -> Result<usize, FillError> {
        self.0.var(name, buf)
    }

    fn var_at(&self, i: usize, buf: &mut [u8]) -> Result<usize, FillError> {
        self.0.var_at(i, buf)
    }
}
