//! A source over memory that never fails.
ghost use Rattle.std.specs.Prelude.{◌≡◌, ℕ, ◌<◌, List, ◌++◌, length, take, drop, min, Option, Some, Ok, IfOk};

use crate::errors::Failed;
use crate::traits::Source;
use crate::unread::Unread;
use std::alloc::{AllocError, Global};
use std::marker::Model;

/// Gives bytes from memory. Each read gives all that fits, and none fails.
#[derive(Drop)]
pub struct SureSource {
    bytes: Unread,
}

impl Model for SureSource {
    ghost Value = { List ℕ };

    ghost view = { λ source. source.bytes };
}

impl SureSource {
    /// Over a copy of the bytes.
    pub fn new(alloc: Global, bytes: &[u8]) -> Result<SureSource, AllocError>
        ensures { IfOk result (λ source. source ≡ bytes.now) }
    {
        Ok(SureSource {
            bytes: Unread::from_slice(alloc, bytes)?,
        })
    }
}

impl Source for SureSource {
    ghost use Rattle.std.specs.Io.{ReadsAtMost};
    ghost use Rattle.std.specs.Io.KnownBytes.{ReadConsumes};
    ghost use Rattle.pl_io.specs.Faults.{HasCause};

    ghost left = { λ source. Some source };

    ghost faults = { λ _. 0 };

    fn read(&mut self, buf: &mut [u8]) -> Result<usize, Failed>
        requires { 0 < length buf.old }
        ensures answer { result ≡ Ok (min (length buf.old) (length self.old)) }
        ensures buffer { buf.new ≡ take (length buf.old) self.old ++ drop (length self.old) buf.old }
        ensures after { self.new ≡ drop (length buf.old) self.old }
        ensures bound { ReadsAtMost result buf.new }
        ensures bytes { ReadConsumes (Some self.old) (Some self.new) result buf.new }
        ensures cause { HasCause 0 0 result }
    {
        Ok(self.bytes.pour(buf))
    }
}
