//! A source over memory whose faults are planned.
ghost use Rattle.std.specs.Prelude.{◌≡◌, ℕ, ◌<◌, List, length, Option, Some, IfOk};

use crate::errors::Failed;
use crate::traits::Source;
use crate::unread::Unread;
use std::alloc::{AllocError, Global};
use std::marker::Model;

/// Gives bytes from memory. Each read gives all that fits. Planned reads fail.
#[derive(Drop)]
pub struct MemSource {
    bytes: Unread,
    failing: Vec<u64>,
    calls: u64,
    faults: u64,
}

impl Model for MemSource {
    ghost use Rattle.pl_io.specs.Fakes.{MemoryInput};

    ghost Value = { MemoryInput };

    ghost view = { λ source. record {
      left = source.bytes;
      failing = source.failing.items;
      calls = source.calls;
      faults = source.faults;
    } };
}

impl MemSource {
    /// `failing` has the numbers, from 1, of the reads that fail.
    pub fn new(alloc: Global, bytes: &[u8], failing: &[u64]) -> Result<MemSource, AllocError>
        ensures { IfOk result (λ source. source ≡ record {
          left = bytes.now;
          failing = failing.now;
          calls = 0;
          faults = 0;
        }) }
    {
        Ok(MemSource {
            bytes: Unread::from_slice(alloc, bytes)?,
            failing: Vec::from_slice(alloc, failing)?,
            calls: 0,
            faults: 0,
        })
    }
}

impl Source for MemSource {
    ghost use Rattle.std.specs.Io.{ReadsAtMost};
    ghost use Rattle.std.specs.Io.KnownBytes.{ReadConsumes};
    ghost use Rattle.pl_io.specs.Faults.{HasCause};
    ghost use Rattle.pl_io.specs.Fakes.{read_answer, buffer_after_read, after_read};

    ghost left = { λ source. Some source.left };

    ghost faults = { λ source. source.faults };

    fn read(&mut self, buf: &mut [u8]) -> Result<usize, Failed>
        requires { 0 < length buf.old }
        ensures answer { result ≡ read_answer self.old (length buf.old) }
        ensures buffer { buf.new ≡ buffer_after_read self.old buf.old }
        ensures after { self.new ≡ after_read self.old (length buf.old) }
        ensures bound { ReadsAtMost result buf.new }
        ensures bytes { ReadConsumes (Some self.old.left) (Some self.new.left) result buf.new }
        ensures cause { HasCause self.old.faults self.new.faults result }
    {
        self.calls = self.calls.saturating_add(1);
        if self.failing.contains(&self.calls) {
            self.faults = self.faults.saturating_add(1);
            return Err(Failed);
        }
        Ok(self.bytes.pour(buf))
    }
}
