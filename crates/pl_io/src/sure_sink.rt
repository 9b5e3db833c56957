//! A sink that takes every byte and keeps none.
ghost use Rattle.std.specs.Prelude.{◌≡◌, ℕ, ◌+◌, ◌-◌, ◌^◌, ◌<◌, ◌≤◌, List, length, min, Option, Some, None, Ok, IfOk, IsOkAnd, false};

use crate::errors::Failed;
use crate::traits::Sink;
use std::alloc::{AllocError, Global};
use std::marker::Model;

/// Counts the bytes that it takes. No write fails.
#[derive(Drop)]
pub struct SureSink {
    taken: u64,
}

impl Model for SureSink {
    ghost Value = { ℕ };

    ghost view = { λ sink. sink.taken };
}

impl SureSink {
    /// Takes no memory, so it never fails.
    pub fn new(_alloc: Global) -> Result<SureSink, AllocError>
        ensures { IsOkAnd result (λ sink. sink ≡ 0) }
    {
        Ok(SureSink { taken: 0 })
    }

    /// How many bytes it took. The count stands still at its type's end.
    pub fn taken(&self) -> u64
        ensures { result ≡ self.now }
    {
        self.taken
    }
}

impl Sink for SureSink {
    ghost use Rattle.std.specs.Io.KnownBytes.{WriteAppends};
    ghost use Rattle.pl_io.specs.Faults.{HasCause};

    ghost held = { λ _. None };

    ghost faults = { λ _. 0 };

    fn keeps(&self) -> bool
        ensures { result ≡ false }
    {
        false
    }

    fn write(&mut self, piece: &[u8]) -> Result<usize, Failed>
        requires { 0 < length piece.now }
        ensures answer { result ≡ Ok (length piece.now) }
        ensures after { self.new ≡ min (self.old + length piece.now) (2 ^ 64 - 1) }
        ensures bound { IfOk result (λ n. (0 < n) × (n ≤ length piece.now)) }
        ensures bytes { WriteAppends None None result piece.now }
        ensures cause { HasCause 0 0 result }
    {
        self.taken = self.taken.saturating_add(piece.len() as u64);
        Ok(piece.len())
    }
}
