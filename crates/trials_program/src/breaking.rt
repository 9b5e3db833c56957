//! A source that breaks off.
use pl_io::{Failed, Source};

/// Gives its bytes one at a time. Each read behind the last fails.
#[derive(Drop)]
pub struct Breaking<'a> {
    bytes: &'a [u8],
    faults: u64,
}

impl<'a> Breaking<'a> {
    pub fn new(bytes: &'a [u8]) -> Breaking<'a> {
        Breaking { bytes, faults: 0 }
    }
}

impl<'a> Source for Breaking<'a> {
    ghost use Rattle.std.specs.Prelude.{None};

    ghost left = { λ _. None };

    ghost faults = { λ source. source.faults };

    fn read(&mut self, buf: &mut [u8]) -> Result<usize, Failed> {
        match self.bytes {
            [] => {
                self.faults = self.faults.saturating_add(1);
                Err(Failed)
            }
            [first, rest @ ..] => {
                buf[0] = *first;
                self.bytes = rest;
                Ok(1)
            }
        }
    }
}
