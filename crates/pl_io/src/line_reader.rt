//! Lines read from a source, within limits.
ghost use Rattle.std.specs.Prelude.{◌≡◌, [], None, IfOk};

use crate::errors::LineFault;
use crate::unread::Unread;
use std::alloc::{AllocError, Global};
use std::marker::Model;

/// Reads lines. It stops for good at its first fault.
#[derive(Drop)]
pub struct LineReader {
    pub(crate) alloc: Global,
    pub(crate) held: Unread,
    pub(crate) limit: u32,
    pub(crate) room: u64,
    pub(crate) number: u64,
    pub(crate) failed: Option<LineFault>,
}

impl Model for LineReader {
    ghost use Rattle.std.specs.Prelude.{◌+◌, ◌^◌, ◌<◌};
    ghost use Rattle.pl_io.specs.Reader.{Reader};

    ghost Value = { Reader };

    ghost view = { λ reader. record {
      held = reader.held;
      limit = reader.limit;
      room = reader.room;
      number = reader.number;
      failed = reader.failed;
    } };

    // Each line takes at least one byte of the room, so the number can't pass its type's end.
    ghost invariant = { λ reader. reader.number + reader.room < 2 ^ 64 };
}

impl LineReader {
    /// A line has at most `line_limit` bytes without its newline, and the input is read up to
    /// `total_limit` bytes.
    pub fn new(alloc: Global, line_limit: u32, total_limit: u64) -> Result<LineReader, AllocError>
        ensures { IfOk result (λ reader. reader ≡ record {
          held = [];
          limit = line_limit;
          room = total_limit;
          number = 0;
          failed = None;
        }) }
    {
        Ok(LineReader {
            alloc,
            held: Unread::new(alloc),
            limit: line_limit,
            room: total_limit,
            number: 0,
            failed: None,
        })
    }
}
