//! A line with its number.
ghost use Rattle.std.specs.Prelude.{◌≡◌};

use std::marker::Model;

/// A line without its newline.
#[derive(Drop)]
pub struct Line {
    /// Its number, from 1.
    pub number: u64,
    pub(crate) bytes: Vec<u8>,
}

impl Model for Line {
    ghost use Rattle.pl_io.specs.Reader.{NumberedLine};

    ghost Value = { NumberedLine };

    ghost view = { λ line. record { number = line.number; bytes = line.bytes.items } };
}

impl Line {
    /// The bytes of the line, without its newline.
    pub fn bytes(&self) -> &[u8]
        ensures { result.now ≡ self.now.bytes }
    {
        self.bytes.as_slice()
    }
}
