//! Bytes that are taken from the front and put at the end.
ghost use Rattle.std.specs.Prelude.{◌≡◌, ℕ, ◌+◌, ◌≤◌, List, [], ◌++◌, length, take, drop, min, IfOk, OnOk, OnErr, vec_len};

use std::alloc::{AllocError, Global};
use std::marker::Model;

/// Bytes that are still to be read.
#[derive(Drop)]
pub(crate) struct Unread {
    bytes: Vec<u8>,
    start: usize,
}

impl Model for Unread {
    ghost Value = { List ℕ };

    ghost view = { λ unread. drop unread.start unread.bytes.items };

    ghost invariant = { λ unread. unread.start ≤ vec_len unread.bytes };
}

impl Unread {
    pub(crate) fn new(alloc: Global) -> Self
        ensures { result ≡ [] }
    {
        Unread {
            bytes: Vec::new(alloc),
            start: 0,
        }
    }

    pub(crate) fn from_slice(alloc: Global, bytes: &[u8]) -> Result<Self, AllocError>
        ensures { IfOk result (λ unread. unread ≡ bytes.now) }
    {
        Ok(Unread {
            bytes: Vec::from_slice(alloc, bytes)?,
            start: 0,
        })
    }

    pub(crate) fn as_slice(&self) -> &[u8]
        ensures { result.now ≡ self.now }
    {
        &self.bytes[self.start..]
    }

    /// Takes bytes from the front.
    pub(crate) fn skip(&mut self, count: usize)
        requires { count ≤ length self.old }
        ensures { self.new ≡ drop count self.old }
    {
        self.start += count;
    }

    /// Moves as many bytes as fit to the front of the buffer, and answers how many.
    pub(crate) fn pour(&mut self, buf: &mut [u8]) -> usize
        ensures count { result ≡ min (length buf.old) (length self.old) }
        ensures buffer { buf.new ≡ take result self.old ++ drop result buf.old }
        ensures rest { self.new ≡ drop result self.old }
    {
        let left = self.as_slice();
        let count = buf.len().min(left.len());
        buf[..count].copy_from_slice(&left[..count]);
        self.skip(count);
        count
    }

    /// Puts bytes at the end.
    pub(crate) fn extend(&mut self, more: &[u8]) -> Result<(), AllocError>
        ensures ok { OnOk result (self.new ≡ self.old ++ more.now) }
        ensures err { OnErr result (self.new ≡ self.old) }
    {
        drop_front(&mut self.bytes, self.start);
        self.start = 0;
        self.bytes.extend_from_slice(more)?;
        Ok(())
    }
}

fn drop_front(bytes: &mut Vec<u8>, count: usize)
    requires { count ≤ vec_len bytes.old }
    ensures { bytes.new.items ≡ drop count bytes.old.items }
{
    let kept = bytes.len() - count;
    bytes.rotate_left(count);
    bytes.truncate(kept);
}
