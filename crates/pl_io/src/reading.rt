//! The steps of a line reader.
ghost use Rattle.std.specs.Prelude.{◌≡◌, ◌+◌, ◌-◌, ◌<◌, ◌≤◌, IsTrue, length, take, drop, min, None, Some, IfSome, IfOk, IfErr, OnErr, IsErrOf};
ghost use Rattle.std.specs.Io.KnownBytes.{IsAtEnd};
ghost use Rattle.pl_io.specs.Faults.{Rose};
ghost use Rattle.pl_io.specs.Lines.{ahead};
ghost use Rattle.pl_io.specs.Reader.{Moves, Answers, Repeats};
ghost use Rattle.pl_io.specs.Reading.{HoldsLine, FailsOutside, KeepsAhead, Settles, Reaches, ReachesSparing, Advances, last_of};
ghost use Rattle.pl_io.specs.Sparing.{shows_next, read_size, IsSparing};

use crate::errors::LineFault;
use crate::judging::{Look, judge};
use crate::line_reader::LineReader;
use crate::text_line::Line;
use crate::traits::Source;
use std::alloc::AllocError;

const CHUNK: usize = 4096;

impl LineReader {
    // One read.
    fn fill<S: Source>(&mut self, src: &mut S) -> Result<usize, LineFault>
        ensures kept { self.new ≡ record self.old { held = self.new.held } }
        ensures grows { IfOk result (λ count. length self.new.held ≡ length self.old.held + count) }
        ensures front { IfOk result (λ _. take (length self.old.held) self.new.held ≡ self.old.held) }
        ensures few { IfOk result (λ count. count ≤ read_size) }
        ensures err { OnErr result (self.new ≡ self.old) }
        ensures same { IfOk result (λ count.
            count ≡ 0 → (self.new.held ≡ self.old.held) × IsAtEnd (S.left src.new)) }
        ensures ahead { IfOk result (λ _. IfSome (ahead self.old.held (S.left src.old)) (λ bytes.
            ahead self.new.held (S.left src.new) ≡ Some bytes)) }
        ensures unread { IfErr result (λ fault. IfSome (ahead self.old.held (S.left src.old)) (λ bytes.
            KeepsAhead bytes (ahead self.new.held (S.left src.new)) fault)) }
        ensures later { S.faults src.old ≤ S.faults src.new }
        ensures cause { IfErr result (λ fault. FailsOutside (S.faults src.old) (S.faults src.new) fault) }
    {
        let mut chunk = [0u8; CHUNK];
        let count = src.read(&mut chunk)?;
        self.held.extend(&chunk[..count])?;
        Ok(count)
    }

    // Takes a line that was found from the front.
    fn take_line(&mut self, len: usize) -> Result<Line, AllocError>
        requires { HoldsLine self.old len }
        ensures line { IfOk result (λ line. line ≡ record {
          number = self.old.number + 1;
          bytes = take len self.old.held;
        }) }
        ensures taken { IfOk result (λ _. self.new ≡ record self.old {
          held = drop (len + 1) self.old.held;
          room = self.old.room - min (len + 1) (length self.old.held);
          number = self.old.number + 1;
        }) }
        ensures err { OnErr result (self.new ≡ self.old) }
    {
        let held = self.held.as_slice();
        let bytes = Vec::from_slice(self.alloc, &held[..len])?;
        let taken = held.len().min(len + 1);
        self.held.skip(taken);
        self.room -= taken as u64;
        self.number += 1;
        Ok(Line {
            number: self.number,
            bytes,
        })
    }

    // Reads until the held bytes show what is next: a line of so many bytes, or the end.
    fn reach<S: Source>(&mut self, src: &mut S) -> Result<Option<usize>, LineFault>
        ensures kept { self.new ≡ record self.old { held = self.new.held } }
        ensures settles { Settles self.old self.new result }
        ensures exact { IfSome (ahead self.old.held (S.left src.old)) (λ bytes.
            Reaches self.old self.new bytes (ahead self.new.held (S.left src.new)) result) }
        ensures idle { IsTrue (shows_next self.old.limit self.old.room self.old.held) → src.new ≡ src.old }
        ensures sparing { length self.old.held < read_size → ReachesSparing self.old.limit self.new.held result }
        ensures later { S.faults src.old ≤ S.faults src.new }
        ensures failed { IsErrOf result LineFault.Read → Rose (S.faults src.old) (S.faults src.new) }
    {
        'turns: loop {
            match judge(
                self.held.as_slice(),
                self.limit as usize,
                self.room as usize,
            ) {
                Look::Whole(len) => return Ok(Some(len)),
                Look::TooLong => return Err(LineFault::Long(self.number + 1)),
                Look::PastTotal => return Err(LineFault::Total),
                Look::Open => {}
            }
            if self.fill(src)? == 0 {
                return Ok(self.last_line());
            }
        }
    }

    // What is left at the end of the input.
    fn last_line(&self) -> Option<usize>
        ensures { result ≡ last_of self.now.held }
    {
        let held = self.held.as_slice();
        if held.is_empty() {
            None
        } else {
            Some(held.len())
        }
    }

    // The next answer of a reader that has not failed.
    fn advance<S: Source>(&mut self, src: &mut S) -> Result<Option<Line>, LineFault>
        requires { self.old.failed ≡ None }
        ensures moves { Advances self.old self.new result }
        ensures exact { IfSome (ahead self.old.held (S.left src.old)) (λ bytes.
            Answers self.old self.new bytes (ahead self.new.held (S.left src.new)) result) }
        ensures idle { IsTrue (shows_next self.old.limit self.old.room self.old.held) → src.new ≡ src.old }
        ensures sparing { length self.old.held < read_size → IsSparing self.old.limit self.new.held result }
        ensures later { S.faults src.old ≤ S.faults src.new }
        ensures failed { IsErrOf result LineFault.Read → Rose (S.faults src.old) (S.faults src.new) }
    {
        match self.reach(src)? {
            Some(len) => Ok(Some(self.take_line(len)?)),
            None => Ok(None),
        }
    }

    /// The next line, or `None` at the end of the input. It reads only where the bytes that it holds
    /// show nothing of the next line's end. After a fault it answers the same fault from then on.
    pub fn next<S: Source>(&mut self, src: &mut S) -> Result<Option<Line>, LineFault>
        ensures exact { self.old.failed ≡ None → IfSome (ahead self.old.held (S.left src.old)) (λ bytes.
            Answers self.old self.new bytes (ahead self.new.held (S.left src.new)) result) }
        ensures moves { Moves self.old self.new result }
        ensures idle { IsTrue (shows_next self.old.limit self.old.room self.old.held)
            → src.new ≡ src.old }
        ensures sparing { self.old.failed ≡ None → length self.old.held < read_size
            → IsSparing self.old.limit self.new.held result }
        ensures failed { IsErrOf result LineFault.Read → self.old.failed ≡ None
            → Rose (S.faults src.old) (S.faults src.new) }
        ensures repeats { IfSome self.old.failed (Repeats self.old self.new src.old src.new result) }
        ensures later { S.faults src.old ≤ S.faults src.new }
    {
        if let Some(fault) = self.failed {
            return Err(fault);
        }
        match self.advance(src) {
            Ok(line) => Ok(line),
            Err(fault) => {
                self.failed = Some(fault);
                Err(fault)
            }
        }
    }
}
