ghost use Rattle.std.specs.Prelude.{◌≡◌, ◌≤◌, ◌<◌, ◌++◌, ◌^◌, None, IfOk, IsErrOf, length, List, ℕ};
ghost use Rattle.pl_io.specs.Faults.{Rose};
ghost use Rattle.pl_io.specs.Lines.{ahead, with_newline};
ghost use Rattle.pl_input.specs.Heads.{Keeps, FindsInLine, ReadsHeadLine, HeadGives};

use crate::found::{Found, Head};
use crate::is_begin_line;
use crate::reads::next_line;
use pl_io::{LineFault, LineReader, Source};
use std::alloc::{AllocError, Global};

const TEXT_LIMIT: usize = 1_048_576;

/// Puts a line behind what is kept, unless the text gets too long.
fn keep(kept: Option<Vec<u8>>, line: &[u8]) -> Result<Option<Vec<u8>>, AllocError>
    ensures { IfOk result (λ more. (text : List ℕ) → Keeps kept text → Keeps more (text ++ with_newline line.now)) }
{
    match kept {
        Some(mut kept) if kept.len() < TEXT_LIMIT && kept.len() + line.len() < TEXT_LIMIT => {
            kept.extend_from_slice(line)?;
            kept.push(b'\n')?;
            Ok(Some(kept))
        }
        _ => Ok(None),
    }
}

fn look_at(alloc: Global, line: &[u8], kept: Option<Vec<u8>>) -> Result<Found, AllocError>
    requires { length line.now < 2 ^ 32 }
    ensures { IfOk result (FindsInLine line.now kept) }
{
    if is_begin_line(alloc, line)? {
        Ok(Found::Text(kept))
    } else {
        let more = keep(kept, line)?;
        Ok(Found::More(more))
    }
}

/// The next line of the model's text, or its end.
#[tactic(auto, using(crate::proofs::Reading::memory_halts))]
fn look<S: Source>(
    alloc: Global,
    lines: &mut LineReader,
    src: &mut S,
    kept: Option<Vec<u8>>,
) -> Result<Found, LineFault>
    requires limit { lines.old.limit < 2 ^ 32 }
    requires working { lines.old.failed ≡ None }
    ensures line { ReadsHeadLine lines.old (ahead lines.old.held (S.left src.old)) kept result lines.new (ahead lines.new.held (S.left src.new)) }
    ensures cause { IsErrOf result LineFault.Read → Rose (S.faults src.old) (S.faults src.new) }
    ensures later { S.faults src.old ≤ S.faults src.new }
{
    match next_line(lines, src)? {
        None => Ok(Found::NoBegin),
        Some(line) => {
            let found = look_at(alloc, line.bytes(), kept)?;
            Ok(found)
        }
    }
}

/// Reads the model's text, up to and with the first `begin` line.
#[tactic(auto, using(crate::proofs::Beginning::before_none, crate::proofs::Beginning::before_on, crate::proofs::Beginning::before_begun, crate::proofs::Beginning::before_ended, crate::proofs::Beginning::before_halted))]
pub fn read_head<S: Source>(
    alloc: Global,
    lines: &mut LineReader,
    src: &mut S,
) -> Result<Head, LineFault>
    requires limit { lines.old.limit < 2 ^ 32 }
    requires working { lines.old.failed ≡ None }
    ensures head { HeadGives lines.old (ahead lines.old.held (S.left src.old)) result lines.new (ahead lines.new.held (S.left src.new)) }
    ensures cause { IsErrOf result LineFault.Read → Rose (S.faults src.old) (S.faults src.new) }
    ensures later { S.faults src.old ≤ S.faults src.new }
{
    let mut kept = Some(Vec::new(alloc));
    'head: loop {
        match look(alloc, lines, src, kept)? {
            Found::More(more) => kept = more,
            Found::Text(text) => return Ok(Head::Text(text)),
            Found::NoBegin => return Ok(Head::NoBegin),
        }
    }
}
