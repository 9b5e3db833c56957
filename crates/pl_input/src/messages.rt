ghost use Rattle.std.specs.Prelude.{◌≡◌, ◌≤◌, None, Some, IfOk, IfErr, IfSome, IsErrOf, ◌<◌};
ghost use Rattle.pl_io.specs.Faults.{Rose};
ghost use Rattle.pl_io.specs.Lines.{ahead};
ghost use Rattle.pl_input.specs.Waits.{MessageGives};

use crate::is_blank_line;
use crate::reads::next_line;
use pl_io::{Line, LineFault, LineReader, Source};

/// The next line that isn't blank. Behind a fault the reader answers it from then on.
#[tactic(auto, using(crate::proofs::Skipping::skips_none, crate::proofs::Skipping::skips_on, crate::proofs::Skipping::skips_message, crate::proofs::Skipping::skips_end, crate::proofs::Skipping::skips_fault))]
pub fn next_message<S: Source>(
    lines: &mut LineReader,
    src: &mut S,
) -> Result<Option<Line>, LineFault>
    requires { lines.old.failed ≡ None }
    ensures message { MessageGives lines.old (ahead lines.old.held (S.left src.old)) result lines.new (ahead lines.new.held (S.left src.new)) }
    ensures numbered { IfOk result (λ message. IfSome message (λ line. line.number ≡ lines.new.number)) }
    ensures failed { IfErr result (λ fault. lines.new.failed ≡ Some fault) }
    ensures cause { IsErrOf result LineFault.Read → Rose (S.faults src.old) (S.faults src.new) }
    ensures later { S.faults src.old ≤ S.faults src.new }
{
    'blanks: loop {
        let Some(line) = next_line(lines, src)? else {
            return Ok(None);
        };
        if !is_blank_line(line.bytes()) {
            return Ok(Some(line));
        }
    }
}
