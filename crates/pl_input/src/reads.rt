ghost use Rattle.std.specs.Prelude.{◌≡◌, ◌≤◌, None, Some, IfErr, IsErrOf, ◌<◌};
ghost use Rattle.pl_io.specs.Faults.{Rose};
ghost use Rattle.pl_io.specs.Lines.{ahead};
ghost use Rattle.pl_input.specs.Reads.{OneLine};

use pl_io::{Line, LineFault, LineReader, Source};

/// The next line of a reader that has not failed. Behind a fault the reader answers it from then on.
#[tactic(auto, using(crate::proofs::Reading::next_gives))]
pub fn next_line<S: Source>(lines: &mut LineReader, src: &mut S) -> Result<Option<Line>, LineFault>
    requires { lines.old.failed ≡ None }
    ensures line { OneLine lines.old (ahead lines.old.held (S.left src.old)) result lines.new (ahead lines.new.held (S.left src.new)) }
    ensures failed { IfErr result (λ fault. lines.new.failed ≡ Some fault) }
    ensures cause { IsErrOf result LineFault.Read → Rose (S.faults src.old) (S.faults src.new) }
    ensures later { S.faults src.old ≤ S.faults src.new }
{
    lines.next(src)
}
