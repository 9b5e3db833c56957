ghost use Rattle.std.specs.Prelude.{ℕ, ℤ, List, ◌+ℤ◌, ◌≤ℤ◌};
ghost use Rattle.pl_stn.specs.declared.net.Edge.{Edge};
ghost use Rattle.pl_stn.specs.declared.net.Net.{Net};
ghost use Rattle.pl_stn.specs.Nets.{IsSolution, time_of};
ghost use Rattle.pl_times.specs.Times.{ArePath};

/// In each solution the last point of a path is at most so long after the first as the bounds along the path add up to.
pub fn laws_of_paths()
    ensures { (net : Net) (from to : ℕ) (most : ℤ) (es : List Edge) → ArePath net from to most es → (times : List ℤ) → IsSolution net times → time_of times to ≤ℤ (time_of times from +ℤ most) }
{}
