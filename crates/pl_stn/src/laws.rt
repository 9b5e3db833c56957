ghost use Rattle.std.specs.Prelude.{ℕ, ℤ, List};
ghost use Rattle.pl_stn.specs.declared.net.Net.{Net};
ghost use Rattle.pl_stn.specs.Nets.{IsSolution, IsNegativeCycle};

/// A net with a negative cycle has no solution, whoever found the cycle.
pub fn cycles_exclude_solutions()
    ensures { (net : Net) (edges : List ℕ) (times : List ℤ) → IsNegativeCycle net edges → IsSolution net times → ⊥ }
{}
