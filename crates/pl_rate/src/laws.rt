ghost use Rattle.pl_rate.specs.Fores.{AreBasedAsMade, AreBasedAsKept};

/// Bases that were made for a model, and those of a board, are what a forecast asks for, for proofs to rest on. It does nothing.
pub fn laws_of_bases()
    ensures made { AreBasedAsMade }
    ensures kept { AreBasedAsKept }
{}
