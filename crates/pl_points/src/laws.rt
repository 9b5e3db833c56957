ghost use Rattle.pl_points.specs.Laws.{AreExact, AreUnique, Split, AreLocal};
ghost use Rattle.pl_points.specs.Laws.{SpansAreExchanged, AreExchanged, TotalsAreAlike, AreAlike, OthersRemain};

/// The laws of maximal spans, for proofs to rest on. It does nothing.
pub fn laws_of_spans()
    ensures exact { AreExact }
    ensures unique { AreUnique }
    ensures split { Split }
    ensures local { AreLocal }
{}

/// The law of a change of spans, for proofs to rest on. It does nothing.
pub fn laws_of_changes()
    ensures { SpansAreExchanged }
{}

/// The law of a change of a list of any items that are told apart, for proofs to rest on. It does nothing.
pub fn laws_of_exchanges<T>()
    ensures { AreExchanged T }
{}

/// The laws of what stands, in any order, for proofs to rest on. It does nothing.
pub fn laws_of_standing<T>()
    ensures totals { TotalsAreAlike T }
    ensures alike { AreAlike T }
    ensures others { OthersRemain T }
{}
