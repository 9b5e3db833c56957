//! Scripts of the messages about what has begun and what has not.
/// The end of what has begun is measured.
pub(crate) const MEASURED: &str = "close = Ok(Done)
until 1 30 = Ok(NotBegun)
rest = Ok(Rested(Clear))
close = Ok(Done)
tick 10 = Ok(Done)
rest = Ok(Rested(Clear))
dispatch = Ok(Sent
commit 40 = Ok(Done)
close = Ok(Done)
until 1 = Ok(BadLine)
rest = Ok(Rested(Clear))
close = Ok(Done)
until 2 101 = Ok(Range)
rest = Ok(Rested(Clear))
close = Ok(Done)
until 1 4294967306 = Ok(Range)
rest = Ok(Rested(Clear))
close = Ok(Done)
until 2 30 = Ok(NotBegun)
rest = Ok(Rested(Clear))
close = Ok(Done)
until 4294967297 30 = Ok(NotBegun)
rest = Ok(Rested(Clear))
close = Ok(Done)
until 1 10 = Ok(EndBack)
rest = Ok(Rested(Clear))
close = Ok(Done)
until 1 100 = Ok(Done)
rest = Ok(Rested(Clear))
close = Ok(Done)
until 1 11 = Ok(Done)
halted = false";

/// What has not begun is halted.
pub(crate) const HALTED: &str = "close = Ok(Done)
goal 2 obs 5 8 must = Ok(TooLate)
rest = Ok(Rested(Clear))
close = Ok(Done)
halted = false
halt = Ok(Done)
halted = true
choice = None
rest = Ok(Rested(Clear))
choice = Some(Close)
close = Ok(Done)
goal 2 obs 5 8 must = Ok(Done)
choice = None
rest = Err(NotNow)
commit 2 = Ok(Done)
halted = true";

/// A tick ends the halt.
pub(crate) const GOES_ON: &str = "close = Ok(Done)
halt = Ok(Done)
rest = Ok(Rested(Clear))
close = Ok(Done)
tick 0 = Ok(TickBack)
rest = Ok(Rested(Clear))
choice = Some(Close)
close = Ok(Done)
tick 101 = Ok(TickBeyond)
halted = true
rest = Ok(Rested(Clear))
close = Ok(Done)
tick 5 = Ok(Done)
halted = false
choice = Some(Commit(35))";
