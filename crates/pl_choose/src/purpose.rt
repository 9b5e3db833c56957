ghost use Rattle.std.specs.Prelude.{◌≡◌};
ghost use Rattle.pl_choose.specs.Picked.{enough_for};

/// What a repair is chosen for.
#[derive(Clone, Copy, PartialEq, Eq)]
pub(crate) enum Purpose {
    /// To propose it: the board stays as it is.
    Propose,
    /// To make it on the board.
    Mend,
}

/// How many conflicts a move may leave and stay made, given how many it may leave and be known as the best. If it is only to be
/// proposed, it does not stay made, however few it leaves.
pub(crate) fn enough_for(purpose: Purpose, most: Option<u32>) -> Option<u32>
    ensures { result ≡ enough_for purpose most }
{
    match purpose {
        Purpose::Propose => None,
        Purpose::Mend => most,
    }
}
