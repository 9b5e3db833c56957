ghost use Rattle.std.specs.Prelude.{◌≡◌};
ghost use Rattle.pl_state.specs.Rows.{covers};

use crate::key::Key;

// How far a search goes through what is sorted by keys: to those before a key or with it, or to
// those before a moment or at it.
#[derive(Clone, Copy)]
pub(crate) enum Bound {
    Before(Key),
    UpTo(Key),
    Earlier(u32),
    By(u32),
}

impl Bound {
    pub(crate) fn covers(self, key: Key) -> bool
        ensures { result ≡ covers self key }
    {
        match self {
            Bound::Before(end) => key.is_before(end),
            Bound::UpTo(end) => !end.is_before(key),
            Bound::Earlier(at) => key.at < at,
            Bound::By(at) => key.at <= at,
        }
    }
}
