//! Where an item and those with a key stand in rows.
ghost use Rattle.std.specs.Prelude.{◌≡◌, ◌≤◌, ◌<◌, ◌++◌, [], suc, length, take, drop, is_some, IfSome, IfNone};
ghost use Rattle.pl_lists.specs.Lists.{is_among};
ghost use Rattle.pl_points.specs.Standing.{without};
ghost use Rattle.pl_state.specs.Keys.{AreSorted, KnowsKey, IsRun};
ghost use Rattle.pl_state.specs.Near.{rest_after};

use crate::bound::Bound;
use crate::key::{Key, Keyed, Run};
use crate::rows::Rows;

// Where those with the key stand, from a place on.
pub(crate) fn run_in<T: Keyed>(rows: &Rows<T>, from: usize, key: Key) -> Run
    requires from { from ≤ length rows.now }
    requires sorted { AreSorted T.key rows.now }
    ensures begin { from ≤ result.begin }
    ensures behind { result.begin ≤ result.behind }
    ensures bound { result.behind ≤ length rows.now }
    ensures cut { IsRun T.key key rows.now from result.begin result.behind }
{
    let begin = rows.end_near(from, Bound::Before(key));
    let behind = rows.end_near(begin, Bound::UpTo(key));
    Run { begin, behind }
}

// Where the first such item stands, if there is one.
pub(crate) fn position_in<T: Keyed>(rows: &Rows<T>, item: &T) -> Option<usize>
    requires sorted { AreSorted T.key rows.now }
    requires known { KnowsKey T.key T.same }
    ensures among { is_some result ≡ is_among T.same rows.now item.now }
    ensures bound { IfSome result (λ i. i < length rows.now) }
    ensures gone { IfSome result (λ i. take i rows.now ++ drop (suc i) rows.now
        ≡ without T.same item.now rows.now) }
    ensures rest { IfSome result (λ i. drop (suc i) rows.now
        ≡ rest_after T.same item.now rows.now) }
    ensures none { IfNone result (without T.same item.now rows.now ≡ rows.now) }
    ensures no_rest { IfNone result (rest_after T.same item.now rows.now ≡ []) }
{
    let key = item.key();
    for place in rows.count(Bound::Before(key))..rows.len() {
        let other = rows.at(place);
        if other.is_same(item) {
            return Some(place);
        }
        if key.is_before(other.key()) {
            return None;
        }
    }
    None
}
