ghost use Rattle.std.specs.Prelude.{◌≡◌, ◌≤◌, ◌<◌, ◌++◌, [], suc, length, take, drop, true, not, is_some, IfSome, IfNone};
ghost use Rattle.pl_lists.specs.Lists.{front, back, is_among};
ghost use Rattle.pl_points.specs.Standing.{without};
ghost use Rattle.pl_state.specs.Keys.{key_before, AreSorted, KnowsKey, IsRun};
ghost use Rattle.pl_state.specs.Near.{rest_after};

// Where something stands in its list. What has no moment of its own has the moment 0.
#[derive(Clone, Copy, PartialEq, Eq, PartialOrd, Ord)]
pub(crate) struct Key {
    pub(crate) at: u32,
    pub(crate) id: u32,
    pub(crate) index: u32,
}

impl Key {
    pub(crate) fn is_before(self, other: Key) -> bool
        ensures { result ≡ key_before self other }
    {
        self.at < other.at
            || (self.at == other.at
                && (self.id < other.id || (self.id == other.id && self.index < other.index)))
    }
}

// An item of a list that is sorted by keys.
pub(crate) trait Keyed: Copy {
    ghost use Rattle.std.specs.Prelude.{Bool};
    ghost use Rattle.pl_state.specs.declared.key.Key.{Key};

    ghost key: { Self → Key };

    ghost same: { Self → Self → Bool };

    fn key(&self) -> Key
        ensures { result ≡ key self.now };

    fn is_same(&self, other: &Self) -> bool
        ensures { result ≡ same self.now other.now };
}

// How many come before the key.
pub(crate) fn count_before<T: Keyed>(list: &[T], key: Key) -> usize
    requires { AreSorted T.key list.now }
    ensures bound { result ≤ length list.now }
    ensures front { take result list.now ≡ front (λ x. key_before (T.key x) key) list.now }
    ensures rest { drop result list.now ≡ back (λ x. key_before (T.key x) key) list.now }
{
    list.partition_point(|item| item.key().is_before(key))
}

// How many come before the key or have it.
pub(crate) fn count_up_to<T: Keyed>(list: &[T], key: Key) -> usize
    requires { AreSorted T.key list.now }
    ensures bound { result ≤ length list.now }
    ensures front { take result list.now ≡ front (λ x. not (key_before key (T.key x))) list.now }
    ensures rest { drop result list.now ≡ back (λ x. not (key_before key (T.key x))) list.now }
{
    list.partition_point(|item| !key.is_before(item.key()))
}

// Where the items with a key stand.
#[derive(Clone, Copy)]
pub(crate) struct Run {
    pub(crate) begin: usize,
    pub(crate) behind: usize,
}

// Where those with the key stand, from a place on.
pub(crate) fn run_of<T: Keyed>(list: &[T], from: usize, key: Key) -> Run
    requires from { from ≤ length list.now }
    requires sorted { AreSorted T.key list.now }
    ensures begin { from ≤ result.begin }
    ensures behind { result.begin ≤ result.behind }
    ensures bound { result.behind ≤ length list.now }
    ensures cut { IsRun T.key key list.now from result.begin result.behind }
{
    let begin = from + count_before(&list[from..], key);
    let behind = begin + count_up_to(&list[begin..], key);
    Run { begin, behind }
}

// Where the first such item stands, if there is one.
pub(crate) fn position_of<T: Keyed>(list: &[T], item: &T) -> Option<usize>
    requires sorted { AreSorted T.key list.now }
    requires known { KnowsKey T.key T.same }
    ensures among { is_some result ≡ is_among T.same list.now item.now }
    ensures bound { IfSome result (λ i. i < length list.now) }
    ensures gone { IfSome result (λ i. take i list.now ++ drop (suc i) list.now
        ≡ without T.same item.now list.now) }
    ensures rest { IfSome result (λ i. drop (suc i) list.now
        ≡ rest_after T.same item.now list.now) }
    ensures none { IfNone result (without T.same item.now list.now ≡ list.now) }
    ensures no_rest { IfNone result (rest_after T.same item.now list.now ≡ []) }
{
    let key = item.key();
    for place in count_before(list, key)..list.len() {
        let other = list[place];
        if other.is_same(item) {
            return Some(place);
        }
        if key.is_before(other.key()) {
            return None;
        }
    }
    None
}
