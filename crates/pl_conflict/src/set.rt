ghost use Rattle.std.specs.Prelude.{◌≡◌, [], ◌∷◌, ◌++◌, length, not, if◌then◌else◌, true, false, ◌&&◌, ◌||◌, IfOk, IfSome, OnOk, OnErr, slice_get, min, ◌==◌};
ghost use Rattle.std.specs.BTreeSet.{insert_key};
ghost use Rattle.std.specs.Set.{remove_key};
ghost use Rattle.std.specs.List.Sorted.{IsStrictlySortedBy};
ghost use Rattle.std.specs.BTreeMap.{is_at};
ghost use Rattle.std.specs.Map.Iter.{ShowsInOrder, deref};
ghost use Rattle.pl_conflict.specs.declared.conflict.Conflict.{Conflict};
ghost use Rattle.pl_conflict.specs.Order.{conflict_cmp, has};
ghost use Rattle.pl_conflict.specs.Sorting.{sorted, left_by, exchanged};

use crate::conflict::Conflict;
use std::alloc::{AllocError, Global};
use std::collections::BTreeSet;
use std::collections::btree_set::Iter;

// So many conflicts are looked through one by one; of more a set is made first.
const FEW: usize = 8;

/// A set of conflicts, which contracts see as its sorted list.
#[derive(Drop)]
pub struct ConflictSet {
    alloc: Global,
    all: BTreeSet<Conflict>,
}

impl std::marker::Model for ConflictSet {
    ghost use Rattle.std.specs.Prelude.{List};
    ghost use Rattle.pl_conflict.specs.declared.conflict.Conflict.{Conflict};

    ghost Value = { List Conflict };

    ghost use Rattle.std.specs.List.Sorted.{IsStrictlySortedBy};
    ghost use Rattle.pl_conflict.specs.Order.{conflict_cmp};

    ghost view = { λ s. s.all.keys };

    ghost invariant = { λ s. IsStrictlySortedBy conflict_cmp s.all.keys };
}

impl ConflictSet {
    /// No conflicts.
    pub fn new(alloc: Global) -> ConflictSet
        ensures { result ≡ [] }
    {
        ConflictSet {
            alloc,
            all: BTreeSet::new(alloc),
        }
    }

    /// Puts `k` in its place, and answers whether it was new.
    pub fn insert(&mut self, k: Conflict) -> Result<bool, AllocError>
        ensures fresh { IfOk result (λ fresh. fresh ≡ not (has k self.old)) }
        ensures ok { OnOk result (self.new ≡ insert_key conflict_cmp self.old k) }
        ensures members { OnOk result ((q : Conflict) → has q self.new ≡ (if is_at (conflict_cmp k) q then true else has q self.old)) }
        ensures err { OnErr result (self.new ≡ self.old) }
        ensures sorted { IsStrictlySortedBy conflict_cmp self.new }
    {
        Ok(self.all.insert(k)?)
    }

    /// Takes `k` out, and answers whether it was there.
    pub fn remove(&mut self, k: &Conflict) -> bool
        ensures there { result ≡ has k.now self.old }
        ensures after { self.new ≡ remove_key (is_at (conflict_cmp k.now)) self.old }
        ensures members { (q : Conflict) → has q self.new ≡ (if is_at (conflict_cmp k.now) q then false else has q self.old) }
        ensures sorted { IsStrictlySortedBy conflict_cmp self.new }
    {
        self.all.remove(k)
    }

    /// Whether this very conflict is in: one that differs in a single field is another.
    pub fn has(&self, k: &Conflict) -> bool
        ensures there { result ≡ has k.now self.now }
        ensures sorted { IsStrictlySortedBy conflict_cmp self.now }
    {
        self.all.contains(k)
    }

    /// The least conflict.
    pub fn first(&self) -> Option<Conflict>
        ensures least { result ≡ slice_get self.now 0 }
        ensures sorted { IsStrictlySortedBy conflict_cmp self.now }
    {
        self.all.first().copied()
    }

    /// How many conflicts there are; the count stands still at its type's end.
    pub fn len(&self) -> u32
        ensures count { result ≡ min (length self.now) 4294967295 }
        ensures sorted { IsStrictlySortedBy conflict_cmp self.now }
    {
        self.all.len().min(u32::MAX as usize) as u32
    }

    /// Whether nothing is wrong.
    pub fn is_empty(&self) -> bool
        ensures empty { result ≡ (length self.now == 0) }
        ensures sorted { IsStrictlySortedBy conflict_cmp self.now }
    {
        self.all.is_empty()
    }

    /// Takes out what went, and puts in what came; what did both is in. On an `Err` the set is as it was.
    pub fn exchange(&mut self, went: &[Conflict], came: &[Conflict]) -> Result<(), AllocError>
        ensures ok { OnOk result (self.new ≡ exchanged self.old went.now came.now) }
        ensures err { OnErr result (self.new ≡ self.old) }
        ensures members { OnOk result (
            (q : Conflict) →
            has q self.new ≡ ((has q self.old && not (has q went.now)) || has q came.now)
            ) }
        ensures sorted { IsStrictlySortedBy conflict_cmp self.new }
    {
        if came.is_empty() {
            self.remove_all(went);
            return Ok(());
        }
        if let Some(fresh) = single(went, came) {
            return self.exchange_for(went, fresh);
        }
        let leaving = without(self.alloc, came, went)?;
        let fresh = self.missing(came)?;
        self.insert_all(fresh.as_slice())?;
        self.remove_all(leaving.as_slice());
        Ok(())
    }

    // The same where a single conflict comes, which did not go.
    fn exchange_for(&mut self, went: &[Conflict], fresh: Conflict) -> Result<(), AllocError>
        requires { has fresh went.now ≡ false }
        ensures ok { OnOk result (self.new ≡ exchanged self.old went.now (fresh ∷ [])) }
        ensures err { OnErr result (self.new ≡ self.old) }
        ensures sorted { IsStrictlySortedBy conflict_cmp self.new }
    {
        self.insert(fresh)?;
        self.remove_all(went);
        Ok(())
    }

    /// Goes over the conflicts in their order.
    pub fn iter(&self) -> Iter<'_, Conflict>
        ensures rest { result ≡ self.now }
        ensures runs { ShowsInOrder (deref {X = Conflict}) }
        ensures sorted { IsStrictlySortedBy conflict_cmp self.now }
    {
        self.all.iter()
    }

    /// A copy of the conflicts as a list, the least first.
    pub fn list(&self, alloc: Global) -> Result<Vec<Conflict>, AllocError>
        ensures items { IfOk result (λ all. all.items ≡ self.now) }
        ensures sorted { IsStrictlySortedBy conflict_cmp self.now }
    {
        self.all.iter().copied().collect(alloc)
    }

    // The set of these.
    fn of(alloc: Global, all: &[Conflict]) -> Result<ConflictSet, AllocError>
        ensures { IfOk result (λ set. set ≡ sorted all.now) }
    {
        let mut set = ConflictSet::new(alloc);
        set.insert_all(all)?;
        Ok(set)
    }

    // Those of them that the set does not hold.
    fn missing(&self, all: &[Conflict]) -> Result<Vec<Conflict>, AllocError>
        ensures { IfOk result (λ missing. missing.items ≡ left_by self.now all.now) }
    {
        all.iter()
            .filter(|conflict| !self.all.contains(*conflict))
            .copied()
            .collect(self.alloc)
    }

    fn remove_all(&mut self, went: &[Conflict])
        ensures after { self.new ≡ left_by went.now self.old }
        ensures sorted { IsStrictlySortedBy conflict_cmp self.new }
    {
        for conflict in went {
            self.all.remove(conflict);
        }
    }

    // Puts these in, none of which is there.
    fn insert_all(&mut self, came: &[Conflict]) -> Result<(), AllocError>
        requires ordered { IsStrictlySortedBy conflict_cmp self.old }
        requires absent { (q : Conflict) → has q came.now ≡ true → has q self.old ≡ false }
        ensures ok { OnOk result (self.new ≡ sorted (self.old ++ came.now)) }
        ensures err { OnErr result (self.new ≡ self.old) }
    {
        for (at, conflict) in came.iter().enumerate() {
            match self.insert(*conflict) {
                Ok(_) => {}
                Err(fault) => {
                    self.remove_all(&came[..at]);
                    return Err(fault);
                }
            }
        }
        Ok(())
    }
}

// Whether it is one of a few.
fn is_among(few: &[Conflict], conflict: &Conflict) -> bool
    ensures { result ≡ has conflict.now few.now }
{
    few.iter().any(|other| conflict.cmp(other).is_eq())
}

// The conflict that comes, where it is a single one and did not go.
fn single(went: &[Conflict], came: &[Conflict]) -> Option<Conflict>
    ensures alone { IfSome result (λ k. came.now ≡ k ∷ []) }
    ensures stays { IfSome result (λ k. has k went.now ≡ false) }
{
    if came.len() != 1 {
        return None;
    }
    let fresh = came[0];
    if is_among(went, &fresh) {
        return None;
    }
    Some(fresh)
}

// Those that are none of a few.
fn without_few(
    alloc: Global,
    few: &[Conflict],
    all: &[Conflict],
) -> Result<Vec<Conflict>, AllocError>
    ensures { IfOk result (λ left. left.items ≡ left_by few.now all.now) }
{
    all.iter()
        .filter(|conflict| !is_among(few, conflict))
        .copied()
        .collect(alloc)
}

// Those that are none of the others.
fn without(
    alloc: Global,
    others: &[Conflict],
    all: &[Conflict],
) -> Result<Vec<Conflict>, AllocError>
    ensures { IfOk result (λ left. left.items ≡ left_by others.now all.now) }
{
    if others.len() <= FEW {
        without_few(alloc, others, all)
    } else {
        ConflictSet::of(alloc, others)?.missing(all)
    }
}
