ghost use Rattle.std.specs.Prelude.{◌≡◌, List, ◌&&◌, ◌||◌, not};
ghost use Rattle.std.specs.declared.cmp.Ordering.TheVariants.{Equal};
ghost use Rattle.std.specs.Cmp.{IsTotalOrder};
ghost use Rattle.std.specs.List.Sorted.{IsStrictlySortedBy};
ghost use Rattle.pl_conflict.specs.declared.conflict.Conflict.{Conflict};
ghost use Rattle.pl_conflict.specs.Order.{conflict_cmp, has};
ghost use Rattle.pl_conflict.specs.Sorting.{AreInOrder, sorted, exchanged};

/// Conflicts are totally ordered, only equal ones compare equal, and a sorted list without repeats is fixed by
/// what it holds.
pub fn order_laws()
    ensures total { IsTotalOrder conflict_cmp }
    ensures exact { (x y : Conflict) → conflict_cmp x y ≡ Equal → x ≡ y }
    ensures unique { (xs ys : List Conflict) → IsStrictlySortedBy conflict_cmp xs → IsStrictlySortedBy conflict_cmp ys → ((q : Conflict) → has q xs ≡ has q ys) → xs ≡ ys }
{}

/// Sorting puts a list's conflicts in order and keeps which they are: lists that hold the same are
/// sorted the same, and a list in order is its own sorting.
pub fn sorting_laws()
    ensures ordered { (ks : List Conflict) → AreInOrder (sorted ks) }
    ensures members { (ks : List Conflict) (q : Conflict) → has q (sorted ks) ≡ has q ks }
    ensures same { (xs ys : List Conflict) → ((q : Conflict) → has q xs ≡ has q ys) → sorted xs ≡ sorted ys }
    ensures itself { (ks : List Conflict) → AreInOrder ks → sorted ks ≡ ks }
{}

/// After an exchange a conflict stands where it stood and did not go, or where it came. So a sorting
/// follows a change of its list by what went and what came.
pub fn exchange_laws()
    ensures ordered { (ks went came : List Conflict) → AreInOrder (exchanged ks went came) }
    ensures members { (ks went came : List Conflict) (q : Conflict) →
        has q (exchanged ks went came) ≡ ((has q ks && not (has q went)) || has q came) }
    ensures mended { (old new went came : List Conflict) →
        ((q : Conflict) → has q new ≡ ((has q old && not (has q went)) || has q came)) →
        exchanged (sorted old) went came ≡ sorted new }
{}
