ghost use Rattle.std.specs.Prelude.{◌≡◌, ℕ, Bool, ◌↔◌, true, List, [], Contains, None, Some, All, map, if◌then◌else◌, ◌==◌};
ghost use Rattle.std.specs.Option.{option_map};
ghost use Rattle.std.specs.List.Sorted.{IsStrictlyIncreasing};
ghost use Rattle.pl_model.specs.declared.whole.Model.{Model};
ghost use Rattle.pl_model.specs.Checked.{IsChecked};
ghost use Rattle.pl_plan.specs.declared.activity.Activity.{Activity};
ghost use Rattle.pl_plan.specs.Activities.{IsLive, AreRising, activity_of, placed, without, exchanged, ended, with_end};
ghost use Rattle.pl_plan.specs.Trees.{IsRooted, Descends, parent_of, descends, root_of, subtree_of};
ghost use Rattle.pl_plan.specs.Fitting.{Fits, FitsAlone, chosen_slots};
ghost use Rattle.pl_plan.specs.LookUps.{FitsAt, AreNewChildren, detailed_at};
ghost use Rattle.pl_plan.specs.Moves.{KeepsTree, kept, without_subtree, without_below, abstracted};
ghost use Rattle.pl_plan.specs.Values.{Row, values_of};
ghost use Rattle.pl_plan.specs.Firm.{is_firm, end_of};
ghost use Rattle.pl_plan.specs.Laws.{IsRootOf, AreValues, AreSameAbove};

/// The test of descent is exact, a subtree has exactly the live ids that descend, rising, and each activity has one root.
pub fn laws_of_trees()
    ensures sound { (xs : List Activity) → IsRooted xs → (top id : ℕ) → descends xs top id ≡ true → Descends xs top id }
    ensures complete { (xs : List Activity) → IsRooted xs → (top id : ℕ) → Descends xs top id → descends xs top id ≡ true }
    ensures joins { (xs : List Activity) → (top middle id : ℕ) → Descends xs top middle → Descends xs middle id → Descends xs top id }
    ensures members { (xs : List Activity) → IsRooted xs → (top id : ℕ) → Contains (subtree_of top xs) id ↔ (IsLive id xs × Descends xs top id) }
    ensures rising { (xs : List Activity) → AreRising xs → (top : ℕ) → IsStrictlyIncreasing (subtree_of top xs) }
    ensures root { (xs : List Activity) → IsRooted xs → (id : ℕ) → IsLive id xs → IsRootOf xs id (root_of id xs) }
    ensures only_root { (xs : List Activity) → IsRooted xs → (id root : ℕ) → IsRootOf xs id root → root ≡ root_of id xs }
{}

/// In a checked model and a plan that fits it the values have their meanings, and no others do: so the way in which they
/// are worked out is no part of what they mean. Values, firmness and end hang on the ancestors alone.
pub fn laws_of_values()
    ensures solve { (model : Model) (xs : List Activity) → IsChecked model → Fits model xs → AreValues model xs (values_of model xs) }
    ensures only { (model : Model) (xs : List Activity) → IsChecked model → Fits model xs → (values : ℕ → Row) → AreValues model xs values → (id : ℕ) → IsLive id xs → values id ≡ values_of model xs id }
    ensures local { (model : Model) (xs ys : List Activity) → IsRooted xs → IsRooted ys → (id : ℕ) → AreSameAbove xs ys id → values_of model xs id ≡ values_of model ys id }
    ensures local_firm { (model : Model) (xs ys : List Activity) → IsRooted xs → IsRooted ys → (id : ℕ) → AreSameAbove xs ys id → is_firm model xs id ≡ is_firm model ys id }
    ensures local_end { (model : Model) (xs ys : List Activity) → IsRooted xs → IsRooted ys → (id : ℕ) → AreSameAbove xs ys id → end_of model xs id ≡ end_of model ys id }
{}

/// What is put back after it was taken leaves the list as it was. Each move of repair leaves
/// activities that fit the model: a new root, a change of starts or of values that are set, a root
/// that goes with all that descends from it, and an abstraction. For every other change: activities
/// fit the model exactly where each of them owes nothing by what is found under ids.
pub fn laws_of_moves()
    ensures back { (xs : List Activity) → AreRising xs → (a : Activity) → activity_of a.id xs ≡ Some a → placed a (without a.id xs) ≡ xs }
    ensures rooted { (xs : List Activity) → IsRooted xs → AreRising xs → (top : ℕ) → IsRooted (without_subtree top xs) }
    ensures look_ups { (model : Model) (xs : List Activity) → AreRising xs → ((id : ℕ) (a : Activity) → activity_of id xs ≡ Some a → FitsAt model (λ q. activity_of q xs) id a) → Fits model xs }
    ensures owes { (model : Model) (xs : List Activity) → AreRising xs → Fits model xs → (id : ℕ) (a : Activity) → activity_of id xs ≡ Some a → FitsAt model (λ q. activity_of q xs) id a }
    ensures added { (model : Model) (xs : List Activity) → AreRising xs → Fits model xs → (a : Activity) → activity_of a.id xs ≡ None → FitsAlone model a → a.parent ≡ None → chosen_slots model a ≡ [] → Fits model (placed a xs) }
    ensures changed { (model : Model) (xs : List Activity) → AreRising xs → Fits model xs → (change : Activity → Activity) → KeepsTree change → ((a : Activity) → (change a).detail ≡ a.detail) → All (λ a. FitsAlone model (change a)) xs → Fits model (map change xs) }
    ensures detailed { (model : Model) (xs : List Activity) → AreRising xs → Fits model xs → (before parent : Activity) → activity_of parent.id xs ≡ Some before → before.parent ≡ parent.parent → before.kind ≡ parent.kind → chosen_slots model before ≡ [] → FitsAlone model parent → (children ys : List Activity) → AreRising ys → AreNewChildren model xs parent children → ((q : ℕ) → activity_of q ys ≡ detailed_at parent children xs q) → Fits model ys }
    ensures deleted { (model : Model) (xs : List Activity) → AreRising xs → Fits model xs → (top : ℕ) → parent_of top xs ≡ None → Fits model (without_subtree top xs) }
    ensures abstracted { (model : Model) (xs : List Activity) → AreRising xs → Fits model xs → (top : ℕ) → Fits model (map (abstracted top) (without_below top xs)) }
{}

/// What is found under each id settles the activities; what is found after each change of them. An end that is measured
/// exchanges one activity.
pub fn laws_of_look_ups()
    ensures same { (xs ys : List Activity) → AreRising xs → AreRising ys → ((q : ℕ) → activity_of q xs ≡ activity_of q ys) → xs ≡ ys }
    ensures placed { (a : Activity) (xs : List Activity) (q : ℕ) → activity_of a.id xs ≡ None → activity_of q (placed a xs) ≡ (if a.id == q then Some a else activity_of q xs) }
    ensures without { (xs : List Activity) → AreRising xs → (id q : ℕ) → activity_of q (without id xs) ≡ (if id == q then None else activity_of q xs) }
    ensures exchanged { (a : Activity) (xs : List Activity) (q : ℕ) → activity_of q (exchanged a xs) ≡ (if a.id == q then option_map (λ x. a) (activity_of q xs) else activity_of q xs) }
    ensures ended { (xs : List Activity) → AreRising xs → (id moment : ℕ) (a : Activity) → activity_of id xs ≡ Some a → with_end id moment xs ≡ exchanged (ended moment a) xs }
    ensures kept { (stays : ℕ → Bool) (xs : List Activity) (q : ℕ) → activity_of q (kept stays xs) ≡ (if stays q then activity_of q xs else None) }
    ensures rising_placed { (a : Activity) (xs : List Activity) → AreRising xs → activity_of a.id xs ≡ None → AreRising (placed a xs) }
    ensures rising_without { (id : ℕ) (xs : List Activity) → AreRising xs → AreRising (without id xs) }
    ensures rising_exchanged { (a : Activity) (xs : List Activity) → AreRising xs → AreRising (exchanged a xs) }
    ensures rising_kept { (stays : ℕ → Bool) (xs : List Activity) → AreRising xs → AreRising (kept stays xs) }
{}
