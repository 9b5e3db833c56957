ghost use Rattle.std.specs.Prelude.{◌≡◌, ℕ, ◌↔◌, false, List, Contains, AllPairs, Some, None};
ghost use Rattle.pl_model.specs.declared.whole.Model.{Model};
ghost use Rattle.pl_links.specs.declared.placed.Placed.{Placed};
ghost use Rattle.pl_links.specs.declared.broken.Broken.{Broken};
ghost use Rattle.pl_links.specs.Items.{AreRising, AreApart, item_of, with_item, without, child_of};
ghost use Rattle.pl_links.specs.Broken.{broken_by, broken_of};
ghost use Rattle.pl_links.specs.Laws.{IsBroken, IsBefore, is_concerned};

/// What is listed as broken is exactly what is broken, by id and index, a link before an order, and
/// nothing twice. The child in a slot is the only activity there. Where an activity comes or goes,
/// what another one breaks stays, unless it is the parent or can have the first as a partner.
pub fn laws_of_links()
    ensures members { (model : Model) (items : List Placed) (b : Broken) →
        Contains (broken_of model items) b ↔ IsBroken model items b }
    ensures ordered { (model : Model) (items : List Placed) → AreRising items →
        AllPairs IsBefore (broken_of model items) }
    ensures child { (items : List Placed) → AreApart items → (parent slot : ℕ) (p : Placed) →
        (child_of parent slot items ≡ Some p)
        ↔ (Contains items p × (p.parent ≡ Some (parent, slot))) }
    ensures placed { (model : Model) (items : List Placed) (p own : Placed) →
        item_of p.id items ≡ None → is_concerned model p own ≡ false →
        broken_by model (with_item p items) own ≡ broken_by model items own }
    ensures taken { (model : Model) (items : List Placed) (p own : Placed) →
        item_of p.id items ≡ Some p → is_concerned model p own ≡ false →
        broken_by model (without p.id items) own ≡ broken_by model items own }
{}
