ghost use Rattle.std.specs.Prelude.{◌≡◌, ℕ, Bool, true, List};
ghost use Rattle.pl_points.specs.Laws.{Exchanged};
ghost use Rattle.pl_points.specs.Standing.{stands, without};
ghost use Rattle.pl_state.specs.declared.reservation.Setting.{Setting};
ghost use Rattle.pl_state.specs.declared.reservation.Must.{Must};
ghost use Rattle.pl_state.specs.Keys.{AreSorted, Has};
ghost use Rattle.pl_state.specs.Sets.{set_key, same_setting, with_set};
ghost use Rattle.pl_state.specs.Musts.{must_key, same_must, with_must};
ghost use Rattle.pl_state.specs.Sorted.{AreDistinct, NoneHas, bad_key, broken_key};
ghost use Rattle.pl_state.specs.declared.answer.BadSet.{BadSet};
ghost use Rattle.pl_state.specs.declared.answer.BrokenMust.{BrokenMust};
ghost use Rattle.pl_state.specs.declared.answer.StateChange.{StateChange};
ghost use Rattle.pl_state.specs.Timelines.{Standing, AreChanges, bad_now, broken_now, same_bad, same_broken};

/// Sets stay sorted by (moment, id, index) and musts by (id, index) as they come and go.
pub fn order_laws()
    ensures set_came { (u : Setting) (xs : List Setting) →
        AreSorted set_key xs → AreSorted set_key (with_set u xs) }
    ensures set_went { (u : Setting) (xs : List Setting) →
        AreSorted set_key xs → AreSorted set_key (without same_setting u xs) }
    ensures must_came { (u : Must) (xs : List Must) →
        AreSorted must_key xs → AreSorted must_key (with_must u xs) }
    ensures must_went { (u : Must) (xs : List Must) →
        AreSorted must_key xs → AreSorted must_key (without same_must u xs) }
{}

/// Sets without two of one moment, id and index stay so as they come, where none has the key yet, and as
/// they go, after which none has it. So do musts without two of one id and index.
pub fn distinct_laws()
    ensures set_came { (u : Setting) (xs : List Setting) →
        NoneHas set_key (set_key u) xs → AreDistinct set_key xs → AreDistinct set_key (with_set u xs) }
    ensures set_went { (u : Setting) (xs : List Setting) →
        AreDistinct set_key xs → AreDistinct set_key (without same_setting u xs) }
    ensures set_gone { (u : Setting) (xs : List Setting) → stands same_setting u xs ≡ true →
        AreDistinct set_key xs → NoneHas set_key (set_key u) (without same_setting u xs) }
    ensures must_came { (u : Must) (xs : List Must) →
        NoneHas must_key (must_key u) xs → AreDistinct must_key xs → AreDistinct must_key (with_must u xs) }
    ensures must_went { (u : Must) (xs : List Must) →
        AreDistinct must_key xs → AreDistinct must_key (without same_must u xs) }
    ensures must_gone { (u : Must) (xs : List Must) → stands same_must u xs ≡ true →
        AreDistinct must_key xs → NoneHas must_key (must_key u) (without same_must u xs) }
{}

/// What is broken and which steps are not allowed after a change is what was before, less what went,
/// and what came.
pub fn change_laws()
    ensures musts { (broken broken' : List BrokenMust) (bad bad' : List BadSet) (change : StateChange) →
        AreChanges broken broken' bad bad' change →
        Exchanged same_broken broken broken' change.musts_went change.musts_came }
    ensures steps { (broken broken' : List BrokenMust) (bad bad' : List BadSet) (change : StateChange) →
        AreChanges broken broken' bad bad' change →
        Exchanged same_bad bad bad' change.steps_went change.steps_came }
{}

/// The steps that are not allowed are told by (moment, id, index), and where no two musts have one
/// id and index, what is broken by (id, index, from).
pub fn told_in_order()
    ensures bad { (s : Standing) → AreSorted set_key s.sets → AreSorted bad_key (bad_now s) }
    ensures broken { (s : Standing) → AreSorted must_key s.musts → AreDistinct must_key s.musts →
        AreSorted broken_key (broken_now s) }
{}

/// Sets without two of one moment, id and index are one list, in whatever order they came, and so are
/// musts without two of one id and index. With equal lists all that is told is equal.
pub fn same_standing()
    ensures sets { (xs ys : List Setting) → AreSorted set_key xs → AreSorted set_key ys →
        AreDistinct set_key xs → AreDistinct set_key ys →
        ((x : Setting) → Has x xs → Has x ys) → ((x : Setting) → Has x ys → Has x xs) → xs ≡ ys }
    ensures musts { (xs ys : List Must) → AreSorted must_key xs → AreSorted must_key ys →
        AreDistinct must_key xs → AreDistinct must_key ys →
        ((x : Must) → Has x xs → Has x ys) → ((x : Must) → Has x ys → Has x xs) → xs ≡ ys }
{}
