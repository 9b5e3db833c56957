//! Where an id stands among entries of rising ids.
ghost use Rattle.std.specs.Prelude.{IfOk, IfErr, IsTrue, length};
ghost use Rattle.pl_update.specs.Evaluations.Kept.{Entries, AreRising};
ghost use Rattle.pl_update.specs.Evaluations.Places.{IsPlaceOf, IsGapFor};

use pl_plan::Evaluated;

// Whether all ids are less than this one, so that an entry of it would go to the end.
fn is_above_all(entries: &[(u32, Evaluated)], id: u32) -> bool
    requires rising { AreRising entries.now }
    ensures { IsTrue result → IsGapFor id entries.now (length entries.now) }
{
    match entries.last() {
        Some(last) => last.0 < id,
        None => true,
    }
}

fn search_all(entries: &[(u32, Evaluated)], id: u32) -> Result<usize, usize>
    requires rising { AreRising entries.now }
    ensures found { IfOk result (IsPlaceOf id entries.now) }
    ensures absent { IfErr result (IsGapFor id entries.now) }
{
    entries.binary_search_by_key(&id, |entry| entry.0)
}

/// Where the entry of this id is, or where it would go. Most new ids are above all others.
pub(crate) fn search(entries: &[(u32, Evaluated)], id: u32) -> Result<usize, usize>
    requires rising { AreRising entries.now }
    ensures found { IfOk result (IsPlaceOf id entries.now) }
    ensures absent { IfErr result (IsGapFor id entries.now) }
{
    if is_above_all(entries, id) {
        Err(entries.len())
    } else {
        search_all(entries, id)
    }
}
