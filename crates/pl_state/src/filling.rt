//! How a list in rows takes an item in at a place and gives one out.
ghost use Rattle.std.specs.Prelude.{◌≡◌, ◌<◌, ◌≤◌, ◌++◌, ◌∷◌, [], suc, length, take, drop, slice_index_or, OnOk, OnErr};
ghost use Rattle.pl_state.specs.Rows.{together, AreFilled, IsSpot};

use crate::key::Keyed;
use crate::row::Row;
use std::alloc::{AllocError, Global};

// A row that has as many is split before one more comes.
const MOST: usize = 512;

// Where a place lies: in which row, and behind how many items of the row.
#[derive(Clone, Copy)]
pub(crate) struct Spot {
    pub(crate) row: usize,
    pub(crate) at: usize,
}

// The row of the item at the place, or the last row where the place lies behind all items. Most items that come or go
// stand near the end, so the rows are passed from the last one back.
pub(crate) fn spot_of<T: Keyed>(rows: &[Row<T>], count: usize, place: usize) -> Spot
    requires some { 0 < length rows.now }
    requires counted { count ≡ length (together rows.now) }
    requires bound { place ≤ length (together rows.now) }
    ensures { IsSpot rows.now place result.row result.at }
{
    let mut row = rows.len() - 1;
    let mut behind = count - place;
    'rows: while rows[row].len() < behind {
        behind -= rows[row].len();
        row -= 1;
    }
    let at = rows[row].len() - behind;
    Spot { row, at }
}

// The first item.
pub(crate) fn begin<T: Keyed>(
    alloc: Global,
    rows: &mut Vec<Row<T>>,
    item: T,
) -> Result<(), AllocError>
    requires { rows.old.items ≡ [] }
    ensures ok { OnOk result (together rows.new.items ≡ item ∷ []) }
    ensures err { OnErr result (together rows.new.items ≡ []) }
    ensures filled { AreFilled rows.new.items }
{
    let mut row = Row::new(alloc);
    row.insert(0, item)?;
    rows.push(row)?;
    Ok(())
}

// The row in two halves.
fn split<T: Keyed>(alloc: Global, rows: &mut Vec<Row<T>>, row: usize) -> Result<(), AllocError>
    requires there { row < length rows.old.items }
    requires many { 1 < length (slice_index_or rows.old.items row []) }
    requires filled { AreFilled rows.old.items }
    ensures same { together rows.new.items ≡ together rows.old.items }
    ensures filled { AreFilled rows.new.items }
    ensures some { 0 < length rows.new.items }
{
    let half = rows[row].len() / 2;
    let behind = Row::from_slice(alloc, &rows[row].as_slice()[half..])?;
    rows.insert(row + 1, behind)?;
    rows[row].truncate(half);
    Ok(())
}

// Splits the row of the place where it is full.
fn make_room<T: Keyed>(
    alloc: Global,
    rows: &mut Vec<Row<T>>,
    count: usize,
    place: usize,
) -> Result<(), AllocError>
    requires some { 0 < length rows.old.items }
    requires counted { count ≡ length (together rows.old.items) }
    requires bound { place ≤ length (together rows.old.items) }
    requires filled { AreFilled rows.old.items }
    ensures same { together rows.new.items ≡ together rows.old.items }
    ensures filled { AreFilled rows.new.items }
    ensures some { 0 < length rows.new.items }
{
    let row = spot_of(rows, count, place).row;
    if rows[row].len() < MOST {
        return Ok(());
    }
    split(alloc, rows, row)
}

// Puts the item at the place.
pub(crate) fn insert_into<T: Keyed>(
    alloc: Global,
    rows: &mut Vec<Row<T>>,
    count: usize,
    place: usize,
    item: T,
) -> Result<(), AllocError>
    requires some { 0 < length rows.old.items }
    requires counted { count ≡ length (together rows.old.items) }
    requires bound { place ≤ length (together rows.old.items) }
    requires filled { AreFilled rows.old.items }
    ensures ok { OnOk result (together rows.new.items
        ≡ take place (together rows.old.items) ++ item ∷ drop place (together rows.old.items)) }
    ensures err { OnErr result (together rows.new.items ≡ together rows.old.items) }
    ensures filled { AreFilled rows.new.items }
{
    make_room(alloc, rows, count, place)?;
    let spot = spot_of(rows, count, place);
    rows[spot.row].insert(spot.at, item)?;
    Ok(())
}

// Takes out the item at the place in the row, and the row with its last one.
pub(crate) fn take_out<T: Keyed>(rows: &mut Vec<Row<T>>, row: usize, at: usize)
    requires there { row < length rows.old.items }
    requires bound { at < length (slice_index_or rows.old.items row []) }
    requires filled { AreFilled rows.old.items }
    ensures gone { together rows.new.items ≡ together (take row rows.old.items)
        ++ ((take at (slice_index_or rows.old.items row []) ++ drop (suc at) (slice_index_or rows.old.items row []))
        ++ together (drop (suc row) rows.old.items)) }
    ensures filled { AreFilled rows.new.items }
{
    if rows[row].len() == 1 {
        rows.remove(row);
    } else {
        rows[row].remove(at);
    }
}
