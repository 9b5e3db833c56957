//! Which points of activities the temporal links of a model ask for.
ghost use Rattle.std.specs.Prelude.{◌≡◌, [], length, IfOk};
ghost use Rattle.std.specs.List.{list_any};
ghost use Rattle.pl_links.specs.Asked.{same_point, asks, asked_from, asked_below, marks_at, is_asked};

use pl_lists::{Copied, Items};
use pl_model::{Kind, Link, Model, Point};
use std::alloc::{AllocError, Global};

/// For each kind, whether the starts of its activities are asked for, and their ends.
#[derive(Drop)]
pub(crate) struct AskedPoints {
    pub starts: Items<bool>,
    pub ends: Items<bool>,
}

impl AskedPoints {
    /// No point is asked for.
    pub fn none(alloc: Global) -> AskedPoints
        ensures starts { result.starts ≡ [] }
        ensures ends { result.ends ≡ [] }
    {
        AskedPoints {
            starts: Items::new(alloc),
            ends: Items::new(alloc),
        }
    }

    /// The points that the links of a model ask for.
    pub fn by(alloc: Global, model: &Model) -> Result<AskedPoints, AllocError>
        ensures starts { IfOk result (λ asked.
            asked.starts ≡ asked_below Point.Start model.now.kinds (length model.now.kinds)) }
        ensures ends { IfOk result (λ asked.
            asked.ends ≡ asked_below Point.End model.now.kinds (length model.now.kinds)) }
    {
        let kinds = model.kinds.as_slice();
        Ok(AskedPoints {
            starts: marks(alloc, kinds, Point::Start)?,
            ends: marks(alloc, kinds, Point::End)?,
        })
    }

    /// Whether this point of this kind is asked for.
    pub fn has(&self, point: Point, kind: u32) -> bool
        ensures { result ≡ is_asked self.now point kind }
    {
        match self.marks_at(point).get(kind as usize) {
            Some(mark) => *mark,
            None => false,
        }
    }

    fn marks_at(&self, point: Point) -> &[bool]
        ensures { result.now ≡ marks_at point self.now }
    {
        match point {
            Point::Start => self.starts.as_slice(),
            Point::End => self.ends.as_slice(),
        }
    }
}

impl Copied for AskedPoints {
    fn copy(&self, alloc: Global) -> Result<AskedPoints, AllocError> {
        Ok(AskedPoints {
            starts: self.starts.copy(alloc)?,
            ends: self.ends.copy(alloc)?,
        })
    }
}

fn marks(alloc: Global, kinds: &[Kind], point: Point) -> Result<Items<bool>, AllocError>
    ensures { IfOk result (λ marks. marks ≡ asked_below point kinds.now (length kinds.now)) }
{
    let mut marks = Items::new(alloc);
    for kind in 0..kinds.len() {
        marks.push(is_asked(kinds, point, kind))?;
    }
    Ok(marks)
}

// Whether a link asks for this point of this kind.
fn is_asked(kinds: &[Kind], point: Point, kind: usize) -> bool
    ensures { result ≡ asked_from point kind 0 kinds.now }
{
    for (own, other) in kinds.iter().enumerate() {
        if asks_any(other.links.as_slice(), point, kind, own) {
            return true;
        }
    }
    false
}

fn asks_any(links: &[Link], point: Point, kind: usize, own: usize) -> bool
    ensures { result ≡ list_any (asks point kind own) links.now }
{
    for link in links {
        if asks(link, point, kind, own) {
            return true;
        }
    }
    false
}

fn asks(link: &Link, point: Point, kind: usize, own: usize) -> bool
    ensures { result ≡ asks point kind own link.now }
{
    (own == kind && same_point(link.mine, point))
        || (link.kind as usize == kind && same_point(link.theirs, point))
}

fn same_point(one: Point, other: Point) -> bool
    ensures { result ≡ same_point one other }
{
    match (one, other) {
        (Point::Start, Point::Start) | (Point::End, Point::End) => true,
        _ => false,
    }
}
