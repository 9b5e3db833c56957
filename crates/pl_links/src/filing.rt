//! Activities are filed in the indexes, and taken out.
ghost use Rattle.std.specs.Prelude.{◌≡◌, [], OnOk, OnErr, IfOk};
ghost use Rattle.pl_links.specs.Filed.{point_place, parent_place, AreFiles};
ghost use Rattle.pl_links.specs.Filed.{GrowsIndex, StaysIndex, GrowFiles, StayFiles, ShrinkFiles};

use crate::asked::AskedPoints;
use crate::files::Files;
use crate::index::Index;
use crate::moments::moment;
use crate::placed::Placed;
use pl_lists::Copied;
use pl_model::{Model, Point};
use std::alloc::{AllocError, Global};

fn point_place(asked: &AskedPoints, point: Point, item: &Placed) -> Option<(u32, u32)>
    ensures { result ≡ point_place asked.now point item.now }
{
    if !asked.has(point, item.kind) {
        return None;
    }
    match moment(point, item) {
        Some(moment) => Some((item.kind, moment)),
        None => None,
    }
}

impl Files {
    /// No activity is filed, and no point is asked for.
    pub fn new(alloc: Global) -> Files
        ensures { AreFiles [] result }
    {
        Files::asking(alloc, AskedPoints::none(alloc))
    }

    /// No activity is filed, and the points that the links of a model ask for are asked for.
    pub fn by(alloc: Global, model: &Model) -> Result<Files, AllocError>
        ensures { IfOk result (AreFiles []) }
    {
        Ok(Files::asking(alloc, AskedPoints::by(alloc, model)?))
    }

    fn asking(alloc: Global, asked: AskedPoints) -> Files
        ensures filed { AreFiles [] result }
        ensures asked { result.asked ≡ asked }
    {
        Files {
            asked,
            starts: Index::new(alloc),
            ends: Index::new(alloc),
            children: Index::new(alloc),
        }
    }

    /// Files an activity that is not yet placed.
    pub fn insert(&mut self, item: &Placed) -> Result<(), AllocError>
        ensures ok { OnOk result (GrowFiles item.now self.old self.new) }
        ensures err { OnErr result (StayFiles item.now self.old self.new) }
    {
        let place = point_place(&self.asked, Point::Start, item);
        self.starts.insert(place, item.id)?;
        match self.insert_rest(item) {
            Ok(()) => Ok(()),
            Err(e) => {
                self.starts.remove(place, item.id);
                Err(e)
            }
        }
    }

    fn insert_rest(&mut self, item: &Placed) -> Result<(), AllocError>
        ensures asked { self.new.asked ≡ self.old.asked }
        ensures starts { self.new.starts ≡ self.old.starts }
        ensures ends { OnOk result (GrowsIndex (point_place self.old.asked Point.End) item.now
            self.old.ends self.new.ends) }
        ensures children { OnOk result
            (GrowsIndex parent_place item.now self.old.children self.new.children) }
        ensures err { OnErr result (StaysIndex (point_place self.old.asked Point.End) item.now
            self.old.ends self.new.ends) }
        ensures same { OnErr result (self.new.children ≡ self.old.children) }
    {
        let place = point_place(&self.asked, Point::End, item);
        self.ends.insert(place, item.id)?;
        match self.children.insert(item.parent, item.id) {
            Ok(()) => Ok(()),
            Err(e) => {
                self.ends.remove(place, item.id);
                Err(e)
            }
        }
    }

    /// Takes an activity that is placed out of the indexes.
    pub fn remove(&mut self, item: &Placed)
        ensures { ShrinkFiles item.now self.old self.new }
    {
        self.starts
            .remove(point_place(&self.asked, Point::Start, item), item.id);
        self.ends
            .remove(point_place(&self.asked, Point::End, item), item.id);
        self.children.remove(item.parent, item.id);
    }
}

impl Copied for Files {
    fn copy(&self, alloc: Global) -> Result<Files, AllocError> {
        Ok(Files {
            asked: self.asked.copy(alloc)?,
            starts: self.starts.copy(alloc)?,
            ends: self.ends.copy(alloc)?,
            children: self.children.copy(alloc)?,
        })
    }
}
