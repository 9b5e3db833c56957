ghost use Rattle.std.specs.Prelude.{◌≡◌, [], OnOk, OnErr};
ghost use Rattle.pl_plan.specs.Index.{Enters, Leaves};
ghost use Rattle.pl_plan.specs.Trees.{parent_in};
ghost use Rattle.pl_plan.specs.Serving.{served_in};

use crate::activity::Activity;
use crate::index::Index;
use std::alloc::{AllocError, Global};

/// The children of each activity, and the roots that serve each goal.
#[derive(Drop)]
pub(crate) struct Families {
    pub(crate) children: Index,
    pub(crate) servers: Index,
}

impl Families {
    pub(crate) fn new(alloc: Global) -> Families
        ensures children { result.children ≡ [] }
        ensures servers { result.servers ≡ [] }
    {
        Families {
            children: Index::new(alloc),
            servers: Index::new(alloc),
        }
    }

    pub(crate) fn enter(&mut self, a: &Activity) -> Result<(), AllocError>
        ensures children { OnOk result (Enters (parent_in a.now) a.now.id self.old.children self.new.children) }
        ensures servers { OnOk result (Enters (served_in a.now) a.now.id self.old.servers self.new.servers) }
        ensures err { OnErr result (self.new ≡ self.old) }
    {
        match (a.parent, a.goal) {
            (Some((parent, _)), _) => self.children.insert(parent, a.id),
            (None, Some(goal)) => self.servers.insert(goal, a.id),
            (None, None) => Ok(()),
        }
    }

    pub(crate) fn leave(&mut self, a: &Activity)
        ensures children { Leaves (parent_in a.now) a.now.id self.old.children self.new.children }
        ensures servers { Leaves (served_in a.now) a.now.id self.old.servers self.new.servers }
    {
        match (a.parent, a.goal) {
            (Some((parent, _)), _) => self.children.remove(parent, a.id),
            (None, Some(goal)) => self.servers.remove(goal, a.id),
            (None, None) => {}
        }
    }
}
