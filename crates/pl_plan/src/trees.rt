ghost use Rattle.std.specs.Prelude.{◌≡◌, ℕ, IfOk, OnOk, ◌||◌, slice_get, find, nat_lt};
ghost use Rattle.std.specs.Ordering.{nat_cmp};
ghost use Rattle.std.specs.BTreeSet.{contains};
ghost use Rattle.pl_plan.specs.Activities.{IsLive, AreRising};
ghost use Rattle.pl_plan.specs.Trees.{IsRooted, parent_of, children_of, root_of, subtree_of, descends};
ghost use Rattle.pl_plan.specs.Serving.{serving, is_served};

use crate::plan::Plan;
use std::alloc::{AllocError, Global};
use std::collections::BTreeSet;

impl Plan {
    /// The ids of the children, rising.
    pub fn children(&self, alloc: Global, id: u32) -> Result<Vec<u32>, AllocError>
        requires live { IsLive id self.now.activities }
        requires rooted { IsRooted self.now.activities }
        ensures ids { IfOk result (λ ids. ids.items ≡ children_of id self.now.activities) }
        ensures rising { AreRising self.now.activities }
    {
        self.families().children.under(alloc, id)
    }

    /// The least id above `behind` among those of the children. It takes no memory.
    pub fn child_behind(&self, id: u32, behind: u32) -> Option<u32>
        ensures { result ≡ find (nat_lt behind) (children_of id self.now.activities) }
    {
        self.families().children.next_under(id, behind)
    }

    /// The ids of the activity and of all its descendants, rising.
    pub fn subtree(&self, alloc: Global, id: u32) -> Result<Vec<u32>, AllocError>
        requires live { IsLive id self.now.activities }
        requires rooted { IsRooted self.now.activities }
        ensures { IfOk result (λ ids. ids.items ≡ subtree_of id self.now.activities) }
    {
        let mut found = BTreeSet::new(alloc);
        self.gather(alloc, id, &mut found)?;
        found.iter().copied().collect(alloc)
    }

    /// The ids of the roots that serve the goal of this number, rising.
    pub fn serving(&self, alloc: Global, goal: u32) -> Result<Vec<u32>, AllocError>
        ensures { IfOk result (λ ids. ids.items ≡ serving goal self.now.activities) }
    {
        self.families().servers.under(alloc, goal)
    }

    /// The least id of a root that serves the goal of this number.
    pub fn server(&self, goal: u32) -> Option<u32>
        ensures { result ≡ slice_get (serving goal self.now.activities) 0 }
    {
        self.families().servers.first_under(goal)
    }

    /// Whether a root serves the goal of this number.
    pub fn is_served(&self, goal: u32) -> bool
        ensures { result ≡ is_served goal self.now.activities }
    {
        match self.counts().get(goal) {
            Some(count) => count > 0,
            None => self.server(goal).is_some(),
        }
    }

    /// The id of the root above, which is the id itself at a root.
    pub fn root(&self, id: u32) -> u32
        requires live { IsLive id self.now.activities }
        requires rooted { IsRooted self.now.activities }
        ensures { result ≡ root_of id self.now.activities }
    {
        let mut top = id;
        while let Some(parent) = self.parent(top) {
            top = parent;
        }
        top
    }

    fn parent(&self, id: u32) -> Option<u32>
        ensures { result ≡ parent_of id self.now.activities }
    {
        match self.get(id)?.parent {
            Some((parent, _)) => Some(parent),
            None => None,
        }
    }

    // Adds what descends from the activity.
    fn gather(&self, alloc: Global, id: u32, found: &mut BTreeSet<u32>) -> Result<(), AllocError>
        requires live { IsLive id self.now.activities }
        requires rooted { IsRooted self.now.activities }
        ensures found { OnOk result ((q : ℕ) → contains nat_cmp found.new q ≡ (descends self.now.activities id q || contains nat_cmp found.old q)) }
        ensures rising { AreRising self.now.activities }
    {
        let children = self.children(alloc, id)?;
        found.insert(id)?;
        for child in &children {
            self.gather(alloc, *child, found)?;
        }
        Ok(())
    }
}
