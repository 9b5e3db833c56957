ghost use Rattle.std.specs.Prelude.{◌≡◌, ◌≤◌, ◌+◌, ◌-◌, ◌+ℤ◌, ◌*ℤ◌, ◌^◌, ◌<◌, pos, ℕ};
ghost use Rattle.pl_rate.specs.Courses.{IsModest, IsSteep, IsRoomy, IsFlat, IsBounded, value_at, moved, turned};

use crate::hinge::Hinge;

/// A straight line from a moment on: the value there, and how it changes with each moment.
#[derive(Clone, Copy, PartialEq, Eq)]
pub(crate) struct Course {
    pub at: u32,
    pub value: i128,
    pub slope: i128,
}

fn product(slope: i128, count: u32) -> i128
    requires steep { IsSteep slope }
    requires count { count ≤ 10000000 }
    ensures { result ≡ slope *ℤ pos count }
{
    slope * count as i128
}

fn add(one: i128, other: i128) -> i128
    requires { IsModest one × IsModest other }
    ensures { result ≡ one +ℤ other }
{
    one + other
}

impl Course {
    /// The same line from a later moment on.
    pub fn moved(self, to: u32) -> Course
        requires roomy { IsRoomy self }
        requires later { (self.at ≤ to) × (to ≤ 10000000) }
        ensures { result ≡ moved self to }
    {
        let change = product(self.slope, to - self.at);
        Course {
            at: to,
            value: add(self.value, change),
            slope: self.slope,
        }
    }

    /// The line behind a hinge.
    pub fn turned(self, hinge: Hinge) -> Course
        requires roomy { IsRoomy self }
        requires later { (self.at ≤ hinge.moment) × (hinge.moment ≤ 10000000) }
        requires flat { IsFlat hinge }
        ensures { result ≡ turned self hinge }
    {
        let change = product(self.slope, hinge.moment - self.at);
        let along = add(self.value, change);
        Course {
            at: hinge.moment,
            value: add(along, hinge.jump as i128),
            slope: add(self.slope, hinge.slope as i128),
        }
    }
}
