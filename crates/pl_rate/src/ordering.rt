//! Hinges by level and moment, and those of one level.
ghost use Rattle.std.specs.Prelude.{◌≡◌, ◌≤◌, ℕ, All, length, take, drop};
ghost use Rattle.pl_lists.specs.Lists.{front, back};
ghost use Rattle.pl_rate.specs.Courses.{IsFlat, RiseFrom, sum_of};
ghost use Rattle.pl_rate.specs.Hinges.{sum_on};
ghost use Rattle.pl_rate.specs.Orders.{AreOrdered, is_below, is_upto};

use crate::hinge::Hinge;

/// Brings the hinges into their order, which is by level and then by moment.
pub(crate) fn order(hinges: &mut Vec<Hinge>)
    requires { All IsFlat hinges.old.items }
    ensures ordered { AreOrdered hinges.new.items }
    ensures sums { (line t : ℕ) → sum_on hinges.new.items line t ≡ sum_on hinges.old.items line t }
{
    hinges.sort_unstable();
}

// How many hinges are of levels of smaller numbers.
fn count_below(hinges: &[Hinge], line: u32) -> usize
    requires { AreOrdered hinges.now }
    ensures bound { result ≤ length hinges.now }
    ensures before { take result hinges.now ≡ front (is_below line) hinges.now }
    ensures rest { drop result hinges.now ≡ back (is_below line) hinges.now }
{
    hinges.partition_point(|hinge| hinge.line < line)
}

// How many are of this level or of levels of smaller numbers.
fn count_upto(hinges: &[Hinge], line: u32) -> usize
    requires { AreOrdered hinges.now }
    ensures bound { result ≤ length hinges.now }
    ensures before { take result hinges.now ≡ front (is_upto line) hinges.now }
    ensures rest { drop result hinges.now ≡ back (is_upto line) hinges.now }
{
    hinges.partition_point(|hinge| hinge.line <= line)
}

fn up_to(hinges: &[Hinge], count: usize) -> &[Hinge]
    requires { count ≤ length hinges.now }
    ensures { result.now ≡ take count hinges.now }
{
    &hinges[..count]
}

fn behind(hinges: &[Hinge], count: usize) -> &[Hinge]
    requires { count ≤ length hinges.now }
    ensures { result.now ≡ drop count hinges.now }
{
    &hinges[count..]
}

/// The hinges of one level, by moment.
pub(crate) fn hinges_on(hinges: &[Hinge], line: u32) -> &[Hinge]
    requires { AreOrdered hinges.now }
    ensures rising { RiseFrom 0 result.now }
    ensures sums { (t : ℕ) → sum_of result.now t ≡ sum_on hinges.now line t }
{
    let rest = behind(hinges, count_below(hinges, line));
    up_to(rest, count_upto(rest, line))
}
