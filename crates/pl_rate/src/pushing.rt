ghost use Rattle.std.specs.Prelude.{◌≡◌, ◌<◌, ◌≤◌, ◌-◌, ◌+ℤ◌, ◌*ℤ◌, pos, ◌&&◌, ◌||◌, ℕ, [], ◌∷◌, OnOk};
ghost use Rattle.pl_points.specs.Spans.{AreApart, covers, joined, span, within};
ghost use Rattle.pl_points.specs.Limits.{is_outside};
ghost use Rattle.pl_rate.specs.Courses.{IsRoomy, value_at};

use crate::course::Course;
use crate::crossing::negative_part;
use crate::gaps::{gap, tilt};
use pl_points::{Limit, Span};
use std::alloc::AllocError;

/// Puts a span after the others, joined to the last where they touch.
fn extend(spans: &mut Vec<Span>, from: u32, to: u32) -> Result<(), AllocError>
    ensures { OnOk result (spans.new.items ≡ joined spans.old.items (span from to ∷ [])) }
{
    let count = spans.len();
    if count > 0 && spans[count - 1].to == from {
        let begun = spans[count - 1].from;
        spans[count - 1] = Span { from: begun, to };
        Ok(())
    } else {
        spans.push(Span { from, to })?;
        Ok(())
    }
}

/// Puts the part of a straight line that is outside after the others, up to a moment.
pub(crate) fn push_line(
    spans: &mut Vec<Span>,
    limit: Limit,
    course: Course,
    to: u32,
) -> Result<(), AllocError>
    requires some { course.at ≤ to }
    requires roomy { IsRoomy course }
    requires apart { AreApart 0 course.at spans.old.items }
    ensures apart { OnOk result (AreApart 0 to spans.new.items) }
    ensures covers { OnOk result ((t : ℕ) → covers spans.new.items t ≡ (covers spans.old.items t || (within course.at to t && is_outside limit (value_at course t)))) }
{
    let (low, high) = negative_part(
        gap(limit, course.value),
        tilt(limit, course.slope),
        to - course.at,
    );
    if low < high {
        extend(spans, course.at + low, course.at + high)?;
        return Ok(());
    }
    Ok(())
}
