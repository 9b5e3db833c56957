ghost use Rattle.std.specs.Prelude.{◌≡◌, ◌<◌, ◌≤◌, ◌-◌, IfOk, length, pos, ◌+ℤ◌, ◌*ℤ◌};
ghost use Rattle.pl_points.specs.Spans.{spans_of};
ghost use Rattle.pl_points.specs.Limits.{is_outside};
ghost use Rattle.pl_rate.specs.Courses.{HasCome, NextBefore, RiseFrom, sum_of};

use crate::course::Course;
use crate::hinge::Hinge;
use crate::pushing::push_line;
use pl_points::{Limit, Span};
use std::alloc::{AllocError, Global};

/// The next hinge, if it comes before a moment.
fn hinge_before(hinges: &[Hinge], index: usize, to: u32) -> Option<Hinge>
    ensures { NextBefore hinges.now index to result }
{
    if index >= hinges.len() {
        return None;
    }
    let hinge = hinges[index];
    if hinge.moment < to { Some(hinge) } else { None }
}

/// The line that a first value and the hinges follow at a moment, and the place of the first hinge that is not before it.
pub(crate) fn course_at(first: i64, hinges: &[Hinge], from: u32) -> (Course, usize)
    requires from { from ≤ 10000000 }
    requires rising { RiseFrom 0 hinges.now }
    ensures at { result.0.at ≡ from }
    ensures come { HasCome first hinges.now result.1 result.0 }
{
    let mut course = Course {
        at: 0,
        value: first as i128,
        slope: 0,
    };
    let mut index: usize = 0;
    'hinges: while let Some(hinge) = hinge_before(hinges, index, from) {
        course = course.turned(hinge);
        index += 1;
    }
    (course.moved(from), index)
}

/// The maximal spans up to a moment at which the value is outside the limit, from a line and the hinges from a place on.
pub(crate) fn outside_spans(
    alloc: Global,
    limit: Limit,
    first: i64,
    hinges: &[Hinge],
    begin: (Course, usize),
    to: u32,
) -> Result<Vec<Span>, AllocError>
    requires window { (begin.0.at ≤ to) × (to ≤ 10000000) }
    requires come { HasCome first hinges.now begin.1 begin.0 }
    ensures { IfOk result (λ spans. spans.items ≡ spans_of (λ t. is_outside limit (first +ℤ sum_of hinges.now t)) begin.0.at (to - begin.0.at)) }
{
    let mut spans: Vec<Span> = Vec::new(alloc);
    let (mut course, mut index) = begin;
    'hinges: while let Some(hinge) = hinge_before(hinges, index, to) {
        push_line(&mut spans, limit, course, hinge.moment)?;
        course = course.turned(hinge);
        index += 1;
    }
    push_line(&mut spans, limit, course, to)?;
    Ok(spans)
}
