ghost use Rattle.std.specs.Prelude.{◌≡◌, ◌<◌, ◌+◌, length, slice_get, Some, None};
ghost use Rattle.pl_links.specs.Items.{alternatives_of};
ghost use Rattle.pl_links.specs.Kept.{IsFor};

use crate::asserting::holds;
use crate::reading::model;
use pl_links::{Broken, Links, Placed};
use pl_lists::Copied;
use pl_model::Model;
use std::alloc::Global;
use std::process::Abort;

/// The kinds 0, `warm_up`, and 1, `image`, which wants the end of a `warm_up` from 60 before its start up to it.
fn camera(rt: &impl Abort, alloc: Global) -> Model
    ensures { length result.kinds ≡ 2 }
{
    let text = "horizon 2000 lead 120 kind warm_up { duration 10 }
kind image { duration 40 link start warm_up end -60 0 }";
    let model = model(rt, alloc, text);
    holds(rt, "two kinds", model.kinds.len() == 2);
    model
}

/// The kinds 0, `shot`, and 1, `scan`, whose second shot starts at most 3 after the end of the first.
fn scanner(rt: &impl Abort, alloc: Global) -> Model
    ensures kinds { length result.kinds ≡ 2 }
    ensures alternatives { length (alternatives_of (slice_get result.kinds 1)) ≡ 1 }
{
    let text = "horizon 2000 lead 120 kind shot { duration 5 }
kind scan { duration 10 alternative { slot a shot slot b shot order a end b start 0 3 } }";
    let model = model(rt, alloc, text);
    let kinds = model.kinds.as_slice();
    holds(rt, "two kinds", kinds.len() == 2);
    holds(rt, "one alternative", kinds[1].alternatives.len() == 1);
    model
}

fn item(id: u32, kind: u32, start: u32, end: u32) -> Placed
    ensures { result ≡ record { id = id; kind = kind; start = start; end = Some end; parent = None; detail = None } }
{
    Placed {
        id,
        kind,
        start,
        end: Some(end),
        parent: None,
        detail: None,
    }
}

/// Asserts that nothing is broken.
fn assert_whole(rt: &impl Abort, alloc: Global, links: &Links, model: &Model)
    requires { IsFor model.now links.now }
{
    let broken = links.broken(alloc, model).expect(rt, "memory");
    holds(rt, "nothing broken", broken.is_empty());
}

/// Asserts that this alone is broken: the first link or order of 1.
fn assert_broken(rt: &impl Abort, alloc: Global, links: &Links, model: &Model, slots: bool)
    requires { IsFor model.now links.now }
{
    let broken = links.broken(alloc, model).expect(rt, "memory");
    let (id, index) = (1, 0);
    let wanted = [Broken { id, index, slots }];
    holds(rt, "one broken", broken.as_slice() == wanted.as_slice());
}

#[test]
fn an_image_wants_a_warm_camera(rt: HostRuntime) {
    let alloc = rt.alloc();
    let model = camera(&rt, alloc);
    let mut links = Links::new(alloc);
    let image = item(1, 1, 200, 240);
    links.place(&model, &image).expect(&rt, "memory");
    assert_broken(&rt, alloc, &links, &model, false);
    let warm_up = item(2, 0, 130, 140);
    links.place(&model, &warm_up).expect(&rt, "memory");
    assert_whole(&rt, alloc, &links, &model);
    let copy = links.copy(alloc).expect(&rt, "memory");
    links.take(&model, 2).expect(&rt, "memory");
    assert_broken(&rt, alloc, &links, &model, false);
    assert_whole(&rt, alloc, &copy, &model);
}

fn shot(id: u32, start: u32, slot: u32) -> Placed
    requires { start < 1000 }
    ensures { result ≡ record { id = id; kind = 0; start = start; end = Some (start + 5); parent = Some (1, slot); detail = None } }
{
    Placed {
        id,
        kind: 0,
        start,
        end: Some(start + 5),
        parent: Some((1, slot)),
        detail: None,
    }
}

/// 1 from 10 to 20, which has an alternative.
fn scan() -> Placed
    ensures { result ≡ record { id = 1; kind = 1; start = 10; end = Some 20; parent = None; detail = Some 0 } }
{
    let mut scan = item(1, 1, 10, 20);
    scan.detail = Some(0);
    scan
}

#[test]
fn a_second_shot_follows_the_first(rt: HostRuntime) {
    let alloc = rt.alloc();
    let model = scanner(&rt, alloc);
    let mut links = Links::new(alloc);
    links.place(&model, &scan()).expect(&rt, "memory");
    links.place(&model, &shot(2, 10, 0)).expect(&rt, "memory");
    assert_whole(&rt, alloc, &links, &model);
    links.place(&model, &shot(3, 15, 1)).expect(&rt, "memory");
    assert_whole(&rt, alloc, &links, &model);
    links.take(&model, 3).expect(&rt, "memory");
    links.place(&model, &shot(3, 25, 1)).expect(&rt, "memory");
    assert_broken(&rt, alloc, &links, &model, true);
}
