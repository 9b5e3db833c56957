//! What a name of the text names.
ghost use Rattle.std.specs.Prelude.{◌≡◌, ◌<◌, ◌≤◌, length, option_map, count_by, take, IfSome, All};
ghost use Rattle.pl_check.specs.Names.{place_of};
ghost use Rattle.pl_check.specs.Sizes.{IsScope, IsSmallItem, IsSmallKind, IsSmallLine};
ghost use Rattle.pl_check.specs.Finding.{is_kind, is_line, kind_at, line_at, kind_named, line_named, capacity_named, level_named, states_named, param_named, bindable_named, slot_named, is_unequalled};

use crate::names::Names;
use pl_model::Name;
use pl_syntax::{AstKind, AstOrigin, AstParam, AstSlot, AstTimeline, Item};

fn kinds_before(items: &[Item], place: usize) -> u32
    requires place { place ≤ length items.now }
    requires few { length items.now ≤ 512 }
    ensures { result ≡ count_by is_kind (take place items.now) }
{
    let mut count = 0;
    for item in &items[..place] {
        if let Item::Kind(_) = item {
            count += 1;
        }
    }
    count
}

fn lines_before(items: &[Item], place: usize) -> u32
    requires place { place ≤ length items.now }
    requires few { length items.now ≤ 512 }
    ensures { result ≡ count_by is_line (take place items.now) }
{
    let mut count = 0;
    for item in &items[..place] {
        if let Item::Timeline(_) = item {
            count += 1;
        }
    }
    count
}

fn kind_at(items: &[Item], place: usize) -> Option<(u32, &AstKind)>
    requires few { length items.now ≤ 512 }
    requires small { All IsSmallItem items.now }
    ensures found { option_map (λ p. (p.0, p.1.now)) result ≡ kind_at items.now place }
    ensures below { IfSome result (λ p. p.0 < count_by is_kind items.now) }
    ensures small { IfSome result (λ p. IsSmallKind p.1.now) }
{
    match items.get(place)? {
        Item::Timeline(_) => None,
        Item::Kind(kind) => Some((kinds_before(items, place), kind)),
    }
}

fn line_at(items: &[Item], place: usize) -> Option<(u32, &AstTimeline)>
    requires few { length items.now ≤ 512 }
    requires small { All IsSmallItem items.now }
    ensures found { option_map (λ p. (p.0, p.1.now)) result ≡ line_at items.now place }
    ensures small { IfSome result (λ p. IsSmallLine p.1.now) }
{
    match items.get(place)? {
        Item::Timeline(line) => Some((lines_before(items, place), line)),
        Item::Kind(_) => None,
    }
}

/// The kind of this name, and its number.
pub fn kind_named<'a>(names: &Names, items: &'a [Item], name: &[u8]) -> Option<(u32, &'a AstKind)>
    requires { IsScope names.now items.now }
    ensures found { option_map (λ p. (p.0, p.1.now)) result ≡ kind_named items.now name.now }
    ensures below { IfSome result (λ p. p.0 < count_by is_kind items.now) }
    ensures small { IfSome result (λ p. IsSmallKind p.1.now) }
{
    let place = names.place(name)?;
    kind_at(items, place)
}

/// The timeline of this name, and its number.
fn line_named<'a>(names: &Names, items: &'a [Item], name: &[u8]) -> Option<(u32, &'a AstTimeline)>
    requires { IsScope names.now items.now }
    ensures found { option_map (λ p. (p.0, p.1.now)) result ≡ line_named items.now name.now }
    ensures small { IfSome result (λ p. IsSmallLine p.1.now) }
{
    let place = names.place(name)?;
    line_at(items, place)
}

/// The number of the capacity timeline of this name.
pub fn capacity_named(names: &Names, items: &[Item], name: &[u8]) -> Option<u32>
    requires { IsScope names.now items.now }
    ensures { result ≡ capacity_named items.now name.now }
{
    match line_named(names, items, name)? {
        (number, AstTimeline::Capacity { .. }) => Some(number),
        (_, AstTimeline::Level { .. }) => None,
        (_, AstTimeline::States { .. }) => None,
    }
}

/// The number of the level timeline of this name.
pub fn level_named(names: &Names, items: &[Item], name: &[u8]) -> Option<u32>
    requires { IsScope names.now items.now }
    ensures { result ≡ level_named items.now name.now }
{
    match line_named(names, items, name)? {
        (_, AstTimeline::Capacity { .. }) => None,
        (number, AstTimeline::Level { .. }) => Some(number),
        (_, AstTimeline::States { .. }) => None,
    }
}

/// The state timeline of this name, with its states.
pub fn states_named<'a>(names: &Names, items: &'a [Item], name: &[u8]) -> Option<(u32, &'a [Name])>
    requires { IsScope names.now items.now }
    ensures found { option_map (λ p. (p.0, p.1.now)) result ≡ states_named items.now name.now }
    ensures small { IfSome result (λ p. length p.1.now ≤ 32) }
{
    match line_named(names, items, name)? {
        (_, AstTimeline::Capacity { .. }) => None,
        (_, AstTimeline::Level { .. }) => None,
        (number, AstTimeline::States { states, .. }) => Some((number, states.as_slice())),
    }
}

/// The place of the parameter of this name in its kind, from 0.
pub fn param_named(params: &[AstParam], name: &[u8]) -> Option<u8>
    requires { length params.now ≤ 16 }
    ensures value { result ≡ param_named params.now name.now }
    ensures below { IfSome result (λ p. p < length params.now) }
{
    for (place, param) in params.iter().enumerate() {
        if param.name.as_slice() == name {
            return Some(place as u8);
        }
    }
    None
}

/// The place of the slot of this name in its alternative, from 0.
pub fn slot_named(slots: &[AstSlot], name: &[u8]) -> Option<u32>
    requires { length slots.now ≤ 16 }
    ensures value { result ≡ slot_named slots.now name.now }
    ensures below { IfSome result (λ s. s < length slots.now) }
{
    for (place, slot) in slots.iter().enumerate() {
        if slot.name.as_slice() == name {
            return Some(place as u32);
        }
    }
    None
}

fn is_unequalled(origin: &AstOrigin) -> bool
    ensures { result ≡ is_unequalled origin.now }
{
    match origin {
        AstOrigin::Plain => true,
        AstOrigin::Default(_) => true,
        AstOrigin::Equals(_) => false,
    }
}

/// The parameter of this name, if it is declared without `=`.
pub fn bindable_named(params: &[AstParam], name: &[u8]) -> Option<u8>
    requires { length params.now ≤ 16 }
    ensures { result ≡ bindable_named params.now name.now }
{
    for (place, param) in params.iter().enumerate() {
        if param.name.as_slice() == name && is_unequalled(&param.origin) {
            return Some(place as u8);
        }
    }
    None
}

/// The number of a state among those of its timeline.
pub fn state_named(states: &[Name], name: &[u8]) -> Option<u32>
    requires { length states.now ≤ 32 }
    ensures { result ≡ place_of states.now name.now }
{
    for (place, state) in states.iter().enumerate() {
        if name == state.as_slice() {
            return Some(place as u32);
        }
    }
    None
}
