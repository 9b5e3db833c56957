ghost use Rattle.std.specs.Prelude.{◌≤◌, ◌<◌};

/// The place of an index, by an order that jumps about. Each index has a place of its own, unless 7919 divides the count.
pub fn place_of(index: u32, count: u32) -> u32
    requires some { index < count }
    requires few { count ≤ 20000 }
    ensures { result < count }
{
    index * 7_919 % count
}
