/// Why a repair move is refused. `Locked`, `Behind` and `Beyond` tell the id of the activity.
#[derive(Clone, Copy, Debug, PartialEq, Eq)]
pub enum Refusal {
    /// The move would change this one, which is committed.
    Locked(u32),
    /// The move would put this one at a start below the floor.
    Behind(u32),
    /// The move would put this one at a start at the horizon or later.
    Beyond(u32),
    /// More activities would stand than may.
    Full,
}
