//! What a value under the lock has to tell.
ghost use Rattle.std.specs.Prelude.{◌≡◌, List, length};

/// A value that stands for a list of entries.
pub trait Logged {
    type Item;

    // The list.
    ghost entries: { Self → List Self.Item };

    /// How many entries there are.
    fn logged(&self) -> u64
        ensures { result ≡ length (entries self.now) };
}
