//! What a lock hands over: a state that is told by a base and a list of entries.
ghost use Rattle.std.specs.Prelude.{◌≡◌, ℕ, List, length};

/// A state whose meaning has a base and a list of entries, each with a caller's number.
pub trait Chronicle: Drop {
    /// What the state is built on, and what never changes.
    type Base;

    /// One thing that a caller has done.
    type Entry;

    ghost base: { Self → Self.Base };

    ghost entries: { Self → List Self.Entry };

    // The number of the caller that made an entry.
    ghost caller: { Self.Entry → ℕ };

    /// The number of entries.
    fn count(&self) -> u64
        ensures { result ≡ length (entries self.now) };
}
