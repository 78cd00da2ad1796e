//! The changes that places may make to a lent value.
ghost use Rattle.std.specs.Prelude.{◌≡◌, ◌≢◌, ℕ};

/// A value that a lock lends, with two relations for contracts: the changes while a place is away, and the changes by a
/// place. For a counter that no place lowers, both are `a ≤ b`. Neither runs.
pub trait Kept {
    /// Changes by places other than this one may lead from the first value to the second.
    ghost since: { ℕ → Self → Self → Type 0 };

    /// This place may leave the second value after it found the first.
    ghost done: { ℕ → Self → Self → Type 0 };

    /// Others may have changed nothing.
    ghost since_same: { (place : ℕ) (a : Self) → since place a a };

    /// A place may leave the value as it found it.
    ghost done_same: { (place : ℕ) (a : Self) → done place a a };

    /// A change that one place may make may happen while another is away.
    ghost since_done: { (place other : ℕ) (a b c : Self)
        → other ≢ place → since place a b → done other b c → since place a c };
}
