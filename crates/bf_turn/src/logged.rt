ghost use Rattle.std.specs.Prelude.{ℕ, List};

/// A state with a log of entries, each of one party, and with a name that stays while it is locked.
pub trait Logged: Drop {
    type Entry;

    type Name;

    // All entries so far.
    ghost log: { Self → List Self.Entry };

    // What no call on the lock changes.
    ghost name: { Self → Self.Name };

    // Whose call an entry is.
    ghost party: { Self.Entry → ℕ };
}
