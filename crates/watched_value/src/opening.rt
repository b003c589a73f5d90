//! What is shown before anything is published.
ghost use Rattle.std.specs.Prelude.{◌≡◌};

/// A type with a value that readers see before the first one is published.
pub trait Opening: Copy {
    ghost opening: { Self };

    /// That value.
    fn opening() -> Self
        ensures { result ≡ opening };
}

/// Numbers begin at 0.
impl Opening for u64 {
    ghost opening = { 0 };

    fn opening() -> u64 {
        0
    }
}
