ghost use Rattle.std.specs.Prelude.{◌≡◌};

/// The most schemes of a plan text.
pub const MOST_SCHEMES: usize = 256;
