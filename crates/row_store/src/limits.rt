ghost use Rattle.std.specs.Prelude.{◌≡◌, ◌<◌, ◌≤◌};

/// The most columns of a text whose dependencies are looked for.
pub const WIDEST_HEADED: u8 = 64;

/// The most rows of such a text.
pub const MOST_HEADED_ROWS: u32 = 10_000_000;

/// The most columns of a text of which all that its rows obey is looked for.
pub const WIDEST_WITH_ALL: u8 = 10;

/// The most rows of such a text.
pub const MOST_ROWS_WITH_ALL: u32 = 100_000;
