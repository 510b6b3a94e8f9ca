ghost use Rattle.std.specs.Prelude.{◌≡◌, ◌≤◌, if◌then◌else◌};
ghost use Rattle.sample_rows.specs.declared.rows.TheConstants.{MOST_PERSONS};

/// How many persons a sample has.
#[derive(Clone, Copy, Debug)]
pub struct Persons {
    pub number: u32,
    pub ghost within_limit: { number ≤ MOST_PERSONS },
}
