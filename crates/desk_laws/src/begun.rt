ghost use Rattle.desk_laws.specs.LastBegun.{LastOfTheNamesIsTaken};

/// Where it is known just which names a file source has begun, the last of them is one that `Desk` takes for
/// the last: no other file is said to be unreadable.
pub fn last_of_the_names_is_taken()
    ensures law { LastOfTheNamesIsTaken }
{}
