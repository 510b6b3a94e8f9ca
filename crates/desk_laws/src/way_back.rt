//! The law of the way there and back: from rows to the files of tables, and from these to the rows.

ghost use Rattle.desk_laws.specs.WayBack.{FilesAreRejoined};

/// What `rejoin` reads from the files that `migrate` wrote, in whatever order they are named, are exactly the rows that
/// were migrated, each once, also where a value of a key may be missing; or there are too many rows on the way.
pub fn files_are_rejoined()
    ensures law { FilesAreRejoined }
{}
