ghost use Rattle.std.specs.Prelude.{List};
ghost use Rattle.attr_sets.specs.Attributes.{none};
ghost use Rattle.sql_migrate.specs.Script.{view_order};
ghost use Rattle.sql_migrate.specs.declared.joining.JoinedTable.{JoinedTable};
ghost use Rattle.sql_migrate_laws.specs.Crossing.{PartsAreCrossed};

/// Of the tables that are joined, one that shares no attribute with those before it comes only where none of those that
/// are left shares one with them. So a cross join stands only between parts of them that share nothing.
pub fn cross_joins_part_the_plan()
    ensures law { (tables : List JoinedTable) → PartsAreCrossed none (view_order tables) }
{}
