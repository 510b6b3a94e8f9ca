//! The limits, as the numbers that refusals and `docs/FORMATS.md` name, and the numbers of the other
//! constants of which definitions speak.

ghost use Rattle.std.specs.Prelude.{◌≡◌};
ghost use Rattle.attr_sets.specs.declared.set.TheConstants.{MOST_ATTRIBUTES};
ghost use Rattle.dep_model.specs.declared.theory.TheConstants.{MOST_DEPENDENCIES};
ghost use Rattle.schema_model.specs.declared.column_type.TheConstants.{MOST_SCALE};
ghost use Rattle.schema_model.specs.declared.held_bytes.TheConstants.{MOST_HELD_BYTES};
ghost use Rattle.schema_model.specs.declared.name.TheConstants.{MOST_BARE_NAME_BYTES, MOST_NAME_BYTES};
ghost use Rattle.schema_model.specs.declared.type_name.TheConstants.{MOST_TYPE_BYTES};
ghost use Rattle.column_values.specs.declared.making.TheConstants.{MADE_UP_VALUES};
ghost use Rattle.fd_closure.specs.declared.left_sides.TheConstants.{WIDEST_SEARCHED};
ghost use Rattle.derivation.specs.declared.measures.TheConstants.{MOST_LEVELS, MOST_NODES};
ghost use Rattle.dep_basis.specs.declared.pieces.TheConstants.{MOST_BLOCKS};
ghost use Rattle.key_listing.specs.declared.refusal.TheConstants.{MOST_KEYS};
ghost use Rattle.armstrong_rel.specs.declared.refusal.TheConstants.{MOST_EXHIBITED_ROWS, WIDEST_EXHIBITED};
ghost use Rattle.fd_projection.specs.declared.refusal.TheConstants.{MOST_LISTED};
ghost use Rattle.plans.specs.declared.bounds.TheConstants.{MOST_SCHEMES};
ghost use Rattle.table_names.specs.declared.numbered.TheConstants.{MOST_TABLES};
ghost use Rattle.schema_grammar.specs.declared.format.TheConstants.{FULL_VERSION, MOST_DEPENDENCY_LINES, TYPED_VERSION};
ghost use Rattle.schema_reader.specs.declared.goal.TheConstants.{MOST_GOAL_BYTES};
ghost use Rattle.schema_reader.specs.declared.set.TheConstants.{MOST_SET_BYTES};
ghost use Rattle.schema_reader.specs.declared.text.TheConstants.{MOST_TEXT_BYTES};
ghost use Rattle.proof_text.specs.declared.text.TheConstants.{MOST_PROOF_BYTES};
ghost use Rattle.plan_reader.specs.declared.reading.TheConstants.{MOST_PLAN_BYTES};
ghost use Rattle.table_words.specs.declared.parts.TheConstants.{MOST_PARTS};
ghost use Rattle.row_store.specs.declared.limits.TheConstants.{MOST_HEADED_ROWS, MOST_ROWS_WITH_ALL, WIDEST_HEADED, WIDEST_WITH_ALL};
ghost use Rattle.row_groups.specs.declared.buckets.TheConstants.{BUCKETS, FACTOR};
ghost use Rattle.csv_rows.specs.declared.reading.TheConstants.{MOST_ROWS};
ghost use Rattle.candidate_sets.specs.declared.refusal.TheConstants.{MOST_CANDIDATES};
ghost use Rattle.near_rules.specs.declared.found.TheConstants.{MOST_TRIED};
ghost use Rattle.file_references.specs.declared.reference.TheConstants.{MOST_KEY_COLUMNS};
ghost use Rattle.sample_rows.specs.declared.rows.TheConstants.{MOST_PERSONS};
ghost use Rattle.sql_scripts.specs.declared.naming.TheConstants.{MOST_PART_BYTES};
ghost use Rattle.nearest_lines.specs.declared.ranking.TheConstants.{MOST_NEAREST};
ghost use Rattle.desk_words.specs.declared.bounds.TheConstants.{MOST_ON_LEFT};
ghost use Rattle.desk_words.specs.declared.command.TheConstants.{MOST_FILES};
ghost use Rattle.desk_inputs.specs.declared.rows.TheConstants.{MOST_CSV_BYTES};
ghost use Rattle.desk_inputs.specs.declared.sql.TheConstants.{MOST_SQL_BYTES};
ghost use Rattle.desk_discovery.specs.declared.discovering.TheConstants.{WIDEST_TRIED};
ghost use Rattle.desk_references.specs.declared.columns.TheConstants.{MOST_LISTED_COLUMNS, MOST_LIST_BYTES};
ghost use Rattle.desk_designs.specs.declared.decomposition.TheConstants.{MOST_SPLIT_SCHEMES};
ghost use Rattle.desk_designs.specs.declared.join.TheConstants.{MOST_TABLEAU_ROWS};
ghost use Rattle.desk_tables.specs.declared.rejoining.TheConstants.{MOST_JOINED_ROWS};

/// What a schema and its text may have, how many bytes a name and the type of another system, and how many
/// digits after the point a decimal.
pub fn limits_of_schemas()
    ensures attributes { MOST_ATTRIBUTES ≡ 128 }
    ensures dependencies { MOST_DEPENDENCIES ≡ 4096 }
    ensures dependency_lines { MOST_DEPENDENCY_LINES ≡ 4096 }
    ensures name { MOST_NAME_BYTES ≡ 63 }
    ensures bare_name { MOST_BARE_NAME_BYTES ≡ 31 }
    ensures type_name { MOST_TYPE_BYTES ≡ 63 }
    ensures scale { MOST_SCALE ≡ 9 }
{}

/// The versions that a schema text may state.
pub fn versions_of_schemas()
    ensures typed { TYPED_VERSION ≡ 2 }
    ensures full { FULL_VERSION ≡ 3 }
{}

/// How many bytes a text may have.
pub fn limits_of_texts()
    ensures schema { MOST_TEXT_BYTES ≡ 1048576 }
    ensures goal { MOST_GOAL_BYTES ≡ 16384 }
    ensures set { MOST_SET_BYTES ≡ 16384 }
    ensures columns { MOST_LIST_BYTES ≡ 65536 }
    ensures plan { MOST_PLAN_BYTES ≡ 1048576 }
    ensures certificate { MOST_PROOF_BYTES ≡ 268435456 }
    ensures csv { MOST_CSV_BYTES ≡ 4000000000 }
    ensures sql { MOST_SQL_BYTES ≡ 268435456 }
{}

/// How much a text may hold: lines and levels of a certificate, schemes of a plan, rows, and rows and
/// columns under a free header.
pub fn limits_of_contents()
    ensures lines { MOST_NODES ≡ 262144 }
    ensures levels { MOST_LEVELS ≡ 2048 }
    ensures schemes { MOST_SCHEMES ≡ 256 }
    ensures rows { MOST_ROWS ≡ 10000000 }
    ensures headed_rows { MOST_HEADED_ROWS ≡ 10000000 }
    ensures headed_columns { WIDEST_HEADED ≡ 64 }
    ensures whole_rows { MOST_ROWS_WITH_ALL ≡ 100000 }
    ensures whole_columns { WIDEST_WITH_ALL ≡ 10 }
{}

/// Where a search gives up, up to how many columns `discover` tries all sets, and how many a key has to which a
/// reference is looked for.
pub fn limits_of_searches()
    ensures keys { MOST_KEYS ≡ 1024 }
    ensures searched { WIDEST_SEARCHED ≡ 20 }
    ensures listed { MOST_LISTED ≡ 10000 }
    ensures tried { WIDEST_TRIED ≡ 12 }
    ensures tried_sets { MOST_TRIED ≡ 1000000 }
    ensures candidates { MOST_CANDIDATES ≡ 1000000 }
    ensures key_columns { MOST_KEY_COLUMNS ≡ 3 }
    ensures exhibited { WIDEST_EXHIBITED ≡ 16 }
    ensures exhibited_rows { MOST_EXHIBITED_ROWS ≡ 100000 }
    ensures split_schemes { MOST_SPLIT_SCHEMES ≡ 4096 }
    ensures tableau_rows { MOST_TABLEAU_ROWS ≡ 1024 }
    ensures joined_rows { MOST_JOINED_ROWS ≡ 10000000 }
{}

/// What words may say: files, invented persons, columns on the left, columns that one word lists, and the parts of a
/// table's name with their bytes; and how many lines of `help` are shown where they say nothing.
pub fn limits_of_words()
    ensures files { MOST_FILES ≡ 64 }
    ensures persons { MOST_PERSONS ≡ 25000 }
    ensures on_left { MOST_ON_LEFT ≡ 64 }
    ensures listed_columns { MOST_LISTED_COLUMNS ≡ 8 }
    ensures parts { MOST_PARTS ≡ 3 }
    ensures part { MOST_PART_BYTES ≡ 63 }
    ensures nearest { MOST_NEAREST ≡ 3 }
{}

/// What no refusal names: how many tables may have numbers, for how many numbers each type has a value that is made up,
/// the bytes in which names and types are held, the blocks that are held of a set, and the buckets of values, with the
/// factor by which their bytes are mixed.
pub fn numbers_within()
    ensures tables { MOST_TABLES ≡ 999999 }
    ensures made_up_values { MADE_UP_VALUES ≡ 1000000 }
    ensures held_bytes { MOST_HELD_BYTES ≡ 63 }
    ensures blocks { MOST_BLOCKS ≡ 128 }
    ensures buckets { BUCKETS ≡ 256 }
    ensures factor { FACTOR ≡ 2654435761 }
{}
