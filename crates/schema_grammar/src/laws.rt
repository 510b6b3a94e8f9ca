//! The grammar, tied to the readers. Each is a function that does nothing, whose clause is the law; so
//! the gate asks for its proof.

ghost use Rattle.schema_grammar.specs.Laws.{GoalMeaning, GoalDiagnostics, GoalRefusal, SetMeaning, SetDiagnostics, SetRefusal, SchemaRefused, SchemaMeaning, TextLineDiagnostics, LinesDiagnostics, SchemaDiagnostics, PositionsRise, PrintedSchemaMeans, DeclaredNames};

/// A goal is read as a dependency exactly where it means that dependency; so it means one at most. It
/// is refused by its first diagnostic, that at the first position, and there that of the least number,
/// and has none where it is read. It is refused so exactly where the definition refuses it so; so it
/// has one refusal at most, and none where it means a dependency.
pub fn goals_are_read_or_refused()
    ensures meaning { GoalMeaning }
    ensures diagnostic { GoalDiagnostics }
    ensures refusal { GoalRefusal }
{}

/// A set is read as these attributes exactly where it means them; so it means one set at most. It is
/// refused by its first diagnostic, and has none where it is read. It is refused so exactly where the
/// definition refuses it so; so it has one refusal at most, and none where it means a set.
pub fn sets_are_read_or_refused()
    ensures meaning { SetMeaning }
    ensures diagnostic { SetDiagnostics }
    ensures refusal { SetRefusal }
{}

/// A schema text is read as what it declares exactly where it means that, and is refused so exactly
/// where the definition refuses it so; so it means one schema at most, or has one refusal at most, and
/// never both.
pub fn schemas_are_read_or_refused()
    ensures refusal { SchemaRefused }
    ensures meaning { SchemaMeaning }
{}

/// A line of a schema text is refused by its first diagnostic, and has none where it is read. The lines
/// are refused by the diagnostic of the first line that has one, there of the first position, and there
/// of the least number; or at the last line, where they have none and declare nothing. A text is
/// refused at its version line, or by the first diagnostic of the lines after it, and one without a
/// version line by the first diagnostic of its lines. Where they are read, lines and texts have no
/// diagnostic. A later position of a line stands in a greater column: so the order of positions, by the
/// tokens that stand before them, is that of their columns.
pub fn first_diagnostics_refuse()
    ensures line { TextLineDiagnostics }
    ensures lines { LinesDiagnostics }
    ensures schema { SchemaDiagnostics }
    ensures positions { PositionsRise }
{}

/// What is printed of a schema with at most `MOST_DEPENDENCY_LINES` dependencies means the same names,
/// columns, dependencies and attributes of which a value may be missing, where no bare name is reserved.
/// Only the lines of the dependencies are those of the printed text.
pub fn printed_schema_means()
    ensures law { PrintedSchemaMeans }
{}

/// What a schema text declares are names, which differ. Where only bare names are declared, each is one,
/// and none is reserved in a text without a version line.
pub fn declared_names()
    ensures law { DeclaredNames }
{}
