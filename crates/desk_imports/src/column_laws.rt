//! The laws of schemas that are made of columns. Each is a function that does nothing, whose clause is
//! the law; so the gate asks for its proof.

ghost use Rattle.std.specs.Prelude.{◌≡◌, [], ℕ, List};
ghost use Rattle.attr_sets.specs.declared.set.TheConstants.{MOST_ATTRIBUTES};
ghost use Rattle.column_values.specs.Values.{FitsColumns};
ghost use Rattle.schema_model.specs.Schemas.{types_of, nullable_of};
ghost use Rattle.schema_model.specs.declared.naming.Naming.TheVariants.{Any};
ghost use Rattle.schema_model.specs.Schemas.{Schema};
ghost use Rattle.headed_rows.specs.Headers.{IsHeaderWithin};
ghost use Rattle.headed_rows.specs.Headings.{HeadedRows};
ghost use Rattle.schema_grammar.specs.Schemas.{MeansSchema};
ghost use Rattle.schema_printer.specs.Printing.{schema_text};
ghost use Rattle.desk_imports.specs.Columns.{ImportsColumns, IsSchemaOf};
ghost use Rattle.desk_responses.specs.ResponseValues.{ResponseValue};

/// Each value of the file fits its column of the schema, and the text that is printed means this
/// schema, without dependencies. There is one answer.
pub fn columns_are_imported()
    ensures fits { (headed : HeadedRows) (s : Schema) → IsSchemaOf headed s → FitsColumns s headed.rows }
    ensures means { (headed : HeadedRows) (s : Schema) → IsHeaderWithin MOST_ATTRIBUTES headed.names
        → IsSchemaOf headed s
        → (lines : List ℕ) × MeansSchema (schema_text s [])
        (record {
          names = headed.names;
          columns = types_of s;
          deps = [];
          lines = lines;
          naming = Any;
          nullable = nullable_of s;
        }) }
    ensures unique { (headed : HeadedRows) (one other : ResponseValue) → ImportsColumns headed one
        → ImportsColumns headed other → one ≡ other }
{}
