ghost use Rattle.std.specs.Prelude.{◌≡◌, ◌≤◌, length, IfOk, IfErr};
ghost use Rattle.attr_sets.specs.Attributes.{IsSubset};
ghost use Rattle.attr_sets.specs.Sets.{attributes};
ghost use Rattle.schema_model.specs.Schemas.{naming_of, names_of, universe_of};
ghost use Rattle.schema_grammar.specs.Sets.{MeansSet, RefusesSet};

use crate::goal::follow;
use crate::stage::after_arrow;
use attr_sets::AttrSet;
use dep_model::sides;
use lexer::Mode;
use schema_grammar::{Format, SchemaRefusal};
use schema_model::Schema;
use tokens::{Cursor, Names};

/// The most bytes of a set.
pub const MOST_SET_BYTES: usize = 16_384;

/// The attributes of the schema that a text means, or its first diagnostic. The set is one line, with
/// the tokens of a goal, and is read as the right side of one. It takes no memory.
pub fn read_set(schema: &Schema, text: &[u8]) -> Result<AttrSet, SchemaRefusal>
    requires { length text.now ≤ MOST_SET_BYTES }
    ensures ok { IfOk result (λ set.
        MeansSet (naming_of schema.now) (names_of schema.now) text.now (attributes set)) }
    ensures err { IfErr result (RefusesSet (naming_of schema.now) (names_of schema.now) text.now) }
    ensures within { IfOk result (λ set. IsSubset (attributes set) (universe_of schema.now)) }
{
    let start = Cursor::start(1, Mode::goal(schema.naming()), text);
    match follow(&Names::Of(schema), Format::Plain, after_arrow(), start) {
        Ok(dep) => {
            let (_, set) = sides(dep);
            Ok(set)
        }
        Err(refusal) => Err(refusal),
    }
}
