ghost use Rattle.std.specs.Prelude.{◌≡◌, ◌<◌, ◌∷◌, [], ℕ, slice_get, Some, IfOk, true};
ghost use Rattle.schema_model.specs.Names.{is_bare_name};
ghost use Rattle.schema_model.specs.Schemas.{types_of, lines_of, names_of, naming_of, theory_of, width_of};
ghost use Rattle.sample_rows.specs.Sample.{sample_names, sample_theory};

use attr_sets::AttrSet;
use dep_model::{Dep, OutOfMemory};
use schema_model::{ColumnType, Name, Naming, Schema};
use std::alloc::Global;

/// The schema of the sample, as the text
/// `attributes PERSON CITY SKILL TONGUE`, `PERSON -> CITY`, `PERSON ->> SKILL` of three lines means it.
pub fn sample_schema(alloc: Global) -> Result<Schema, OutOfMemory>
    ensures naming { IfOk result (λ s. naming_of s ≡ Naming.Bare) }
    ensures names { IfOk result (λ s. names_of s ≡ sample_names) }
    ensures columns { IfOk result
        (λ s. (i : ℕ) → i < width_of s → slice_get (types_of s) i ≡ Some ColumnType.Text) }
    ensures theory { IfOk result (λ s. theory_of s ≡ sample_theory) }
    ensures lines { IfOk result (λ s. lines_of s ≡ 2 ∷ 3 ∷ []) }
{
    let names = Vec::from_array(
        alloc,
        [
            name_of_word(b"PERSON"),
            name_of_word(b"CITY"),
            name_of_word(b"SKILL"),
            name_of_word(b"TONGUE"),
        ],
    )?;
    let person = AttrSet::single(0);
    let deps = Vec::from_array(
        alloc,
        [
            Dep::Fd {
                lhs: person,
                rhs: AttrSet::single(1),
            },
            Dep::Mvd {
                lhs: person,
                rhs: AttrSet::single(2),
            },
        ],
    )?;
    let lines = Vec::from_array(alloc, [2, 3])?;
    Ok(Schema::new(names, deps, lines))
}

// The name that a word is.
#[tactic(auto, using(schema_model::proofs::NameLemmas::bare_name_is_name))]
fn name_of_word(word: &[u8]) -> Name
    requires name { is_bare_name word.now ≡ true }
    ensures name { result ≡ word.now }
{
    Name::new(word).unwrap()
}
