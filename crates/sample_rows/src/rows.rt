ghost use Rattle.std.specs.Prelude.{◌≡◌, ◌*◌, ◌∷◌, ◌++◌, ◌<◌, ◌≤◌, length, AllPairs, IfOk, OnOk};
ghost use Rattle.std.specs.Fmt.{decimal};
ghost use Rattle.dep_model.specs.Implication.{IsLegal};
ghost use Rattle.sample_rows.specs.Sample.{person_rows, sample_relation, sample_row, sample_theory};

use dep_model::OutOfMemory;
use itoa::Buffer;
use row_store::{FlatValues, Rows};
use std::alloc::Global;

/// The most persons of a sample.
pub const MOST_PERSONS: u32 = 25_000;

/// The rows of so many persons, four each, no two of them equal. They are legal for the schema of the
/// sample.
pub fn sample_rows(alloc: Global, persons: u32) -> Result<Rows, OutOfMemory>
    requires within_limit { persons ≤ MOST_PERSONS }
    ensures rows { IfOk result (λ rows. rows ≡ sample_relation persons) }
    ensures count { IfOk result (λ rows. length rows ≡ 4 * persons) }
    ensures differ { IfOk result (λ rows. AllPairs (λ t u. t ≡ u → ⊥) rows) }
    ensures legal { IfOk result (λ rows. IsLegal 4 sample_theory rows) }
{
    let mut rows = Rows::new(alloc);
    for person in 0..persons {
        add_person(alloc, &mut rows, person)?;
    }
    Ok(rows)
}

// The rows of a person, after those of others.
fn add_person(alloc: Global, rows: &mut Rows, person: u32) -> Result<(), OutOfMemory>
    requires within_limit { person < MOST_PERSONS }
    ensures added { OnOk result (rows.new ≡ rows.old ++ person_rows person) }
{
    rows.push(&row_of_person(alloc, person, 0, 0)?)?;
    rows.push(&row_of_person(alloc, person, 0, 1)?)?;
    rows.push(&row_of_person(alloc, person, 1, 0)?)?;
    rows.push(&row_of_person(alloc, person, 1, 1)?)?;
    Ok(())
}

// The row of a person with one of the two skills and one of the two tongues.
fn row_of_person(
    alloc: Global,
    person: u32,
    skill: u32,
    tongue: u32,
) -> Result<FlatValues, OutOfMemory>
    requires within_limit { person < MOST_PERSONS }
    requires skill { skill < 2 }
    requires tongue { tongue < 2 }
    ensures row { IfOk result (λ t. t ≡ sample_row person skill tongue) }
{
    let mut values = FlatValues::new(alloc);
    values.push(&letter_and_number(alloc, b'p', person)?)?;
    values.push(&letter_and_number(alloc, b'c', person % 100)?)?;
    values.push(&letter_and_number(alloc, b's', (3 * person + skill) % 50)?)?;
    values.push(&letter_and_number(alloc, b'l', (7 * person + tongue) % 20)?)?;
    Ok(values)
}

// A letter, and a number in decimal.
fn letter_and_number(alloc: Global, letter: u8, number: u32) -> Result<Vec<u8>, OutOfMemory>
    ensures value { IfOk result (λ v. v.items ≡ letter ∷ decimal number) }
{
    let mut bytes = Vec::new(alloc);
    bytes.push(letter)?;
    bytes.extend_from_slice(Buffer::new().format(number).as_bytes())?;
    Ok(bytes)
}
