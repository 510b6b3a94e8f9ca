//! The laws of the values of columns. Each is a function that does nothing, whose clause is the law; so
//! the gate asks for its proof.

ghost use Rattle.std.specs.Prelude.{◌≡◌, ℕ, ◌^◌, ◌<◌, IsTrue};
ghost use Rattle.schema_model.specs.declared.column_type.ColumnType.{ColumnType};
ghost use Rattle.schema_model.specs.Columns.{is_column_type};
ghost use Rattle.column_values.specs.declared.making.TheConstants.{MADE_UP_VALUES};
ghost use Rattle.column_values.specs.Calendar.{IsDay, date_text};
ghost use Rattle.column_values.specs.Decimals.{decimal_text};
ghost use Rattle.column_values.specs.Values.{IsValueOf};
ghost use Rattle.column_values.specs.MadeUp.{made_up};

/// The value of a type that stands for a number below `MADE_UP_VALUES` is a value of the type, and
/// those that stand for different numbers are different.
pub fn made_up_values_differ()
    ensures values { (column : ColumnType) (number : ℕ) → IsTrue (is_column_type column)
        → number < MADE_UP_VALUES → IsValueOf column (made_up column number) }
    ensures different { (column : ColumnType) (m n : ℕ) → m < MADE_UP_VALUES → n < MADE_UP_VALUES
        → made_up column m ≡ made_up column n → m ≡ n }
{}

/// A text has one day, and one decimal number of a scale: different ones have different texts. That
/// each has one text is said by `date_text` and `decimal_text`.
pub fn texts_have_one_value()
    ensures day { (year month day other_year other_month other_day : ℕ)
        → IsDay year month day → IsDay other_year other_month other_day
        → date_text year month day ≡ date_text other_year other_month other_day
        → (year ≡ other_year) × (month ≡ other_month) × (day ≡ other_day) }
    ensures decimal { (scale whole fraction other_whole other_fraction : ℕ)
        → whole < 10 ^ 15 → other_whole < 10 ^ 15 → fraction < 10 ^ scale → other_fraction < 10 ^ scale
        → decimal_text scale whole fraction ≡ decimal_text scale other_whole other_fraction
        → (whole ≡ other_whole) × (fraction ≡ other_fraction) }
{}
