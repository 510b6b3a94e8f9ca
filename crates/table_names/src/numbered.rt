ghost use Rattle.std.specs.Prelude.{◌≡◌};
ghost use Rattle.table_names.specs.TableNames.{table_name};

use itoa::write_digits;
use schema_model::Name;

/// The most tables of a decomposition.
pub const MOST_TABLES: u32 = 999_999;

// The most bytes of a name: `t`, and the digits of the greatest number.
const MOST_BYTES: usize = 11;

/// The name of the table of this number, as `t1`. The tables of a decomposition are numbered from 1,
/// in the order of its schemes.
pub fn table_name(number: u32) -> Name
    ensures name { result ≡ table_name number }
{
    let mut bytes = [b't'; MOST_BYTES];
    let start = write_digits(number as u64, &mut bytes, MOST_BYTES);
    Name::new(&bytes[start - 1..]).unwrap()
}
