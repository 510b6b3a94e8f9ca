ghost use Rattle.std.specs.Prelude.{◌≡◌, ◌&&◌, ◌==◌, false, not, length, All};
ghost use Rattle.std.specs.List.{fold};
ghost use Rattle.csv.specs.Reading.{strip_bom, records, default_config};
ghost use Rattle.csv_rows.specs.Quotes as Spec;
ghost use Rattle.csv_rows.specs.declared.quotes.Place.TheVariants as place;

use memchr::memchr;

/// Where a text stands, parted into records and fields, after some of its bytes.
#[derive(Clone, Copy, Debug, PartialEq, Eq)]
pub enum Place {
    /// No record is begun.
    BetweenRecords,
    /// No byte of the field is read.
    FieldStart,
    /// In a field without quotes, or behind a closing quote.
    PlainField,
    /// Within quotes.
    QuotedField,
    /// After a quote within quotes, which closes them or is the first of two.
    AfterQuote,
}

/// The number of the record that has a quote which is never closed, from 1. It is the last record.
/// The records are counted only where there is one.
pub fn open_record(text: &[u8]) -> Option<usize>
    ensures open { result ≡ Spec.open_record text.now }
{
    let records = without_mark(text);
    if ends_within_quotes(records) {
        Some(records_of(records))
    } else {
        None
    }
}

/// Whether the record of this number is the open one.
pub fn is_open(unclosed: Option<usize>, number: usize) -> bool
    ensures open { result ≡ Spec.is_open unclosed number }
{
    match unclosed {
        Some(open) => open == number,
        None => false,
    }
}

// The text after one byte-order mark.
fn without_mark(text: &[u8]) -> &[u8]
    ensures text { result.now ≡ strip_bom text.now }
{
    if text.len() >= 3 && text[0] == 0xEF && text[1] == 0xBB && text[2] == 0xBF {
        &text[3..]
    } else {
        text
    }
}

// Whether a text ends within quotes. It is gone through from quote to quote, since of the bytes
// between two of them the last one says it all.
fn ends_within_quotes(text: &[u8]) -> bool
    ensures within { result ≡ Spec.is_quoted (fold Spec.next_place place.BetweenRecords text.now) }
{
    let mut place = Place::BetweenRecords;
    let mut rest = text;
    while let Some(quote) = memchr(b'"', rest) {
        let (before, from_quote) = rest.split_at(quote);
        place = next_place(place_after(place, before), b'"');
        rest = &from_quote[1..];
    }
    place_after(place, rest) == Place::QuotedField
}

// The place after bytes of which none is a quote.
fn place_after(place: Place, bytes: &[u8]) -> Place
    requires no_quote { All (λ byte. (byte == 34) ≡ false) bytes.now }
    ensures place { result ≡ fold Spec.next_place place bytes.now }
{
    match place {
        Place::QuotedField => Place::QuotedField,
        _ if bytes.is_empty() => place,
        _ => plain_place(bytes[bytes.len() - 1]),
    }
}

// How many records a text has begun.
fn records_of(text: &[u8]) -> usize
    ensures records { result ≡ length (records default_config text.now) }
{
    let mut place = Place::BetweenRecords;
    let mut records = 0;
    for byte in text {
        let next = next_place(place, *byte);
        if begins_record(place, next) {
            records += 1;
        }
        place = next;
    }
    records
}

// Whether a byte begins a record that leads from one place to another.
fn begins_record(from: Place, to: Place) -> bool
    ensures begins { result ≡ (Spec.is_between from && not (Spec.is_between to)) }
{
    match (from, to) {
        (Place::BetweenRecords, Place::BetweenRecords) => false,
        (Place::BetweenRecords, _) => true,
        _ => false,
    }
}

// The place after one byte more.
fn next_place(place: Place, byte: u8) -> Place
    ensures place { result ≡ Spec.next_place place byte }
{
    match place {
        Place::QuotedField if byte == b'"' => Place::AfterQuote,
        Place::QuotedField => Place::QuotedField,
        Place::PlainField => plain_place(byte),
        _ if byte == b'"' => Place::QuotedField,
        _ => plain_place(byte),
    }
}

// The place after a byte that is no quote or stands in a plain field.
fn plain_place(byte: u8) -> Place
    ensures place { result ≡ Spec.plain_place byte }
{
    match byte {
        b',' => Place::FieldStart,
        b'\r' | b'\n' => Place::BetweenRecords,
        _ => Place::PlainField,
    }
}
