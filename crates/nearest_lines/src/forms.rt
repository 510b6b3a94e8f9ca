//! How near the form of words that a line shows is to the words that were given.

ghost use Rattle.std.specs.Prelude.{◌≡◌, ◌∷◌, ◌+◌, ◌<◌, ◌≤◌, cond, length, IfSome};
ghost use Rattle.std.specs.List.{list_any, position_or_len, slice_split};
ghost use Rattle.std.specs.Char.{is_ascii_lowercase, is_ascii_uppercase};
ghost use Rattle.schema_model.specs.Names.{same_name};
ghost use Rattle.nearest_lines.specs.Nearest.{hits, hits_in, is_blank, is_fixed, is_hit};
ghost use Rattle.nearest_lines.specs.Words.{words_after};

use arguments::Argument;

/// How many fixed words of the form that a line shows are among these words, in any case of letters. The form
/// stands between the program's name and the first two blanks; its fixed words have a small letter and no capital one.
#[tactic(auto, unfolding(crate::specs::Nearest::hits))]
pub fn hits(words: &[Argument], line: &[u8]) -> usize
    ensures hits { result ≡ hits words.now line.now }
{
    let (name, form) = cut_word(line);
    if name != b"desk".as_slice() {
        return 0;
    }
    match form {
        Some(form) => hits_in(words, form),
        None => 0,
    }
}

// How many words before two blanks are fixed and among those that were given.
fn hits_in(words: &[Argument], form: &[u8]) -> usize
    ensures hits { result ≡ hits_in words.now (slice_split is_blank form.now) }
{
    let mut count = 0;
    let mut rest = form;
    'words: loop {
        let (word, after) = cut_word(rest);
        if word.is_empty() {
            return count;
        }
        count += hit(words, word);
        match after {
            Some(form) => rest = form,
            None => return count,
        }
    }
}

// The bytes before the first blank, and what stands after it.
fn cut_word(text: &[u8]) -> (&[u8], Option<&[u8]>)
    ensures cut { slice_split is_blank text.now ≡ result.0.now ∷ words_after result.1 }
    ensures within { length result.0.now ≤ length text.now }
    ensures shorter { IfSome result.1 (λ rest. length result.0.now + length rest.now < length text.now) }
{
    let end = word_length(text);
    if end < text.len() {
        let (word, rest) = text.split_at(end);
        (word, Some(rest.split_at(1).1))
    } else {
        (text, None)
    }
}

// How many bytes stand before the first blank.
fn word_length(text: &[u8]) -> usize
    ensures length { result ≡ position_or_len is_blank text.now }
{
    text.iter().take_while(|byte| **byte != b' ').count()
}

// 1 where a word is fixed and one of these, else 0.
fn hit(words: &[Argument], word: &[u8]) -> usize
    ensures hit { result ≡ cond (is_hit words.now word.now) 1 0 }
    ensures few { result ≤ 1 }
{
    if is_hit(words, word) { 1 } else { 0 }
}

// Whether a word is fixed and one of these.
fn is_hit(words: &[Argument], word: &[u8]) -> bool
    ensures hit { result ≡ is_hit words.now word.now }
{
    is_fixed(word) && is_among(words, word)
}

// Whether a word has a small letter and no capital one.
fn is_fixed(word: &[u8]) -> bool
    ensures fixed { result ≡ is_fixed word.now }
{
    has_small(word) && !has_capital(word)
}

fn has_small(word: &[u8]) -> bool
    ensures small { result ≡ list_any is_ascii_lowercase word.now }
{
    word.iter().any(|byte| byte.is_ascii_lowercase())
}

fn has_capital(word: &[u8]) -> bool
    ensures capital { result ≡ list_any is_ascii_uppercase word.now }
{
    word.iter().any(|byte| byte.is_ascii_uppercase())
}

// Whether a word is one of these, the case of letters aside.
fn is_among(words: &[Argument], word: &[u8]) -> bool
    ensures among { result ≡ list_any (same_name word.now) words.now }
{
    words
        .iter()
        .any(|given| word.eq_ignore_ascii_case(given.bytes()))
}
