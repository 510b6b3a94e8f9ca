//! What the definition of parts comes to. A function does nothing, and its clause is the law.

ghost use Rattle.table_words.specs.Laws.{SpelledParts};

/// One to three parts are read from what spells them, each quoted name as that name, whatever bytes it has.
pub fn spelled_parts()
    ensures law { SpelledParts }
{}
