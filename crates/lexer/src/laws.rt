//! What the definition of tokens comes to. A function does nothing, and its clause is the law.

ghost use Rattle.lexer.specs.Laws.{NamesAreTested, QuotedNames};

/// The test of what stands between quotes takes exactly names. The text of a name between quotes, in
/// which each double quote is doubled, is one token for that name, as long as the text, whatever
/// follows but a double quote.
pub fn quoted_names()
    ensures tested { NamesAreTested }
    ensures one_token { QuotedNames }
{}
