ghost use Rattle.std.specs.Prelude.{◌≡◌};
ghost use Rattle.lexer.specs.Modes.{has_quotes, plain, scaled, labelled, goal, numbered};

use schema_model::Naming;

/// Which tokens a line may have, beside words, arrows and `()`.
#[derive(Clone, Copy, Debug, PartialEq, Eq)]
pub struct Mode {
    /// Numbers are tokens.
    pub numbers: bool,
    /// `:` is a token.
    pub colon: bool,
    /// `#` begins a comment.
    pub comments: bool,
    /// A name may stand between double quotes.
    pub quotes: bool,
}

impl Mode {
    /// Lines of schemas and plans: comments.
    pub fn plain(naming: Naming) -> Mode
        ensures mode { result ≡ plain naming }
    {
        Mode {
            numbers: false,
            colon: false,
            comments: true,
            quotes: has_quotes(naming),
        }
    }

    /// Lines of schemas that declare decimal columns: numbers and comments.
    pub fn scaled(naming: Naming) -> Mode
        ensures mode { result ≡ scaled naming }
    {
        Mode {
            numbers: true,
            colon: false,
            comments: true,
            quotes: has_quotes(naming),
        }
    }

    /// Lines of plans that name a table: `:` and comments.
    pub fn labelled(naming: Naming) -> Mode
        ensures mode { result ≡ labelled naming }
    {
        Mode {
            numbers: false,
            colon: true,
            comments: true,
            quotes: has_quotes(naming),
        }
    }

    /// Goals and sets: nothing beside.
    pub fn goal(naming: Naming) -> Mode
        ensures mode { result ≡ goal naming }
    {
        Mode {
            numbers: false,
            colon: false,
            comments: false,
            quotes: has_quotes(naming),
        }
    }

    /// Certificates, and version lines by bare names: numbers, `:` and comments.
    pub fn numbered(naming: Naming) -> Mode
        ensures mode { result ≡ numbered naming }
    {
        Mode {
            numbers: true,
            colon: true,
            comments: true,
            quotes: has_quotes(naming),
        }
    }
}

// Whether names may stand between quotes.
fn has_quotes(naming: Naming) -> bool
    ensures exact { result ≡ has_quotes naming }
{
    match naming {
        Naming::Bare => false,
        Naming::Any => true,
    }
}
