ghost use Rattle.std.specs.Prelude.{◌≡◌, IfOk, IfErr, Ok, Err};
ghost use Rattle.attr_sets.specs.Attributes.{none};
ghost use Rattle.attr_sets.specs.Sets.{attributes};
ghost use Rattle.dep_model.specs.Deps.{dependency_of};
ghost use Rattle.schema_grammar.specs.Grammar.{after_sign, advance, finish_dependency, dependency_of_sign, IsInRange};
ghost use Rattle.schema_grammar.specs.declared.symbol.Sign.TheVariants as sign;
ghost use Rattle.schema_reader.specs.Views.{reached_of};

use attr_sets::AttrSet;
use dep_model::Dep;
use schema_grammar::{Sign, Symbol, What};

/// How far a dependency is read, and its sets so far.
#[derive(Clone, Copy)]
pub enum Stage {
    Start,
    /// After words of the left side.
    Left(AttrSet),
    /// After a left `()`.
    LeftEmpty,
    /// After the arrow.
    AfterSign(Sign, AttrSet),
    /// After words of the right side.
    Right(Sign, AttrSet, AttrSet),
    /// After a right `()`.
    RightEmpty(Sign, AttrSet),
}

/// After `() ->`.
pub fn after_arrow() -> Stage
    ensures reached { reached_of result ≡ after_sign sign.Functional none }
{
    Stage::AfterSign(Sign::Functional, AttrSet::empty())
}

/// Where a token leads.
#[tactic(auto, unfolding(schema_grammar::specs::Grammar::advance))]
pub fn advance(stage: Stage, symbol: Symbol) -> Result<Stage, What>
    requires { IsInRange symbol }
    ensures ok { IfOk result (λ next. advance (reached_of stage) symbol ≡ Ok (reached_of next)) }
    ensures err { IfErr result (λ what. advance (reached_of stage) symbol ≡ Err what) }
{
    match (stage, symbol) {
        (Stage::Start, Symbol::Attribute(attribute)) => Ok(Stage::Left(AttrSet::single(attribute))),
        (Stage::Start, Symbol::Empty) => Ok(Stage::LeftEmpty),
        (Stage::Start, _) => Err(What::Side),
        (Stage::Left(lhs), Symbol::Attribute(attribute)) => Ok(Stage::Left(lhs.with(attribute))),
        (Stage::Left(lhs), Symbol::Arrow(sign)) => Ok(Stage::AfterSign(sign, lhs)),
        (Stage::Left(_), _) => Err(What::Arrow),
        (Stage::LeftEmpty, Symbol::Arrow(sign)) => Ok(Stage::AfterSign(sign, AttrSet::empty())),
        (Stage::LeftEmpty, _) => Err(What::Arrow),
        (Stage::AfterSign(sign, lhs), Symbol::Attribute(attribute)) => {
            Ok(Stage::Right(sign, lhs, AttrSet::single(attribute)))
        }
        (Stage::AfterSign(sign, lhs), Symbol::Empty) => Ok(Stage::RightEmpty(sign, lhs)),
        (Stage::AfterSign(_, _), _) => Err(What::Side),
        (Stage::Right(sign, lhs, rhs), Symbol::Attribute(attribute)) => {
            Ok(Stage::Right(sign, lhs, rhs.with(attribute)))
        }
        (Stage::Right(_, _, _), _) => Err(What::LineEnd),
        (Stage::RightEmpty(_, _), _) => Err(What::LineEnd),
    }
}

/// The dependency that is read where the line ends, or what it still wants.
#[tactic(auto, unfolding(schema_grammar::specs::Grammar::finish_dependency))]
pub fn finish(stage: Stage) -> Result<Dep, What>
    ensures ok { IfOk result (λ dep. finish_dependency (reached_of stage) ≡ Ok (dependency_of dep)) }
    ensures err { IfErr result (λ what. finish_dependency (reached_of stage) ≡ Err what) }
{
    match stage {
        Stage::Start | Stage::AfterSign(_, _) => Err(What::Side),
        Stage::Left(_) | Stage::LeftEmpty => Err(What::Arrow),
        Stage::Right(sign, lhs, rhs) => Ok(dependency_of_sign(sign, lhs, rhs)),
        Stage::RightEmpty(sign, lhs) => Ok(dependency_of_sign(sign, lhs, AttrSet::empty())),
    }
}

fn dependency_of_sign(sign: Sign, lhs: AttrSet, rhs: AttrSet) -> Dep
    ensures dependency { dependency_of result
        ≡ dependency_of_sign sign (attributes lhs) (attributes rhs) }
{
    match sign {
        Sign::Functional => Dep::Fd { lhs, rhs },
        Sign::Multivalued => Dep::Mvd { lhs, rhs },
    }
}
