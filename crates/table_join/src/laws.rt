//! The laws of the order from the last. Each is a function that does nothing, whose clause is the law; so the gate
//! asks for its proof.

ghost use Rattle.std.specs.Prelude.{◌≡◌, List, IsPermutation};
ghost use Rattle.table_join.specs.Answers.{tables_from_last};
ghost use Rattle.dep_model.specs.JoinOrders.{from_last};
ghost use Rattle.table_join.specs.Tables.{PartialRelation, plan_of_tables};

/// The tables from the last are the tables, each as often, and their schemes alone decide their order.
pub fn order_is_of_schemes()
    ensures same { (tables : List PartialRelation) → IsPermutation tables (tables_from_last tables) }
    ensures schemes { (tables : List PartialRelation)
        → plan_of_tables (tables_from_last tables) ≡ from_last (λ scheme. scheme) (plan_of_tables tables) }
{}
