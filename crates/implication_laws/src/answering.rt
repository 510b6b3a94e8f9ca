//! Laws that each command on implication has one answer, but for the derivation of a goal.

ghost use Rattle.std.specs.Prelude.{◌≡◌, ◌≤◌, ◌⊎◌, ℕ, List, length};
ghost use Rattle.attr_sets.specs.Attributes.{Attributes};
ghost use Rattle.derivation.specs.Trees.{Tree};
ghost use Rattle.dep_model.specs.Dependencies.{Dependency};
ghost use Rattle.schema_model.specs.Schemas.{Schema};
ghost use Rattle.derivation_grammar.specs.Lines.{DerivationLine};
ghost use Rattle.headed_rows.specs.Headings.{HeadedRows};
ghost use Rattle.desk_implication.specs.Bases.{GivesBasis};
ghost use Rattle.desk_implication.specs.Certificates.{ChecksProof};
ghost use Rattle.desk_implication.specs.Closures.{GivesClosure};
ghost use Rattle.desk_covers.specs.CoverChecks.{ChecksCanonicalCover, ChecksCover};
ghost use Rattle.desk_covers.specs.CoverReasons.{ExplainsCover};
ghost use Rattle.desk_covers.specs.Covering.{GivesCanonicalCover, GivesCover};
ghost use Rattle.desk_implication.specs.Derivations.{ChecksDerivation};
ghost use Rattle.desk_discovery.specs.Discoveries.{FindsRules, FindsSmallRules, RefusesRules};
ghost use Rattle.desk_discovery.specs.AllDiscoveries.{FindsAllRules};
ghost use Rattle.desk_discovery.specs.NearDiscoveries.{FindsNearRules};
ghost use Rattle.desk_discovery.specs.KeyDiscoveries.{FindsRowKeys, RefusesRowKeys};
ghost use Rattle.desk_discovery.specs.declared.discovering.TheConstants.{WIDEST_TRIED};
ghost use Rattle.desk_exhibits.specs.Exhibits.{Exhibits};
ghost use Rattle.desk_arguments.specs.Goals.{IsGoal};
ghost use Rattle.desk_implication.specs.Implication.{DecidesGoal};
ghost use Rattle.desk_keys.specs.KeyChecks.{ChecksKey};
ghost use Rattle.desk_keys.specs.KeyReasons.{ExplainsKeys};
ghost use Rattle.desk_keys.specs.Keys.{ListsKeys, ListsKeysOfPlan};
ghost use Rattle.desk_implication.specs.Projections.{Projects};
ghost use Rattle.desk_covers.specs.Sameness.{ChecksSame};
ghost use Rattle.desk_responses.specs.ResponseValues.{ResponseValue};
ghost use Rattle.desk_responses.specs.declared.status.Status.TheVariants.{Yes};
ghost use Rattle.implication_laws.specs.OneAnswer.{AllowsOne, HasFixedProof};

/// A question to a schema has one answer: whether a goal follows (but for the derivation of one that is no
/// functional chain and not given), what a set determines and which keys there are, what a certificate or a
/// derivation shows, a part of the schema, and rows that exhibit it.
pub fn questions_have_one_answer()
    ensures implies { (schema : Schema) (goal : List ℕ) (d : Dependency) (one other : ResponseValue)
        → IsGoal schema goal d → (one.status ≡ Yes → HasFixedProof schema d)
        → DecidesGoal schema goal one → DecidesGoal schema goal other → one ≡ other }
    ensures certificate { (schema : Schema) (tree : Tree) (goal : List ℕ) → AllowsOne (ChecksProof schema tree goal) }
    ensures derivation { (schema : Schema) (lines : List DerivationLine) (goal : List ℕ)
        → AllowsOne (ChecksDerivation schema lines goal) }
    ensures closure { (schema : Schema) (set : List ℕ) → AllowsOne (GivesClosure schema set) }
    ensures basis { (schema : Schema) (set : List ℕ) → AllowsOne (GivesBasis schema set) }
    ensures projection { (schema : Schema) (set : List ℕ) → AllowsOne (Projects schema set) }
    ensures key { (schema : Schema) (set : List ℕ) → AllowsOne (ChecksKey schema set) }
    ensures keys { (schema : Schema) → AllowsOne (ListsKeys schema) }
    ensures keys_of_plan { (schema : Schema) (plan : List Attributes) → AllowsOne (ListsKeysOfPlan schema plan) }
    ensures exhibit { (schema : Schema) → AllowsOne (Exhibits schema) }
{}

/// A cover, a canonical cover, the reasons of a cover and of keys, and what is said of a schema as a cover of
/// another or as the same, are one answer each.
pub fn covers_have_one_answer()
    ensures cover { (schema : Schema) → AllowsOne (GivesCover schema) }
    ensures canonical { (schema : Schema) → AllowsOne (GivesCanonicalCover schema) }
    ensures explained_cover { (schema : Schema) → AllowsOne (ExplainsCover schema) }
    ensures explained_keys { (schema : Schema) → AllowsOne (ExplainsKeys schema) }
    ensures check { (schema other : Schema) (file other_file : List ℕ)
        → AllowsOne (ChecksCover schema other file other_file) }
    ensures check_canonical { (schema other : Schema) (file other_file : List ℕ)
        → AllowsOne (ChecksCanonicalCover schema other file other_file) }
    ensures same { (schema other : Schema) (file other_file : List ℕ)
        → AllowsOne (ChecksSame schema other file other_file) }
{}

/// What is discovered in rows is one answer, but that where a column has too many left sides, or there are too
/// many keys, it may be refused so; of few columns it is never refused.
pub fn discoveries_have_one_answer()
    ensures rules { (file : List ℕ) (headed : HeadedRows) (one other : ResponseValue)
        → FindsRules file headed one → FindsRules file headed other
        → (one ≡ other) ⊎ (RefusesRules (length headed.names) file headed one
        ⊎ RefusesRules (length headed.names) file headed other) }
    ensures few_rules { (file : List ℕ) (headed : HeadedRows) → length headed.names ≤ WIDEST_TRIED
        → AllowsOne (FindsRules file headed) }
    ensures small_rules { (most : ℕ) (file : List ℕ) (headed : HeadedRows) (one other : ResponseValue)
        → FindsSmallRules most file headed one → FindsSmallRules most file headed other
        → (one ≡ other) ⊎ (RefusesRules most file headed one ⊎ RefusesRules most file headed other) }
    ensures few_small_rules { (most : ℕ) (file : List ℕ) (headed : HeadedRows) → length headed.names ≤ WIDEST_TRIED
        → AllowsOne (FindsSmallRules most file headed) }
    ensures row_keys { (file : List ℕ) (headed : HeadedRows) (one other : ResponseValue)
        → FindsRowKeys file headed one → FindsRowKeys file headed other
        → (one ≡ other) ⊎ (RefusesRowKeys file headed one ⊎ RefusesRowKeys file headed other) }
    ensures all_rules { (headed : HeadedRows) → AllowsOne (FindsAllRules headed) }
    ensures near_rules { (limit most : ℕ) (file : List ℕ) (headed : HeadedRows)
        → AllowsOne (FindsNearRules limit most file headed) }
{}
