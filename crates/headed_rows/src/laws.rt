//! The law of what texts under a free header mean.

ghost use Rattle.std.specs.Prelude.{◌≡◌, List, ℕ};
ghost use Rattle.headed_rows.specs.Headings.{HeadedRows, IsHeadedWithin, IsRefusedWithin};
ghost use Rattle.headed_rows.specs.declared.headed_rows.Limits.{Limits};
ghost use Rattle.headed_rows.specs.declared.refusal.HeaderRefusal.{HeaderRefusal};

/// Within limits a text has one header with its rows, or one refusal: never two of either, and never both.
pub fn one_reading()
    ensures rows { (limits : Limits) (text : List ℕ) (one other : HeadedRows) → IsHeadedWithin limits text one
        → IsHeadedWithin limits text other → one ≡ other }
    ensures refusal { (limits : Limits) (text : List ℕ) (one other : HeaderRefusal) → IsRefusedWithin limits text one
        → IsRefusedWithin limits text other → one ≡ other }
    ensures never_both { (limits : Limits) (text : List ℕ) (headed : HeadedRows) (why : HeaderRefusal)
        → IsHeadedWithin limits text headed → IsRefusedWithin limits text why → ⊥ }
{}
