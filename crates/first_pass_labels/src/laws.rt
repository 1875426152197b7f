//! Laws of labels and of their tables.

ghost use Rattle.first_pass_items.specs.declared.cow_str.CowStr.{CowStr};
ghost use Rattle.first_pass_labels.specs.Foldings.{folding_of, is_same_label, label_cmp};
ghost use Rattle.first_pass_labels.specs.LabelTables.{defined_under, table_of, with_first, IsInOrder};
ghost use Rattle.std.specs.declared.cmp.Ordering.TheVariants.{Equal};
ghost use Rattle.std.specs.Prelude.{◌≡◌, ◌↔◌, ◌∷◌, ◌++◌, [], ℕ, List, true};

/// Keys of labels are equal, and neither is before the other, exactly if the foldings of the labels have the same
/// bytes.
pub fn law_of_keys()
    ensures equal { (x y : CowStr) → (is_same_label x y ≡ true) ↔ (folding_of x ≡ folding_of y) }
    ensures tied { (x y : CowStr) → (label_cmp x y ≡ Equal) ↔ (folding_of x ≡ folding_of y) }
{}

/// The table of the definitions of a text has under each folding its first definition, or none if no definition has
/// that folding. Adding the definitions one after the other, each with `insert_first`, gives that table. CommonMark
/// 4.7: the first of several matching definitions takes precedence.
pub fn law_of_tables<T>()
    ensures first { (folding : List ℕ) (definitions : List (CowStr × T))
        → defined_under folding (table_of definitions) ≡ defined_under folding definitions }
    ensures order { (definitions : List (CowStr × T)) → IsInOrder (table_of definitions) }
    ensures more { (definitions : List (CowStr × T)) (label : CowStr) (x : T)
        → table_of (definitions ++ (label, x) ∷ []) ≡ with_first (table_of definitions) label x }
{}
