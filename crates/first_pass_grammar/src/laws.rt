//! Laws of the grammar.

ghost use Rattle.first_pass_grammar.specs.Derivation.{Derives, Tables};
ghost use Rattle.first_pass_grammar.specs.Leaves.{document};
ghost use Rattle.first_pass_grammar.specs.LinkTables.{LinkEntry, folded_cmp, with_links, link_under, IsInFoldedOrder};
ghost use Rattle.first_pass_grammar.specs.LinkTables.{with_labels, label_under};
ghost use Rattle.first_pass_grammar.specs.Names.{Names, read_nodes};
ghost use Rattle.first_pass_grammar.specs.WholeTables.{AreWholeTables};
ghost use Rattle.first_pass_items.specs.declared.item.AlignmentIndex.{AlignmentIndex};
ghost use Rattle.first_pass_items.specs.declared.item.Item.{Item};
ghost use Rattle.first_pass_items.specs.declared.item.ItemBody.TheVariants.{Table, TableHead};
ghost use Rattle.first_pass_items.specs.declared.option_set.Options.{Options};
ghost use Rattle.std.specs.List.Sorted.{IsStrictlySortedBy};
ghost use Rattle.std.specs.Prelude.{◌≡◌, ◌∷◌, [], ℕ, List};

/// Any two trees that are derived from a text under the same options are equal, read through their indices, and so are
/// their tables.
pub fn one_derivation()
    ensures forest { (text : List ℕ) (options : Options) (m n : Names) (f g : List (ℕ × Item)) (t u : Tables)
        → Derives (document text options m) f t → Derives (document text options n) g u → read_nodes m f
        ≡ read_nodes n g }
    ensures tables { (text : List ℕ) (options : Options) (m n : Names) (f g : List (ℕ × Item)) (t u : Tables)
        → Derives (document text options m) f t → Derives (document text options n) g u → t ≡ u }
{}

/// The table of a text's link reference definitions has, for each folding of a label, the first definition in the text
/// with that folding, if there is one. So the first of several matching definitions takes precedence (CommonMark 4.7).
/// The labels are in the byte order of their foldings, and no folding occurs twice.
pub fn law_of_links()
    ensures first { (folding : List ℕ) (definitions : List LinkEntry)
        → link_under folding (with_links [] definitions) ≡ link_under folding definitions }
    ensures order { (definitions : List LinkEntry) → IsInFoldedOrder (with_links [] definitions) }
{}

/// The table of a text's footnotes has, for each folding of a label, the label as its first definition in the text
/// spells it, if there is one. The labels are in the byte order of their foldings, and no folding occurs twice (this
/// project).
pub fn law_of_footnotes()
    ensures first { (folding : List ℕ) (labels : List (List ℕ))
        → label_under folding (with_labels [] labels) ≡ label_under folding labels }
    ensures order { (labels : List (List ℕ)) → IsStrictlySortedBy folded_cmp (with_labels [] labels) }
{}

/// In a derived tree each row of a table, including its header row, has as many cells as the table has columns. At most
/// 262,144 cells of a table are inserted: they start at the end of their row (GFM 4.10, and this project). No row is
/// outside a table, and no cell outside a row.
pub fn tables_are_whole()
    ensures { (text : List ℕ) (options : Options) (names : Names) (nodes : List (ℕ × Item)) (tables : Tables)
        → Derives (document text options names) nodes tables → AreWholeTables names nodes }
{}

/// Rows are below their table: a table is not whole if its header row is beside it, at its own depth (GFM 4.10).
pub fn rows_stand_inside()
    ensures { (names : Names) (depth : ℕ) (table row : Item) (index : AlignmentIndex) (more : List (ℕ × Item))
        → table.body ≡ Table index → row.body ≡ TableHead
        → AreWholeTables names ((depth, table) ∷ (depth, row) ∷ more) → ⊥ }
{}
