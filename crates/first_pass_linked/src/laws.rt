//! Laws of the lines of nodes.

ghost use Rattle.first_pass_items.specs.declared.item.Item.{Item};
ghost use Rattle.first_pass_linked.specs.LinkLines.{AreNodeLines, Source};
ghost use Rattle.std.specs.Prelude.{◌≡◌, ℕ, List};

/// Nodes have lines, whatever their tokens are.
pub fn nodes_have_lines()
    ensures { (s : Source) (nodes : List (ℕ × Item)) → (lines : List ℕ) × AreNodeLines s nodes lines }
{}

/// Nodes have only one list of lines.
pub fn one_list_of_lines()
    ensures { (s : Source) (nodes : List (ℕ × Item)) (lines others : List ℕ) → AreNodeLines s nodes lines
        → AreNodeLines s nodes others → lines ≡ others }
{}
