//! The law of ranges of names.

ghost use Rattle.first_pass_c.specs.declared.flat.nodes.FlatPlace.{FlatPlace};
ghost use Rattle.first_pass_c.specs.FlatNodes.{flat_node};
ghost use Rattle.first_pass_c.specs.Naming.{range_named};
ghost use Rattle.first_pass_grammar.specs.Names.{Names};
ghost use Rattle.first_pass_items.specs.declared.item.Item.{Item};
ghost use Rattle.first_pass_places.specs.NamePlaces.{name_range};
ghost use Rattle.std.specs.Prelude.{◌≡◌, ◌≤◌, ℕ, List, length};

/// The record of a node that is in a text has the same range of its name as the node.
pub fn records_have_the_ranges_of_names()
    ensures { (text : List ℕ) (names : Names) (at : FlatPlace) (n : ℕ × Item) (later : List (ℕ × Item))
        → n.1.start ≤ n.1.«end» → n.1.«end» ≤ length text
        → range_named text (flat_node names at n later) ≡ name_range text n.1 }
{}
