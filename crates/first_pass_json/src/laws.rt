//! A law of the lines.

ghost use Rattle.first_pass_grammar.specs.Derivation.{Tables};
ghost use Rattle.first_pass_grammar.specs.Names.{Names};
ghost use Rattle.first_pass_items.specs.declared.item.Item.{Item};
ghost use Rattle.first_pass_json.specs.JsonLines.{json_lines, lines_in};
ghost use Rattle.first_pass_json.specs.PlacedRanges.{placed_members};
ghost use Rattle.std.specs.Prelude.{◌≡◌, ℕ, List, None};

/// Without lines and texts of ranges, the lines of `JsonTreeWith` are those of `JsonTree`.
pub fn nothing_is_added()
    ensures { (names : Names) (nodes : List (ℕ × Item)) (tables : Tables)
        → lines_in (placed_members None None) names nodes tables ≡ json_lines names nodes tables }
{}
