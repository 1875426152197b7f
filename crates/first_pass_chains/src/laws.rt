//! Laws of the chains of derived trees.

ghost use Rattle.first_pass_content.specs.Chains.{AreChains};
ghost use Rattle.first_pass_grammar.specs.Derivation.{Derives, Tables};
ghost use Rattle.first_pass_grammar.specs.Leaves.{document};
ghost use Rattle.first_pass_grammar.specs.Names.{Names};
ghost use Rattle.first_pass_items.specs.declared.item.Item.{Item};
ghost use Rattle.first_pass_items.specs.declared.option_set.Options.{Options};
ghost use Rattle.std.specs.Prelude.{ℕ, IsUtf8, List};

/// In a derived tree the tokens of each paragraph, heading, title and cell are in order, and each begins and ends at a
/// character. If a backslash was dropped before a token, it is directly before the token and in no earlier one.
pub fn chains_are_in_order()
    ensures { (text : List ℕ) (options : Options) (names : Names) (nodes : List (ℕ × Item)) (tables : Tables)
        → IsUtf8 text → Derives (document text options names) nodes tables → AreChains text nodes }
{}
