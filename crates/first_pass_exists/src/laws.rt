//! Laws: what exists for every text.

ghost use Rattle.first_pass_grammar.specs.Completion.{Unfinished, Frame, containers_of, Completes, CanGoOn, Completion};
ghost use Rattle.first_pass_grammar.specs.Derivation.{Derives, Tables};
ghost use Rattle.first_pass_grammar.specs.Leaves.{Document, document};
ghost use Rattle.first_pass_grammar.specs.Names.{Names, Extends};
ghost use Rattle.first_pass_grammar.specs.Skeleton.{Continues};
ghost use Rattle.first_pass_items.specs.declared.item.Item.{Item};
ghost use Rattle.first_pass_items.specs.declared.option_set.Options.{Options};
ghost use Rattle.first_pass_lines.specs.Places.{Place};
ghost use Rattle.std.specs.Prelude.{◌≡◌, ℕ, List, length};

/// Every text has a derived tree under each set of options, since any sequence of characters is a document (CommonMark
/// 2.1). The tree's indices have names that extend any given names.
pub fn every_text_derives()
    ensures { (text : List ℕ) (options : Options) (names : Names)
        → (more : Names) × (forest : List (ℕ × Item)) × (tables : Tables) × Extends more names
        × Derives (document text options more) forest tables }
{}

/// Open nodes can always be completed, whichever lines are left, and wherever in the text blocks continue. Each open
/// container takes further blocks, up to a line that does not continue it (CommonMark 5). A footnote definition takes
/// blocks up to its end. With these blocks the state becomes a forest. `frames` are the open containers and lists, and
/// `places` those of their nodes, both innermost first. Only in a container may `from` require blank lines.
pub fn always_a_completion()
    ensures { (d : Document) (frames : List Frame) (places : List ℕ) (w : Unfinished) (from : Continues)
        (lines : List Place) → length frames ≡ length places → CanGoOn (containers_of frames) from
        → Completion d frames places w from lines }
{}

/// If the text derives the forest of every completion of the open nodes, then there is a completion whose forest the
/// text derives. The condition is for the present names and all that extend them.
pub fn some_completion_derives()
    ensures { (d : Document) (frames : List Frame) (places : List ℕ) (w : Unfinished) (from : Continues)
        (lines : List Place) → length frames ≡ length places → CanGoOn (containers_of frames) from
        → ((more : Names) → Extends more d.names
        → Completes (document d.text d.options more) frames places w from lines)
        → (c : Completion d frames places w from lines)
        × Derives (document d.text d.options c.names) c.forest c.tables }
{}
