//! Laws of the state of the pass between two blocks.

ghost use Rattle.first_pass_containers.specs.Completed.{IsCompleted};
ghost use Rattle.first_pass_grammar.specs.Completion.{lines_from};
ghost use Rattle.first_pass_grammar.specs.Derivation.{Tables};
ghost use Rattle.first_pass_grammar.specs.Leaves.{Document};
ghost use Rattle.first_pass_grammar.specs.Names.{AreNamed};
ghost use Rattle.first_pass_grammar.specs.WholeTables.{AreWholeTables};
ghost use Rattle.first_pass_lines.specs.Places.{Place};
ghost use Rattle.first_pass_lists.specs.declared.state.PassState.{PassState};
ghost use Rattle.first_pass_ready.specs.State.{StaysReady};
ghost use Rattle.std.specs.Prelude.{List, ℕ};

/// A ready state can be completed. Suppose that the state begins a derivation of the text that continues with these
/// lines and has these definitions so far, under the present names and all that extend them. Then some blocks complete
/// its open containers, and its nodes become a tree that the text derives.
pub fn ready_is_completed()
    ensures { (d : Document) (defined : Tables) (r : PassState) (lines : List Place)
        → StaysReady d defined r lines → IsCompleted d defined r lines }
{}

/// A ready state already has whole tables. Suppose that the state begins a derivation of the text that continues at an
/// offset. Suppose that it does so under the present names and all that extend them, and that each index in its nodes
/// names an entry. Then rows and cells are only in tables, each row has as many cells as its table has columns, and a
/// table has at most 262,144 inserted cells.
pub fn ready_is_whole()
    ensures { (d : Document) (defined : Tables) (r : PassState) (start : ℕ)
        → StaysReady d defined r (lines_from d.text start) → AreNamed d.names r.tree.nodes
        → AreWholeTables d.names r.tree.nodes }
{}
