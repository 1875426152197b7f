//! A text right after a definition, which may be the next title of the definition list.

ghost use Rattle.first_pass_blocks.specs.Titles.{ReadsTitle};
ghost use Rattle.first_pass_blocks.specs.Views.{front_of, source_text, tree_of};
ghost use Rattle.first_pass_containers.specs.Titles.{current_end, is_paragraph_last};
ghost use Rattle.first_pass_lists.specs.Closing.{is_after_definition};
ghost use Rattle.std.specs.Prelude.{◌≡◌, true, false, IfOk, OnOk, IsCharBoundary};

use crate::state::BlockPass;
use first_pass_items::item::{Item, ItemBody};
use first_pass_tree::forest::Tree;
use std::alloc::AllocError;

// The end of the current node; 0 if there is none.
fn current_end(tree: &Tree<Item>) -> usize
    ensures { result ≡ current_end tree.now }
{
    let Some(ix) = tree.cur() else {
        return 0;
    };
    tree.recall_forest();
    tree[ix].end
}

// Whether the current node is a paragraph.
fn is_paragraph_last(tree: &Tree<Item>) -> bool
    ensures { result ≡ is_paragraph_last tree.now }
{
    let Some(ix) = tree.cur() else {
        return false;
    };
    tree.recall_forest();
    matches!(tree[ix].body, ItemBody::Paragraph)
}

impl<'a> BlockPass<'a> {
    /// Reads the paragraph, heading or table that begins at the offset `text`, right after a definition. Returns the
    /// start of the next unread line, or the end of the text. A paragraph may be the next title of the definition
    /// list; a heading or a table ends the list where its last definition ends. No front is known afterwards (this
    /// project).
    pub(crate) fn parse_possible_title(&mut self, text: usize) -> Result<usize, AllocError>
        requires boundary { IsCharBoundary (source_text self.old) text }
        requires after { is_after_definition (tree_of self.old) ≡ true }
        ensures title { IfOk result (λ next. ReadsTitle self.old self.new text next) }
        ensures front { OnOk result ((front_of self.new).is_known ≡ false) }
    {
        let end = current_end(&self.state.tree);
        let next = self.parse_text(text, &None)?;
        // The calls below change the tree, so no front is kept.
        self.next_front.is_known = false;
        self.state.tree.recall_forest();
        if is_paragraph_last(&self.state.tree) {
            self.state.begin_title(end);
        } else {
            self.state.leave_definitions(end);
        }
        Ok(next)
    }
}
