//! Lists, definition lists and their items, as calls of the pass: how they continue, become loose and are closed
//! (CommonMark 5.2, 5.3).

ghost use Rattle.first_pass.specs.Calls.{ClosesLists, ClosesNode, FinishesItem, RemembersAt};
ghost use Rattle.first_pass.specs.Views.{state_of, tree_of};
ghost use Rattle.first_pass_lists.specs.Closing.{popped, list_finished, list_continued};
ghost use Rattle.std.specs.Prelude.{IsSome, slice_get, OnOk};

use crate::state::FirstPass;
use std::alloc::AllocError;

impl<'a> FirstPass<'a> {
    /// Closes the innermost open node at the offset `ix`. A node other than the root must be open. The paragraphs of a
    /// list become tight, unless the list is loose (CommonMark 5.3). If the last child of a definition list is a
    /// possible title, the list ends with its last definition, and that title becomes a paragraph after it (this
    /// project).
    pub fn pop(&mut self, ix: usize)
        requires { IsSome (slice_get (tree_of self.old).spine 0) }
        ensures { ClosesNode self.old self.new ix (popped ix (state_of self.old)) }
    {
        let pass = &mut self.pass;
        pass.state.tree.recall_forest();
        pass.state.pop(ix);
    }

    /// Closes the innermost open node, if it is an item or a definition that began with two blank lines. It then ends
    /// where its marker's line ends (CommonMark 5.2, and this project). Afterwards the state records no empty item.
    pub fn finish_empty_list_item(&mut self)
        ensures { FinishesItem self.old self.new }
    {
        let pass = &mut self.pass;
        pass.state.finish_empty_list_item();
    }

    /// Closes what a new block ends: first an empty item, if a counting blank line precedes the block. Then, if the
    /// innermost open node is a list, closes it at the offset `ix`. A definition list whose last child is a possible
    /// title ends with its last definition. If a counting blank line precedes the block, the list whose item contains
    /// the block becomes loose.
    pub fn finish_list(&mut self, ix: usize)
        ensures { ClosesLists self.old self.new ix (list_finished ix (state_of self.old)) }
    {
        let pass = &mut self.pass;
        pass.state.tree.recall_forest();
        pass.state.finish_list(ix);
    }

    /// Continues the innermost list if its byte is `ch`; a counting blank line before makes it loose. Otherwise opens a
    /// list with that byte and the number `index` at the offset `start`.
    pub fn continue_list(&mut self, start: usize, ch: u8, index: u64) -> Result<(), AllocError>
        ensures { OnOk result
            (RemembersAt self.old self.new start (list_continued start ch index (state_of self.old))) }
    {
        let pass = &mut self.pass;
        pass.state.tree.recall_forest();
        pass.state.continue_list(start, ch, index)?;
        Ok(())
    }
}
