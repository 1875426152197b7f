//! Setext headings, and the attributes of a heading, as calls of the pass.

ghost use Rattle.first_pass.specs.Holds.{MakesHeading};
ghost use Rattle.first_pass.specs.Results.{FindsAttributes};
ghost use Rattle.first_pass.specs.Views.{source_text, tree_of};
ghost use Rattle.first_pass_tree.specs.Forest.{item_at};
ghost use Rattle.std.specs.Prelude.{◌≡◌, ◌≤◌, length, slice_get, Some, IfOk, IfSome};

use crate::state::{FirstPass, recall_utf8};
use first_pass_attributes::attrs::HeadingAttributes;
use first_pass_leaves::attributes::{self, Underlined};
use first_pass_lines::places::rest_of;
use first_pass_scan::leaf_scan::scan_setext_heading;
use first_pass_tree::tree_index::TreeIndex;
use std::alloc::AllocError;

impl<'a> FirstPass<'a> {
    /// Returns the end of the content of a heading, and its attributes. The heading's text extends from the offset
    /// `header_start` to `header_end`. With an attribute block, the content ends directly before the block, and
    /// includes white space before it. Without one, or if the options have no heading attributes, returns the text's
    /// end and `None`. If `header_end` is before `header_start`, the text is empty. The pass is unchanged. Fails only
    /// if there are several classes or keys and an allocation fails (this project).
    pub fn extract_and_parse_heading_attribute_block(
        &self,
        header_start: usize,
        header_end: usize,
    ) -> Result<(usize, Option<HeadingAttributes<'a>>), AllocError>
        requires from { header_start ≤ length (source_text self.now) }
        requires to { header_end ≤ length (source_text self.now) }
        ensures { FindsAttributes self.now header_start header_end result }
    {
        let answer = attributes::extract_and_parse_heading_attribute_block(
            &self.pass.source,
            header_start,
            header_end,
        )?;
        Ok(answer)
    }

    /// Makes the paragraph `node_ix` a heading if a setext heading underline begins at the offset `ix`. `node_ix` is
    /// the innermost open node and contains the chain of its lines. The attribute block is cut off the chain together
    /// with the white space before it, or from its brace on if a backslash breaks the last line
    /// (`has_trailing_content`). The heading stays open, and the break after its last line is not closed. Returns the
    /// offset after the line of the underline. Returns `None` and changes nothing if no underline begins at `ix`
    /// (CommonMark 4.3, and this project).
    ///
    /// No node is added. If the paragraph contains tokens, a tree in order stays in order. Fails only if an allocation
    /// fails.
    pub fn parse_setext_heading(
        &mut self,
        ix: usize,
        node_ix: TreeIndex,
        has_trailing_content: bool,
    ) -> Result<Option<usize>, AllocError>
        requires place { ix ≤ length (source_text self.old) }
        requires open { slice_get (tree_of self.old).spine 0 ≡ Some node_ix }
        requires start { IfSome (item_at (tree_of self.old) node_ix) (λ x. x.start ≤ length (source_text self.old)) }
        ensures { IfOk result (λ next.
            MakesHeading self.old self.new ix node_ix has_trailing_content next) }
    {
        let pass = &mut self.pass;
        pass.state.tree.recall_forest();
        recall_utf8(pass.source.text);
        let bytes = rest_of(pass.source.text.as_bytes(), ix);
        let Some((length, level)) = scan_setext_heading(bytes) else {
            return Ok(None);
        };
        let underlined = Underlined {
            level,
            broken: has_trailing_content,
        };
        attributes::make_heading(
            &pass.source,
            &mut pass.state.tree,
            &mut pass.allocs,
            node_ix,
            underlined,
        )?;
        Ok(Some(ix + length))
    }
}
