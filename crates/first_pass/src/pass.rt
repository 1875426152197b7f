//! The block pass as a value: it reads a text block by block.

ghost use Rattle.first_pass.specs.Calls.{ReadsBlockAt, StartsPass};
ghost use Rattle.first_pass.specs.Views.{source_text};
ghost use Rattle.std.specs.Prelude.{◌<◌, length, IfOk, IsCharBoundary};

pub use crate::interrupt::scan_paragraph_interrupt_no_table;
pub use crate::state::FirstPass;
pub use first_pass_below::below::{HtmlEnd, count_header_cols, get_html_end_tag};
pub use first_pass_blocks::pass::run_first_pass;
pub use first_pass_blocks::state::BlockPass;
use first_pass_items::option_set::Options;
pub use first_pass_lists::state::PassState;
pub use first_pass_lists::titles::fixup_end_of_definition_list;
pub use first_pass_open::source::Source;
pub use first_pass_tokens::braces::BraceContexts;
pub use first_pass_tree::tight::surgerize_tight_list;
use std::alloc::{AllocError, Global};

impl<'a> FirstPass<'a> {
    /// Returns a pass over `text` that has read nothing yet. No brace context is open. Fails only if an allocation
    /// fails.
    pub fn new(alloc: Global, text: &'a str, options: Options) -> Result<FirstPass<'a>, AllocError>
        ensures { IfOk result (λ pass. StartsPass text.now options pass) }
    {
        let pass = BlockPass::new(alloc, text, options)?;
        pass.state.tree.recall_forest();
        Ok(FirstPass {
            pass,
            braces: BraceContexts::new(),
        })
    }

    /// Reads the block that begins in the line at the offset `start_ix`, which is before the end of the text. Returns
    /// the start of the next unread line, or the end of the text. The conditions are those of
    /// `BlockPass::parse_block`; the brace contexts are unchanged.
    pub fn parse_block(&mut self, start_ix: usize) -> Result<usize, AllocError>
        requires within { start_ix < length (source_text self.old) }
        requires boundary { IsCharBoundary (source_text self.old) start_ix }
        ensures { IfOk result (λ next. ReadsBlockAt self.old self.new start_ix next) }
    {
        let next = self.pass.parse_block(start_ix)?;
        Ok(next)
    }
}
