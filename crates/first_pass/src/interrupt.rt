//! Which lines interrupt a paragraph, as calls of the pass.

ghost use Rattle.first_pass.specs.Interrupts.{is_open_text, colon_interrupts};
ghost use Rattle.first_pass.specs.Results.{FindsInterrupt, FindsNextLine};
ghost use Rattle.first_pass_grammar.specs.Kinds.{interrupts_with};
ghost use Rattle.first_pass_items.specs.declared.option_set.Options.{Options};
ghost use Rattle.first_pass_links.specs.Footnotes.{footnote_head};
ghost use Rattle.first_pass_lists.specs.Closing.{top_body};
ghost use Rattle.first_pass_tree.specs.Forest.{in_table};
ghost use Rattle.std.specs.Prelude.{◌≡◌, is_some, ◌&&◌, ◌||◌, not, false, None, IfOk, IsOk};

use crate::state::FirstPass;
use bitflags::Flags;
use first_pass_blocks::definition::scan_next_line_or_lazy_continuation;
use first_pass_items::item::{Item, ItemBody};
use first_pass_items::option_set::Options;
use first_pass_kinds::interrupt::{interrupts_as_footnote, interrupts_by_standard};
use first_pass_kinds::table_start::interrupts_as_table;
use first_pass_lines::lines::begins;
use first_pass_open::front::is_definition_at_depth;
use first_pass_scan::line_start::LineStart;
use first_pass_tree::forest::Tree;
use std::alloc::{AllocError, Global};

/// Returns whether `text`, the rest of a line after an indentation under four columns, interrupts a paragraph. It does
/// at the end of its line, or if one of these begins: a thematic break, an ATX heading, a code fence, a block quote, a
/// list item, or an HTML block of types 1 to 6. Any item interrupts in a table, or if the line doesn't continue
/// all containers. Otherwise only a bullet or the number 1 does, and only if the rest after it isn't blank
/// (CommonMark 4.8, 4.1, 4.2, 4.5, 5.1, 5.2, 4.6; GFM 4.10).
///
/// With footnotes, the head of a footnote definition interrupts if its label has no line ending. With definition
/// lists, a `:` interrupts in two cases: the line continues all containers and the innermost node is a paragraph or a
/// possible title; or the first open node that the line doesn't continue, the one after the outermost `tree_position`,
/// is a definition (this project). Never fails, because it allocates nothing.
pub fn scan_paragraph_interrupt_no_table(
    _alloc: Global,
    text: &str,
    current_container: bool,
    has_footnote: bool,
    definition_list: bool,
    tree: &Tree<Item>,
    tree_position: usize,
) -> Result<bool, AllocError>
    ensures value { (options : Options) → IfOk result (λ yes. yes
        ≡ (interrupts_with (current_container && not (in_table tree.now.nodes tree.now.spine)) text.now
        || ((has_footnote && is_some (footnote_head (λ further. None) false text.now))
        || (definition_list
        && colon_interrupts options current_container tree.now tree_position text.now)))) }
    ensures ok { IsOk result }
{
    let whole = current_container && !tree.is_in_table();
    let bytes = text.as_bytes();
    Ok(
        interrupts_by_standard(bytes, whole)
            || interrupts_as_footnote(bytes, has_footnote)
            || definition_list
                && interrupts_as_colon(bytes, current_container, tree, tree_position),
    )
}

// Whether a `:` interrupts, in a line that continues the outermost `kept` open nodes. `whole` is true if these are
// all.
fn interrupts_as_colon(bytes: &[u8], whole: bool, tree: &Tree<Item>, kept: usize) -> bool
    ensures { (options : Options) → result ≡ colon_interrupts options whole tree.now kept bytes.now }
{
    begins(b':', bytes) && (whole && is_in_text(tree) || is_definition_at_depth(tree, kept))
}

// Whether the innermost open node is a paragraph, tight or not, or a possible title.
fn is_in_text(tree: &Tree<Item>) -> bool
    ensures { result ≡ is_open_text (top_body tree.now) }
{
    let Some(ix) = tree.peek_up() else {
        return false;
    };
    tree.recall_forest();
    matches!(
        tree[ix].body,
        ItemBody::Paragraph | ItemBody::TightParagraph | ItemBody::MaybeDefinitionListTitle
    )
}

impl<'a> FirstPass<'a> {
    /// Returns whether `text` interrupts a paragraph inside the open containers. `text` is the rest of the whole text,
    /// from after a line's indentation of under four columns. It interrupts as in `scan_paragraph_interrupt_no_table`
    /// (CommonMark 4.8), or if it begins with a pipe and its line is the header row of a table (GFM 4.10).
    /// `current_container` is true if the line continues all open containers, and `tree_position` is the number that
    /// it continues. Fails only if an allocation fails. That can happen only if such a table may begin.
    pub fn scan_paragraph_interrupt(
        &self,
        text: &str,
        current_container: bool,
        tree_position: usize,
    ) -> Result<bool, AllocError>
        ensures { FindsInterrupt self.now text.now current_container tree_position result }
    {
        if scan_paragraph_interrupt_no_table(
            self.pass.source.alloc,
            text,
            current_container,
            self.pass.source.options.contains(Options::ENABLE_FOOTNOTES),
            self.pass
                .source
                .options
                .contains(Options::ENABLE_DEFINITION_LIST),
            &self.pass.state.tree,
            tree_position,
        )? {
            return Ok(true);
        }
        interrupts_as_table(&self.pass.source, &self.pass.state.tree, text.as_bytes())
    }

    /// Returns the rest of the first line of `bytes` after its container prefixes and its indentation, if that line
    /// continues a run of link reference definitions. `bytes` is the rest of the text from the start of a line, which
    /// may continue any number of open containers. Returns `None` if the line ends the run: if it would be read like
    /// any other line after the tag of a block quote, or if the rest is blank (as at the end of the text). Changes
    /// nothing. Fails only if an allocation fails. That can happen only if the line may head a table (CommonMark 4.7,
    /// 4.8, 5.1).
    pub fn scan_next_line_or_lazy_continuation<'input>(
        &mut self,
        bytes: &'input [u8],
    ) -> Result<Option<LineStart<'input>>, AllocError>
        ensures { FindsNextLine self.old self.new bytes.now result }
    {
        let pass = &self.pass;
        scan_next_line_or_lazy_continuation(&pass.source, bytes, &pass.state.tree)
    }
}
