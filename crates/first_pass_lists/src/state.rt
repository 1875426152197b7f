//! The state of the pass after the lines that it has read.

use first_pass_items::item::Item;
use first_pass_tree::forest::Tree;

/// The state of the pass between two lines, and between two containers that begin in one line.
#[derive(Drop)]
pub struct PassState {
    /// The tree so far. The current node, if any, is the last child of the innermost open node.
    pub tree: Tree<Item>,
    /// `Some` if the innermost item or definition is empty so far: only blank lines follow its marker, or the task
    /// list item marker after that. The value is the end of the marker's line, which is the start of the next line.
    pub begin_list_item: Option<usize>,
    /// Whether a counting blank line is directly before what is read next.
    pub blank: bool,
}
