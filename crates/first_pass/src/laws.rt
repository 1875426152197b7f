//! Laws of the contents of an open paragraph, of the order and the nodes of a pass between two calls, and of dashes.

ghost use Rattle.first_pass.specs.Adding.{HasEndedBy, MayAddAt};
ghost use Rattle.first_pass.specs.Holds.{HoldsChain, HoldsText, HoldsTokens};
ghost use Rattle.first_pass.specs.Views.{with_tree};
ghost use Rattle.first_pass_grammar.specs.Counting.{counted_nodes, inserted_cells, is_row};
ghost use Rattle.first_pass_grammar.specs.Leaves.{Document, TextLines};
ghost use Rattle.first_pass_grammar.specs.Names.{Names};
ghost use Rattle.first_pass_grammar.specs.OpenOrder.{IsOrderedTo};
ghost use Rattle.first_pass_grammar.specs.Order.{is_task_marker, is_text_block};
ghost use Rattle.first_pass_grammar.specs.WholeTables.{HasWholeTables, ShowsNothing, may_be_title};
ghost use Rattle.first_pass_items.specs.declared.item.Item.{Item};
ghost use Rattle.first_pass_items.specs.declared.item.ItemBody.{ItemBody};
ghost use Rattle.first_pass_items.specs.declared.option_set.Options.{Options};
ghost use Rattle.first_pass_lines.specs.Places.{start_of};
ghost use Rattle.first_pass_lists.specs.Closing.{begun, is_item, is_list, top_body, with_block};
ghost use Rattle.first_pass_lists.specs.declared.state.PassState.{PassState};
ghost use Rattle.first_pass_open.specs.Between.{MarkerBetween, MarkerIsInItem};
ghost use Rattle.first_pass_open.specs.OpenBlock.{IsJustPushed};
ghost use Rattle.first_pass_order.specs.Ordered.{IsReadFrom, IsReadTo};
ghost use Rattle.first_pass_tables.specs.Appends.{IsOpenNode};
ghost use Rattle.first_pass_tokens.specs.NamedTexts.{dash_counts};
ghost use Rattle.first_pass_tree.specs.declared.tree_index.TreeIndex.{TreeIndex};
ghost use Rattle.first_pass_tree.specs.Forest.{appended, item_at, Forest, IsForest};
ghost use Rattle.std.specs.Prelude.{◌≡◌, ◌==◌, ◌≤◌, ◌+◌, ◌*◌, ◌%◌, ◌||◌, ℕ, false, length, true, IsCharBoundary, IsUtf8, List, Some};

/// The children of a paragraph whose lines were read are tokens, and the tree is in order up to the end of these
/// lines. So `parse_setext_heading` may be called, and keeps that order (CommonMark 4.3, 4.8).
pub fn lines_are_tokens()
    ensures { (d : Document) (f : Forest Item) (block : TreeIndex) (l : TextLines) → IsUtf8 d.text
        → HoldsText d f block l
        → HoldsTokens d.text f block × IsOrderedTo d.text f (start_of (length d.text) l.left) }
{}

/// A block is opened, and nothing in it is read yet. It is the innermost open node and the last one. A block can be
/// added there if it is no list and is not opened directly in one, or if it is an item. So an item can be opened after
/// `continue_list`. Whole tables stay whole if it is no part of a table, and no text that a definition list may take
/// in. If the block has text, it contains an empty chain, so its lines can be read one by one by `parse_line`. A block
/// can also be added, and the chain is empty, after the marker of a task list item is appended to a block with text in
/// that item (CommonMark 4.8, 5.2, GFM 5.3, and this project).
pub fn block_begins()
    ensures pushed { (start : ℕ) (body : ItemBody) (r : PassState)
        → IsJustPushed (begun start body r).tree (record { 0 = length r.tree.nodes })
        × IsOpenNode (begun start body r).tree }
    ensures innermost { (start : ℕ) (body : ItemBody) (r : PassState) → top_body (begun start body r).tree ≡ Some body }
    ensures may_add { (text : List ℕ) (r : PassState) (at start : ℕ) (body : ItemBody) → MayAddAt text r at
        → at ≤ start → IsCharBoundary text start → is_list (Some body) ≡ false
        → MayAddAt text (begun start body (with_block r r.tree)) start }
    ensures item { (text : List ℕ) (r : PassState) (at start : ℕ) (body : ItemBody) → IsReadTo text r at → at ≤ start
        → IsCharBoundary text start → is_item (Some body) ≡ true
        → MayAddAt text (begun start body (with_block r r.tree)) start }
    ensures whole { (names : Names) (start : ℕ) (body : ItemBody) (r : PassState) → ShowsNothing body
        → (is_row body || may_be_title body) ≡ false → HasWholeTables names r.tree
        → HasWholeTables names (begun start body r).tree }
    ensures chain { (text : List ℕ) (start : ℕ) (body : ItemBody) (r : PassState) → is_text_block body ≡ true
        → IsCharBoundary text start
        → HoldsChain text (begun start body r).tree (record { 0 = length r.tree.nodes }) start }
    ensures marked { (text : List ℕ) (r : PassState) (at from start : ℕ) (body : ItemBody) (marker : Item)
        → MayAddAt text r at → at ≤ from → MarkerIsInItem r.tree (Some marker)
        → MarkerBetween text from start (Some marker) → is_text_block body ≡ true → IsCharBoundary text start
        → let opened = begun start body (with_block r r.tree) in
        MayAddAt text (with_tree opened (appended opened.tree marker)) start
        × HoldsChain text (appended opened.tree marker) (record { 0 = length r.tree.nodes }) start }
{}

/// The open nodes can be closed at an offset that is not before the end of the last block, also if that is an HTML
/// block before a blank line (CommonMark 4.6, and this project).
pub fn ended_block_is_closable()
    ensures { (options : Options) (text : List ℕ) (r : PassState) (at : ℕ) (last : TreeIndex) (x : Item)
        → IsForest r.tree → IsReadFrom options text r at → r.tree.current ≡ Some last → item_at r.tree last ≡ Some x
        → is_task_marker x.body ≡ false → x.«end» ≤ at → IsReadTo text r at }
{}

/// What was read is in order up to each later offset, too, and the open nodes can be closed there. After an HTML block
/// before a blank line, that holds if the innermost open node starts at or before the offset, and its last child, if
/// it has one, ends there or before. So reading can continue at a later line or after a marker, and nodes can be closed
/// there (CommonMark 4.6, and this project).
pub fn reading_continues_later()
    ensures to { (text : List ℕ) (r : PassState) (from at : ℕ) → IsReadTo text r from → from ≤ at → at ≤ length text
        → IsReadTo text r at }
    ensures ended { (options : Options) (text : List ℕ) (r : PassState) (from at : ℕ) → IsForest r.tree
        → IsReadFrom options text r from → from ≤ at → at ≤ length text → HasEndedBy r.tree at → IsReadTo text r at }
{}

/// The nodes of a tree with whole tables are at most its counted nodes and its inserted cells together. By `node_bound`
/// of `parse_block` and other calls, the counted nodes beside the root are at most four for each byte that was read. So
/// are the nodes beside the root and the inserted cells (this project).
pub fn nodes_are_counted()
    ensures all { (names : Names) (f : Forest Item) → HasWholeTables names f
        → length f.nodes ≤ counted_nodes f.nodes + inserted_cells f.nodes }
    ensures bound { (names : Names) (f : Forest Item) (at : ℕ) → HasWholeTables names f
        → counted_nodes f.nodes ≤ 1 + 4 * at → length f.nodes ≤ 1 + 4 * at + inserted_cells f.nodes }
{}

/// Em and en dashes for a run of n hyphens stand for n hyphens: three for each em dash, and two for each en dash. If 3
/// divides n, there are only em dashes; if 2 does and 3 does not, only en dashes. If neither does, no fewer en dashes
/// do (this project).
pub fn law_of_dashes()
    ensures sum { (n : ℕ) → 2 ≤ n → 3 * (dash_counts n).0 + 2 * (dash_counts n).1 ≡ n }
    ensures threes { (n : ℕ) → (n % 3 == 0) ≡ true → (dash_counts n).1 ≡ 0 }
    ensures twos { (n : ℕ) → (n % 3 == 0) ≡ false → (n % 2 == 0) ≡ true → (dash_counts n).0 ≡ 0 }
    ensures fewest { (n em en : ℕ) → (n % 3 == 0) ≡ false → (n % 2 == 0) ≡ false → 3 * em + 2 * en ≡ n
        → (dash_counts n).1 ≤ en }
{}
