//! The names of the lower crates: options, items and texts, the tree, and the scanners.

pub use first_pass_entities::entity::scan_entity;
pub use first_pass_html::ends::HtmlEnd;
pub use first_pass_html::starts::{get_html_end_tag, starts_html_block_type_6};
pub use first_pass_html::tags::scan_html_type_7;
pub use first_pass_items::cow_str::{CowStr, InlineStr};
pub use first_pass_items::item::{
    Alignment, AlignmentIndex, BlockQuoteKind, CowIndex, HeadingIndex, HeadingLevel, Item,
    ItemBody, ListFlags, MetadataBlockKind,
};
pub use first_pass_items::option_set::Options;
pub use first_pass_lines::lines::{
    level_number, scan_atx_heading, scan_blank_line, scan_eol, scan_nextline, scan_whitespace_no_nl,
};
pub use first_pass_lines::places::{law_of_lines, next_line, rest_of};
pub use first_pass_links::destination::scan_link_dest;
pub use first_pass_links::escape::unescape;
pub use first_pass_links::label::scan_link_label_rest;
pub use first_pass_scan::leaf_scan::{
    calc_indent, scan_closing_code_fence, scan_code_fence, scan_hrule, scan_setext_heading,
};
pub use first_pass_scan::line_start::{LineStart, scan_listitem};
pub use first_pass_scan::metadata_scan::{scan_closing_metadata_block, scan_metadata_block};
pub use first_pass_scan::table_scan::{count_header_cols, scan_table_head};
pub use first_pass_tree::forest::Tree;
pub use first_pass_tree::tree_index::TreeIndex;
pub use first_pass_walk::flank::is_punctuation;
