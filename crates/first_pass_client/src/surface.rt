//! Every public name of the two library crates, by the module that exports it. A missing name is a compiler error.

pub use first_pass::attrs::{
    ShortList, extract_attribute_block_content_from_header_text, parse_inside_attribute_block,
};
pub use first_pass::below::{
    Alignment, AlignmentIndex, BlockQuoteKind, CowIndex, CowStr, HeadingIndex, HeadingLevel, Item,
    ItemBody, LineStart, ListFlags, MetadataBlockKind, Options, Tree, TreeIndex, calc_indent,
    is_punctuation, scan_atx_heading, scan_blank_line, scan_closing_code_fence,
    scan_closing_metadata_block, scan_code_fence, scan_entity, scan_eol, scan_hrule,
    scan_html_type_7, scan_link_dest, scan_link_label_rest, scan_listitem, scan_metadata_block,
    scan_nextline, scan_setext_heading, scan_table_head, starts_html_block_type_6, unescape,
};
pub use first_pass::containers::scan_containers;
pub use first_pass::flank::{TableParseMode, delim_run_can_close, delim_run_can_open};
pub use first_pass::items::{
    Allocations, FootDefs, FootnoteDef, HeadingAttributes, LabelKey, LinkDef, RefDefs,
};
pub use first_pass::pass::{
    BlockPass, BraceContexts, FirstPass, HtmlEnd, PassState, Source, count_header_cols,
    fixup_end_of_definition_list, get_html_end_tag, run_first_pass,
    scan_paragraph_interrupt_no_table, surgerize_tight_list,
};
pub use first_pass::walk::{LoopInstruction, iterate_special_bytes, next_special, special_bytes};

/// The names that a program needs first, which the root of `first_pass` exports.
pub mod root {
    pub use first_pass::{Item, ItemBody, Options, Tree, run_first_pass};
}

/// Some names of the lower crate, by its own modules; `first_pass` re-exports these modules.
pub mod lower {
    pub use first_pass_below::below::{CowStr, LineStart, Options, Tree, unescape};
    pub use first_pass_below::flank::{TableParseMode, delim_run_can_close, delim_run_can_open};
    pub use first_pass_below::walk::{
        LoopInstruction, iterate_special_bytes, next_special, special_bytes,
    };
}
