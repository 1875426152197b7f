//! Texts in a table, with a bar before each line, and the headings between them.

use crate::pictures::read_shown;
use std::alloc::{AllocError, Global};

/// Returns the text of lines with bars, joined by newlines, or `None` if one has no bar.
pub fn read_text(alloc: Global, lines: &str) -> Result<Option<String>, AllocError> {
    let mut text = String::new(alloc);
    let mut is_first = true;
    for line in lines.split('\n') {
        let Some(shown) = line.strip_prefix('|') else {
            return Ok(None);
        };
        if !is_first {
            text.push('\n')?;
        }
        text.push_str(read_shown(alloc, shown)?.as_str())?;
        is_first = false;
    }
    Ok(Some(text))
}

/// Returns whether all lines of a group begin with a number sign.
pub fn is_heading(group: &str) -> bool {
    for line in group.lines() {
        if !line.starts_with('#') {
            return false;
        }
    }
    true
}
