//! Leaf blocks are added, each by its own method.

ghost use Rattle.first_pass.specs.Views.{source_text};
ghost use Rattle.first_pass_client.specs.Places.{MayAdd, MayRead};
ghost use Rattle.std.specs.Prelude.{◌+◌, ◌≤◌, IfOk, IsCharBoundary, MatchOption, OnOk};

use first_pass::below::{scan_atx_heading, scan_blank_line, scan_code_fence};
use first_pass::pass::{FirstPass, HtmlEnd};
use first_pass_lines::places::rest_of;
use std::alloc::AllocError;

/// Reads a thematic break of this many bytes.
pub fn read_rule(pass: &mut FirstPass<'_>, at: usize, size: usize) -> Result<usize, AllocError>
    requires place { MayAdd pass.old at }
    requires end { IsCharBoundary (source_text pass.old) (at + size) }
    ensures { IfOk result (λ next. MayAdd pass.new next) }
{
    let next = pass.parse_hrule(size, at)?;
    Ok(next)
}

/// Reads an ATX heading. Returns `None` if none begins at the offset.
pub fn read_heading(pass: &mut FirstPass<'_>, at: usize) -> Result<Option<usize>, AllocError>
    requires { MayAdd pass.old at }
    ensures { IfOk result (λ next. MatchOption next (MayAdd pass.new at) (λ n. MayAdd pass.new n)) }
{
    let Some(level) = scan_atx_heading(rest_of(pass.pass.source.text.as_bytes(), at)) else {
        return Ok(None);
    };
    let next = pass.parse_atx_heading(at, level)?;
    Ok(Some(next))
}

/// Reads an ATX heading, and then its attributes. Returns the offset after it, and whether it has attributes. Returns
/// `None` if none begins at the offset.
pub fn read_heading_attributes(
    pass: &mut FirstPass<'_>,
    at: usize,
) -> Result<Option<(usize, bool)>, AllocError>
    requires { MayAdd pass.old at }
    ensures { IfOk result (λ answer. MatchOption answer (MayAdd pass.new at) (λ found. MayAdd pass.new found.0)) }
{
    let Some(level) = scan_atx_heading(rest_of(pass.pass.source.text.as_bytes(), at)) else {
        return Ok(None);
    };
    let next = pass.parse_atx_heading(at, level)?;
    let (_end, attributes) = pass.extract_and_parse_heading_attribute_block(at, next)?;
    Ok(Some((next, attributes.is_some())))
}

/// Reads a paragraph, setext heading or table.
pub fn read_paragraph(pass: &mut FirstPass<'_>, at: usize) -> Result<usize, AllocError>
    requires { MayAdd pass.old at }
    ensures { IfOk result (λ next. MayAdd pass.new next) }
{
    let next = pass.parse_paragraph(at, None)?;
    Ok(next)
}

/// Reads fenced code. Returns `None` if no fence begins at the offset.
pub fn read_fenced_code(pass: &mut FirstPass<'_>, at: usize) -> Result<Option<usize>, AllocError>
    requires { MayAdd pass.old at }
    ensures { IfOk result (λ next. MatchOption next (MayAdd pass.new at) (λ n. MayAdd pass.new n)) }
{
    let Some((count, byte)) = scan_code_fence(rest_of(pass.pass.source.text.as_bytes(), at)) else {
        return Ok(None);
    };
    let next = pass.parse_fenced_code_block(at, 0, byte, count)?;
    Ok(Some(next))
}

/// Reads indented code whose content begins at an offset. Returns `None` if the line is blank.
pub fn read_indented_code(pass: &mut FirstPass<'_>, at: usize) -> Result<Option<usize>, AllocError>
    requires { MayAdd pass.old at }
    ensures { IfOk result (λ next. MatchOption next (MayAdd pass.new at) (λ n. MayAdd pass.new n)) }
{
    if scan_blank_line(rest_of(pass.pass.source.text.as_bytes(), at)).is_some() {
        return Ok(None);
    }
    let next = pass.parse_indented_code_block(at, 0)?;
    Ok(Some(next))
}

/// Reads a metadata block.
pub fn read_metadata(pass: &mut FirstPass<'_>, at: usize) -> Result<usize, AllocError>
    requires { MayAdd pass.old at }
    ensures { IfOk result (λ next. MayAdd pass.new next) }
{
    let next = pass.parse_metadata_block(at, b'+')?;
    Ok(next)
}

/// Reads an HTML block that ends with a line.
pub fn read_html(pass: &mut FirstPass<'_>, at: usize, end: HtmlEnd) -> Result<usize, AllocError>
    requires { MayAdd pass.old at }
    ensures { IfOk result (λ next. MayAdd pass.new next) }
{
    let next = pass.parse_html_block_type_1_to_5(at, end, 0, 0)?;
    Ok(next)
}

/// Reads an HTML block that ends before a blank line.
pub fn read_division(pass: &mut FirstPass<'_>, at: usize) -> Result<usize, AllocError>
    requires { MayAdd pass.old at }
    ensures { IfOk result (λ next. MayRead pass.new next) }
{
    let next = pass.parse_html_block_type_6_or_7(at, 0, 0)?;
    Ok(next)
}

/// Adds a line of code to the innermost open node.
pub fn add_code(pass: &mut FirstPass<'_>, at: usize, end: usize) -> Result<(), AllocError>
    requires place { MayAdd pass.old at }
    requires later { at ≤ end }
    requires end { IsCharBoundary (source_text pass.old) end }
    ensures { OnOk result (MayAdd pass.new end) }
{
    pass.append_code_text(0, at, end)?;
    Ok(())
}

/// Adds a line of HTML to the innermost open node.
pub fn add_html(pass: &mut FirstPass<'_>, at: usize, end: usize) -> Result<(), AllocError>
    requires place { MayAdd pass.old at }
    requires later { at ≤ end }
    requires end { IsCharBoundary (source_text pass.old) end }
    ensures { OnOk result (MayAdd pass.new end) }
{
    pass.append_html_line(0, at, end)?;
    Ok(())
}
