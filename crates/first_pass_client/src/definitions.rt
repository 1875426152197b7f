//! Link reference definitions are read, all at once or part by part.

ghost use Rattle.first_pass_client.specs.Places.{MayAdd};
ghost use Rattle.std.specs.Prelude.{IfOk, IfSome, MatchOption};

use first_pass::pass::FirstPass;
use first_pass_lines::lines::begins;
use first_pass_lines::places::rest_of;
use std::alloc::AllocError;

/// Reads the definition that begins at an offset. Returns the offset after it, or `None` if none begins there.
pub fn read_definition(pass: &mut FirstPass<'_>, at: usize) -> Result<Option<usize>, AllocError>
    requires { MayAdd pass.old at }
    ensures { IfOk result (λ next. MatchOption next (MayAdd pass.new at) (λ n. MayAdd pass.new n)) }
{
    pass.pass.source.recall_length();
    let Some((size, _label, _link)) = pass.parse_refdef_total(at)? else {
        return Ok(None);
    };
    Ok(Some(at + size))
}

/// Returns whether a line at an offset continues a run of definitions.
pub fn continues(pass: &mut FirstPass<'_>, at: usize) -> Result<bool, AllocError>
    requires { MayAdd pass.old at }
    ensures { IfOk result (λ yes. MayAdd pass.new at) }
{
    let text = pass.pass.source.text;
    let rest = pass.scan_next_line_or_lazy_continuation(rest_of(text.as_bytes(), at))?;
    Ok(rest.is_some())
}

/// Reads the label and the colon of a definition whose bracket is at an offset. Returns the offset after the colon, or
/// `None` if there are none.
pub fn read_label(pass: &FirstPass<'_>, at: usize) -> Result<Option<usize>, AllocError>
    requires { MayAdd pass.now at }
    ensures { IfOk result (λ next. IfSome next (λ n. MayAdd pass.now n)) }
{
    pass.pass.source.recall_length();
    let Some(start) = skip_byte(pass, b'[', at) else {
        return Ok(None);
    };
    let Some((size, _label)) = pass.parse_refdef_label(start)? else {
        return Ok(None);
    };
    Ok(skip_byte(pass, b':', start + size))
}

// Returns the offset after a byte, if the byte is at an offset.
fn skip_byte(pass: &FirstPass<'_>, byte: u8, at: usize) -> Option<usize>
    requires { MayAdd pass.now at }
    ensures { IfSome result (λ next. MayAdd pass.now next) }
{
    let text = pass.pass.source.text;
    if begins(byte, rest_of(text.as_bytes(), at)) && text.is_char_boundary(at + 1) {
        return Some(at + 1);
    }
    None
}

/// Reads the white space of a definition. Returns the offset after it, or `None` if the definition does not continue.
pub fn read_space(pass: &FirstPass<'_>, at: usize) -> Result<Option<usize>, AllocError>
    requires { MayAdd pass.now at }
    ensures { IfOk result (λ next. IfSome next (λ n. MayAdd pass.now n)) }
{
    let text = pass.pass.source.text;
    let Some((end, _line_endings)) = pass.scan_refdef_space(text.as_bytes(), at)? else {
        return Ok(None);
    };
    Ok(Some(end))
}

/// Reads what follows the colon of a definition that begins at `from`. Returns the start of its title, which is the
/// definition's end if it has none. Returns `None` if there is no destination.
pub fn read_target(
    pass: &FirstPass<'_>,
    from: usize,
    at: usize,
) -> Result<Option<usize>, AllocError>
    requires { MayAdd pass.now at }
    ensures { IfOk result (λ next. IfSome next (λ n. MayAdd pass.now n)) }
{
    let Some((_size, link)) = pass.scan_refdef(from, at)? else {
        return Ok(None);
    };
    Ok(Some(link.places.title_start))
}

/// Reads the title at an offset. Returns the offset after it, or `None` if there is none.
pub fn read_title(pass: &FirstPass<'_>, at: usize) -> Result<Option<usize>, AllocError>
    requires { MayAdd pass.now at }
    ensures { IfOk result (λ next. IfSome next (λ n. MayAdd pass.now n)) }
{
    pass.pass.source.recall_length();
    let text = pass.pass.source.text;
    let Some((size, _title)) = pass.scan_refdef_title(&text[at..])? else {
        return Ok(None);
    };
    Ok(Some(at + size))
}

/// Reads a definition that begins at an offset and has a title, part by part. Returns the offset after the title, or
/// `None` if a part is missing.
pub fn read_parts(pass: &FirstPass<'_>, at: usize) -> Result<Option<usize>, AllocError>
    requires { MayAdd pass.now at }
    ensures { IfOk result (λ next. IfSome next (λ n. MayAdd pass.now n)) }
{
    let Some(colon) = read_label(pass, at)? else {
        return Ok(None);
    };
    let Some(_dest) = read_space(pass, colon)? else {
        return Ok(None);
    };
    let Some(title) = read_target(pass, at, colon)? else {
        return Ok(None);
    };
    read_title(pass, title)
}
