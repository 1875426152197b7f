//! The start conditions of HTML blocks of types 1 to 6.

ghost use Rattle.first_pass_html.specs.Ends.{condition_of};
ghost use Rattle.first_pass_html.specs.Names.{in_lower_case};
ghost use Rattle.first_pass_html.specs.Starts as starts;
ghost use Rattle.first_pass_items.specs.Bytes.{exclamation_mark};
ghost use Rattle.std.specs.Option.{option_map};
ghost use Rattle.std.specs.Prelude.{◌≡◌, ◌↔◌, IsTrue, ◌∷◌, bytes_eq};

use crate::ends::HtmlEnd;
use crate::names::{begins_with_name, block_name_len};
use first_pass_lines::lines::is_white_or_line_end;
use first_pass_lines::places::rest_of;

/// Returns the end condition of the HTML block of types 1 to 5 whose `<` directly precedes `bytes`. For `<pre`,
/// `<script`, `<style` and `<textarea` it is any end tag of raw text; otherwise it is the text `-->`, `?>`, `]]>` or
/// `>`. Returns `None` if no block of these kinds begins there. CommonMark 4.6.
pub fn get_html_end_tag(bytes: &[u8]) -> Option<HtmlEnd>
    ensures value { option_map condition_of result ≡ starts.html_end bytes.now }
{
    let [first, rest @ ..] = bytes else {
        return None;
    };
    match *first {
        b'!' => declaration_end(rest),
        b'?' => Some(HtmlEnd::Text("?>")),
        _ if begins_raw_text(bytes) => Some(HtmlEnd::AnyRawTag),
        _ => None,
    }
}

/// Returns whether an HTML block of the sixth kind begins with the `<` directly before `bytes`. The `<` is followed
/// by an optional slash and the name of a block, in any case. Then white space, `>`, `/>`, or the end of the line or
/// of the text follows. CommonMark 4.6.
pub fn starts_html_block_type_6(bytes: &[u8]) -> bool
    ensures value { IsTrue result ↔ starts.HasBlockName (starts.past_slash bytes.now) }
    ensures begins { result ≡ starts.begins_block_tag bytes.now }
{
    match bytes {
        [b'/', rest @ ..] => begins_block_name(rest),
        _ => begins_block_name(bytes),
    }
}

/// Returns whether `name` is a name of raw text, in any case: pre, script, style or textarea. CommonMark 4.6.
#[tactic(auto, unfolding(crate::specs::Starts::is_raw_name))]
pub fn is_raw_name(name: &[u8]) -> bool
    ensures value { result ≡ starts.is_raw_name name.now }
{
    is_name(name, b"pre")
        || is_name(name, b"script")
        || is_name(name, b"style")
        || is_name(name, b"textarea")
}

// The end condition of the comment, CDATA section or declaration whose `<!` directly precedes the bytes.
#[tactic(auto, unfolding(crate::specs::Starts::html_end, crate::specs::Starts::begins_raw_text))]
fn declaration_end(bytes: &[u8]) -> Option<HtmlEnd>
    ensures { option_map condition_of result ≡ starts.html_end (exclamation_mark ∷ bytes.now) }
{
    if bytes.starts_with(b"--") {
        Some(HtmlEnd::Text("-->"))
    } else if bytes.starts_with(b"[CDATA[") {
        Some(HtmlEnd::Text("]]>"))
    } else if begins_letter(bytes) {
        Some(HtmlEnd::Text(">"))
    } else {
        None
    }
}

// Whether the first byte is an ASCII letter.
fn begins_letter(bytes: &[u8]) -> bool
    ensures { result ≡ starts.begins_letter bytes.now }
{
    match bytes {
        [] => false,
        [letter, ..] => letter.is_ascii_alphabetic(),
    }
}

// Whether raw text begins here: pre, script, style or textarea in any case, and then the end of the name. The first
// letter rules out most other names.
fn begins_raw_text(bytes: &[u8]) -> bool
    ensures { result ≡ starts.begins_raw_text bytes.now }
{
    let [letter, ..] = bytes else {
        return false;
    };
    match letter.to_ascii_lowercase() {
        b'p' => begins_raw(bytes, b"pre"),
        b's' => begins_raw(bytes, b"script") || begins_raw(bytes, b"style"),
        b't' => begins_raw(bytes, b"textarea"),
        _ => false,
    }
}

// Whether the bytes begin with this name of raw text, in any case, and then the end of the name.
fn begins_raw(bytes: &[u8], name: &[u8]) -> bool
    ensures { result ≡ starts.begins_raw name.now bytes.now }
{
    begins_with_name(bytes, name) && ends_raw_name(rest_of(bytes, name.len()))
}

// Whether a name of raw text ends before these bytes.
fn ends_raw_name(bytes: &[u8]) -> bool
    ensures { result ≡ starts.ends_raw_name bytes.now }
{
    match bytes {
        [] => true,
        [byte, ..] => is_white_or_line_end(*byte) || *byte == b'>',
    }
}

// Whether the bytes begin with the name of a block, and then the end of the name.
fn begins_block_name(bytes: &[u8]) -> bool
    ensures value { IsTrue result ↔ starts.HasBlockName bytes.now }
    ensures begins { result ≡ starts.begins_block_name bytes.now }
{
    let len = block_name_len(bytes);
    len > 0 && ends_block_name(rest_of(bytes, len))
}

// Whether the name of a block ends before these bytes.
fn ends_block_name(bytes: &[u8]) -> bool
    ensures { result ≡ starts.ends_block_name bytes.now }
{
    match bytes {
        [b'/', b'>', ..] => true,
        _ => ends_raw_name(bytes),
    }
}

// Whether the bytes are the name, in any case.
fn is_name(bytes: &[u8], name: &[u8]) -> bool
    ensures { result ≡ bytes_eq (in_lower_case bytes.now) (in_lower_case name.now) }
{
    bytes.eq_ignore_ascii_case(name)
}
