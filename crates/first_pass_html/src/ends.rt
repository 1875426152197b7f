//! The end conditions of HTML blocks of types 1 to 5.

ghost use Rattle.first_pass_html.specs.Ends as ends;
ghost use Rattle.first_pass_items.specs.Bytes.{less_than};
ghost use Rattle.std.specs.Prelude.{◌≡◌, ◌∷◌};

use crate::names::begins_with_name;
use first_pass_lines::places::rest_of;
use memchr::memchr;

/// The end condition of an HTML block of types 1 to 5. The line that contains it is the last of the block
/// (CommonMark 4.6).
#[derive(Clone, Copy)]
pub enum HtmlEnd {
    /// Any of `</pre>`, `</script>`, `</style>` and `</textarea>`, in any case: type 1.
    AnyRawTag,
    /// This text, one of `-->`, `?>`, `>` and `]]>`: types 2 to 5.
    Text(&'static str),
}

/// Returns whether `bytes` contain `</pre>`, `</script>`, `</style>` or `</textarea>`, in any case. CommonMark 4.6,
/// end condition 1.
pub fn holds_raw_end_tag(bytes: &[u8]) -> bool
    ensures { result ≡ ends.holds_raw_end_tag bytes.now }
{
    let mut from = 0;
    while let Some(before) = memchr(b'<', rest_of(bytes, from)) {
        from += before + 1;
        if ends_raw_text(rest_of(bytes, from)) {
            return true;
        }
    }
    false
}

// Whether `bytes`, which follow a `<`, begin with the rest of an end tag of raw text.
#[tactic(auto, unfolding(crate::specs::Ends::begins_raw_end_tag))]
fn ends_raw_text(bytes: &[u8]) -> bool
    ensures { result ≡ ends.begins_raw_end_tag (less_than ∷ bytes.now) }
{
    match bytes {
        [b'/', name @ ..] => {
            begins_with_name(name, b"pre>")
                || begins_with_name(name, b"script>")
                || begins_with_name(name, b"style>")
                || begins_with_name(name, b"textarea>")
        }
        _ => false,
    }
}
