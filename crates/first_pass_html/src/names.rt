//! The names of tags that begin HTML blocks.

ghost use Rattle.first_pass_html.specs.Names as names;
ghost use Rattle.first_pass_html.specs.Names.{borrowed_bytes};
ghost use Rattle.std.specs.Prelude.{◌≡◌, ◌↔◌, IsTrue, map};

// The tag names of start condition 6 of HTML blocks, by their first letter (CommonMark 4.6). A name comes before its
// own prefixes, so the first name that matches is the longest.
static WITH_A: [&str; 3] = ["address", "article", "aside"];

static WITH_B: [&str; 4] = ["basefont", "base", "blockquote", "body"];

static WITH_C: [&str; 4] = ["caption", "center", "colgroup", "col"];

static WITH_D: [&str; 7] = ["dd", "details", "dialog", "dir", "div", "dl", "dt"];

static WITH_F: [&str; 7] = [
    "fieldset",
    "figcaption",
    "figure",
    "footer",
    "form",
    "frameset",
    "frame",
];

static WITH_H: [&str; 10] = [
    "h1", "h2", "h3", "h4", "h5", "h6", "header", "head", "hr", "html",
];

static WITH_I: [&str; 1] = ["iframe"];

static WITH_L: [&str; 3] = ["legend", "link", "li"];

static WITH_M: [&str; 3] = ["main", "menuitem", "menu"];

static WITH_N: [&str; 2] = ["nav", "noframes"];

static WITH_O: [&str; 3] = ["ol", "optgroup", "option"];

static WITH_P: [&str; 2] = ["param", "p"];

static WITH_S: [&str; 3] = ["search", "section", "summary"];

static WITH_T: [&str; 9] = [
    "table", "tbody", "td", "tfoot", "thead", "th", "title", "track", "tr",
];

static WITH_U: [&str; 1] = ["ul"];

/// Returns whether `name` is a tag name that begins an HTML block of the sixth kind, in any case. CommonMark 4.6,
/// start condition 6.
pub fn is_block_name(name: &[u8]) -> bool
    ensures value { IsTrue result ↔ names.IsBlockName name.now }
    ensures listed { result ≡ names.is_block_name name.now }
{
    let len = block_name_len(name);
    len > 0 && len == name.len()
}

/// Returns the length of the longest name of start condition 6 at the start of `bytes`, in any case, or 0 if there is
/// none. CommonMark 4.6.
pub fn block_name_len(bytes: &[u8]) -> usize
    ensures { names.IsLongestName bytes.now result }
{
    let [letter, ..] = bytes else {
        return 0;
    };
    match letter.to_ascii_lowercase() {
        b'a' => first_name_len(bytes, &WITH_A),
        b'b' => first_name_len(bytes, &WITH_B),
        b'c' => first_name_len(bytes, &WITH_C),
        b'd' => first_name_len(bytes, &WITH_D),
        b'f' => first_name_len(bytes, &WITH_F),
        b'h' => first_name_len(bytes, &WITH_H),
        b'i' => first_name_len(bytes, &WITH_I),
        b'l' => first_name_len(bytes, &WITH_L),
        b'm' => first_name_len(bytes, &WITH_M),
        b'n' => first_name_len(bytes, &WITH_N),
        b'o' => first_name_len(bytes, &WITH_O),
        b'p' => first_name_len(bytes, &WITH_P),
        b's' => first_name_len(bytes, &WITH_S),
        b't' => first_name_len(bytes, &WITH_T),
        b'u' => first_name_len(bytes, &WITH_U),
        _ => 0,
    }
}

// The length of the first known name with which the bytes begin, in any case, or 0 if there is none.
fn first_name_len(bytes: &[u8], known: &[&str]) -> usize
    ensures { result ≡ names.first_name_len (map borrowed_bytes known.now) bytes.now }
{
    for name in known {
        if begins_with_name(bytes, name.as_bytes()) {
            return name.len();
        }
    }
    0
}

/// Returns whether `bytes` begin with `name`, in any case.
pub fn begins_with_name(bytes: &[u8], name: &[u8]) -> bool
    ensures { result ≡ names.begins_with_name name.now bytes.now }
{
    bytes.len() >= name.len() && bytes[..name.len()].eq_ignore_ascii_case(name)
}
