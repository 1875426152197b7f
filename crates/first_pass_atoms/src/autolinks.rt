//! Autolinks. CommonMark 6.5.

ghost use Rattle.first_pass_atoms.specs.Autolinks.{address_of, autolink_at, closed, email_len, is_domain};
ghost use Rattle.first_pass_atoms.specs.Autolinks.{is_domain_byte, is_label, is_local_byte, is_scheme_byte, is_uri_byte};
ghost use Rattle.first_pass_atoms.specs.Autolinks.{scheme_len, uri_len};
ghost use Rattle.first_pass_html.specs.TagLengths.{word_len};
ghost use Rattle.std.specs.Char.{is_ascii_alphabetic};
ghost use Rattle.std.specs.List.{prefix_len};
ghost use Rattle.std.specs.Prelude.{◌≡◌, ◌<◌, ◌≤◌, ◌+◌, length, drop, IfSome};

use first_pass_lines::lines::begins;
use first_pass_lines::places::rest_of;

/// What the address of an autolink is.
#[derive(Clone, Copy, PartialEq, Eq)]
pub enum AutolinkForm {
    /// An absolute URI.
    Uri,
    /// An email address.
    Email,
}

/// An autolink: the place after its `>`, and what its address is.
#[derive(Clone, Copy, PartialEq, Eq)]
pub struct Autolink {
    pub end: usize,
    pub form: AutolinkForm,
}

/// Returns the autolink whose `<` is at the place, or `None` if none begins there. CommonMark 6.5.
pub fn autolink_at(content: &[u8], place: usize) -> Option<Autolink>
    requires { place ≤ length content.now }
    ensures value { result ≡ autolink_at content.now place }
    ensures within { IfSome result (λ link. (place < link.«end») × (link.«end» ≤ length content.now)) }
{
    let rest = rest_of(content, place);
    if !begins(b'<', rest) {
        return None;
    }
    match address_of(rest_of(rest, 1)) {
        Some((form, len)) => Some(Autolink {
            end: place + (len + 2),
            form,
        }),
        None => None,
    }
}

// The form and length of the address at the start of the bytes, if a `>` directly follows it.
#[tactic(auto, unfolding(crate::specs::Autolinks::address_of))]
fn address_of(bytes: &[u8]) -> Option<(AutolinkForm, usize)>
    ensures value { result ≡ address_of bytes.now }
    ensures within { IfSome result (λ a. a.1 < length bytes.now) }
{
    match closed(AutolinkForm::Uri, bytes, scan_uri(bytes)) {
        Some(address) => Some(address),
        None => closed(AutolinkForm::Email, bytes, scan_email(bytes)),
    }
}

// The form and this length, if there is one and a `>` directly follows that many bytes.
fn closed(form: AutolinkForm, bytes: &[u8], len: Option<usize>) -> Option<(AutolinkForm, usize)>
    requires { IfSome len (λ n. n ≤ length bytes.now) }
    ensures value { result ≡ closed form bytes.now len }
    ensures within { IfSome result (λ a. a.1 < length bytes.now) }
{
    let n = len?;
    if begins(b'>', rest_of(bytes, n)) {
        Some((form, n))
    } else {
        None
    }
}

// The length of the scheme at the start of the bytes, if there is one.
#[tactic(auto, unfolding(crate::specs::Autolinks::scheme_len))]
fn scan_scheme(bytes: &[u8]) -> Option<usize>
    ensures value { result ≡ scheme_len bytes.now }
    ensures within { IfSome result (λ n. n ≤ length bytes.now) }
{
    let len = scan_scheme_word(bytes)?;
    if len < 2 || 32 < len {
        return None;
    }
    Some(len)
}

// The length of a letter and the bytes that continue a scheme, if a letter is at the start of the bytes.
fn scan_scheme_word(bytes: &[u8]) -> Option<usize>
    ensures value { result ≡ word_len is_ascii_alphabetic is_scheme_byte bytes.now }
    ensures within { IfSome result (λ n. n ≤ length bytes.now) }
{
    match bytes {
        [first, others @ ..] if first.is_ascii_alphabetic() => Some(1 + scheme_bytes_len(others)),
        _ => None,
    }
}

// The number of leading bytes that can continue a scheme after its first letter.
fn scheme_bytes_len(bytes: &[u8]) -> usize
    ensures value { result ≡ prefix_len is_scheme_byte bytes.now }
    ensures within { result ≤ length bytes.now }
{
    bytes
        .iter()
        .take_while(|b| b.is_ascii_alphanumeric() || matches!(**b, b'+' | b'.' | b'-'))
        .count()
}

// The number of leading bytes that can follow the colon of a URI.
fn uri_bytes_len(bytes: &[u8]) -> usize
    ensures value { result ≡ prefix_len is_uri_byte bytes.now }
    ensures within { result ≤ length bytes.now }
{
    bytes
        .iter()
        .take_while(|b| !(b.is_ascii_control() || matches!(**b, b' ' | b'<' | b'>')))
        .count()
}

// The length of the absolute URI at the start of the bytes, if there is one.
#[tactic(auto, unfolding(crate::specs::Autolinks::uri_len))]
fn scan_uri(bytes: &[u8]) -> Option<usize>
    ensures value { result ≡ uri_len bytes.now }
    ensures within { IfSome result (λ n. n ≤ length bytes.now) }
{
    let scheme = scan_scheme(bytes)?;
    if !begins(b':', rest_of(bytes, scheme)) {
        return None;
    }
    Some(scheme + 1 + uri_bytes_len(rest_of(bytes, scheme + 1)))
}

// The number of leading bytes that the part of an email address before its `@` can have.
fn local_bytes_len(bytes: &[u8]) -> usize
    ensures value { result ≡ prefix_len is_local_byte bytes.now }
    ensures within { result ≤ length bytes.now }
{
    bytes
        .iter()
        .take_while(|b| b.is_ascii_alphanumeric() || b".!#$%&'*+/=?^_`{|}~-".contains(*b))
        .count()
}

// The number of leading bytes that a domain can have.
fn domain_bytes_len(bytes: &[u8]) -> usize
    ensures value { result ≡ prefix_len is_domain_byte bytes.now }
    ensures within { result ≤ length bytes.now }
{
    bytes
        .iter()
        .take_while(|b| b.is_ascii_alphanumeric() || matches!(**b, b'-' | b'.'))
        .count()
}

// Whether the bytes, which a domain can have, are a label.
fn is_label(label: &[u8]) -> bool
    ensures { result ≡ is_label label.now }
{
    let len = label.len();
    if len < 1 {
        return false;
    }
    if 63 < len {
        return false;
    }
    label[0].is_ascii_alphanumeric() && label[len - 1].is_ascii_alphanumeric()
}

// Whether the bytes, which a domain can have, are labels with full stops between them.
fn is_domain(domain: &[u8]) -> bool
    ensures { result ≡ is_domain domain.now }
{
    domain.split(|b| *b == b'.').all(|label| is_label(label))
}

// The length of the email address at the start of the bytes, if there is one.
#[tactic(auto, unfolding(crate::specs::Autolinks::email_len))]
fn scan_email(bytes: &[u8]) -> Option<usize>
    ensures value { result ≡ email_len bytes.now }
    ensures within { IfSome result (λ n. n ≤ length bytes.now) }
{
    let local = local_bytes_len(bytes);
    if local == 0 || !begins(b'@', rest_of(bytes, local)) {
        return None;
    }
    let following = rest_of(bytes, local + 1);
    let len = domain_bytes_len(following);
    if is_domain(&following[..len]) {
        Some(local + 1 + len)
    } else {
        None
    }
}
