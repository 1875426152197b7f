//! Strings that are borrowed from the text if they are slices of it.

ghost use Rattle.first_pass_items.specs.CowText.{text_of};
ghost use Rattle.std.specs.Prelude.{◌≡◌, ◌≤◌, ◌↔◌, length, IsSome, IfSome, encode_utf8};

use std::boxed::BoxedStr;
use std::marker::Model;
use std::ops::DerefStr;
use std::str;

/// A string of at most 22 bytes, stored in the value itself without an allocation.
#[derive(Drop)]
pub struct InlineStr {
    bytes: [u8; 22],
    len: u8,
}

impl Model for InlineStr {
    ghost use Rattle.std.specs.Prelude.{ℕ, ◌≤◌, List, take, IsUtf8};

    ghost Value = { List ℕ };

    ghost view = { λ s. take s.len s.bytes };

    ghost invariant = { λ s. (s.len ≤ 22) × ∥ IsUtf8 (take s.len s.bytes) ∥₁ };
}

impl InlineStr {
    /// Returns a copy of the string, or `None` if it is longer than 22 bytes.
    pub fn try_from_str(text: &str) -> Option<InlineStr>
        ensures some { IsSome result ↔ (length text.now ≤ 22) }
        ensures value { IfSome result (λ s. s ≡ text.now) }
    {
        if 22 < text.len() {
            return None;
        }
        Some(InlineStr::from_short(text))
    }

    /// The string of one character.
    pub fn from_char(character: char) -> InlineStr
        ensures { result ≡ encode_utf8 character }
    {
        let mut buffer = [0; 4];
        InlineStr::from_short(character.encode_utf8(&mut buffer))
    }

    // A copy of a string of at most 22 bytes.
    fn from_short(text: &str) -> InlineStr
        requires { length text.now ≤ 22 }
        ensures { result ≡ text.now }
    {
        let len = text.len();
        let mut bytes = [0; 22];
        bytes[..len].copy_from_slice(text.as_bytes());
        InlineStr {
            bytes,
            len: len as u8,
        }
    }

    /// The string.
    pub fn as_str(&self) -> &str
        ensures value { result.now ≡ self.now }
        ensures fits { length result.now ≤ 22 }
    {
        unsafe { str::from_utf8_unchecked(&self.bytes[..self.len as usize]) }
    }
}

/// A string: a slice of the text, or its own bytes, on the heap or (up to 22) in the value itself.
#[derive(Drop)]
pub enum CowStr<'a> {
    Borrowed(&'a str),
    Boxed(BoxedStr),
    Inlined(InlineStr),
}

impl<'a> DerefStr for CowStr<'a> {
    ghost deref_gives = { λ c bytes. bytes ≡ text_of c };

    /// The bytes of the string, however they are stored.
    fn deref(&self) -> &str
        ensures { result.now ≡ text_of self.now }
    {
        match self {
            CowStr::Borrowed(text) => text,
            CowStr::Boxed(text) => text.as_str(),
            CowStr::Inlined(text) => text.as_str(),
        }
    }
}
