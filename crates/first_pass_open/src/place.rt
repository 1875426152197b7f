//! Places in a text.

ghost use Rattle.first_pass_lines.specs.Places.{offset};
ghost use Rattle.std.specs.Prelude.{◌≡◌, ◌<◌, ◌^◌};

use first_pass_scan::line_start::LineStart;
use std::marker::Model;

/// A place in a text: the offset at which reading of its line began, and the rest of the text from the place on.
#[derive(Drop)]
pub struct Place<'a> {
    /// The offset into the text at which reading the line began.
    pub line: usize,
    /// The rest of the text from the place on.
    pub rest: LineStart<'a>,
}

impl<'a> Model for Place<'a> {
    ghost use Rattle.first_pass_lines.specs.Places.{Place, place_at};

    ghost Value = { Place };

    ghost view = { λ p. place_at p.line p.rest };
}

impl<'a> Place<'a> {
    /// Returns the offset of the place into the text.
    #[inline(always)]
    pub fn offset(&self) -> usize
        requires { offset self.now < 2 ^ 63 }
        ensures { result ≡ offset self.now }
    {
        self.line + self.rest.bytes_scanned()
    }

    /// Returns the bytes from the place to the end of the text.
    #[inline(always)]
    pub fn left(&self) -> &'a [u8]
        ensures { result.now ≡ self.now.rest.left }
    {
        self.rest.left()
    }

    /// Copies the place. This allocates nothing.
    #[inline(always)]
    pub fn copy(&self) -> Place<'a>
        ensures { result ≡ self.now }
    {
        Place {
            line: self.line,
            rest: self.rest.copy(),
        }
    }
}
