//! A standard stream, on which control characters are escaped if it is a terminal.

ghost use Rattle.std.specs.Io.{WritesAtMost};
ghost use Rattle.std.specs.Io.KnownBytes.{WriteAppends};
ghost use Rattle.std.specs.Prelude.{None, if◌then◌else◌, ◌≡◌, ◌≤◌, length};

use crate::fault::hex_digit;
use crate::writers::Closes;
use std::io::{ErrorKind, Write};
use std::{io, str};

/// A writer that escapes control characters, if it is to, and finds out if nobody reads what it writes.
#[derive(Drop)]
pub struct Screen<W> {
    inner: W,
    escapes: bool,
    closed: bool,
}

impl<W> Screen<W> {
    /// A writer that escapes control characters, if it is to.
    pub(crate) fn new(inner: W, escapes: bool) -> Screen<W> {
        Screen {
            inner,
            escapes,
            closed: false,
        }
    }
}

impl<W> Closes for Screen<W> {
    fn is_closed(&self) -> bool {
        self.closed
    }
}

impl<W: Write> Screen<W> {
    // Writes bytes as they are, and finds out if nobody reads them.
    fn pass(&mut self, bytes: &[u8]) -> io::Result<usize>
        ensures bound { WritesAtMost result bytes.now }
        ensures bytes { WriteAppends (W.contents self.old.inner) (W.contents self.new.inner) result bytes.now }
        ensures escapes { self.new.escapes ≡ self.old.escapes }
    {
        match self.inner.write(bytes) {
            Ok(count) => Ok(count),
            Err(error) => {
                self.closed = error.kind() == ErrorKind::BrokenPipe;
                Err(error)
            }
        }
    }

    // Writes bytes as they are, all of them.
    fn pass_all(&mut self, bytes: &[u8]) -> io::Result<()>
        ensures { self.new.escapes ≡ self.old.escapes }
    {
        let mut rest = bytes;
        while !rest.is_empty() {
            let count = self.pass(rest)?;
            if count == 0 {
                return Err(io::Error::from(ErrorKind::WriteZero));
            }
            rest = &rest[count..];
        }
        Ok(())
    }

    // Writes a text with its control characters escaped.
    fn pass_escaped(&mut self, text: &str) -> io::Result<()>
        ensures { self.new.escapes ≡ self.old.escapes }
    {
        let bytes = text.as_bytes();
        let mut start = 0;
        for (at, c) in text.char_indices() {
            if !is_control(c) {
                continue;
            }
            self.pass_all(bytes.get(start..at).unwrap_or(&[]))?;
            self.pass_control(c)?;
            start = at.saturating_add(c.len_utf8());
        }
        self.pass_all(bytes.get(start..).unwrap_or(&[]))
    }

    // Writes the first of some bytes, which is no part of a whole character, as `<9B>`. Returns how many bytes are
    // written.
    fn pass_byte(&mut self, bytes: &[u8]) -> io::Result<usize>
        ensures bound { WritesAtMost result bytes.now }
        ensures escapes { self.new.escapes ≡ self.old.escapes }
    {
        let [byte, ..] = bytes else {
            return Ok(0);
        };
        self.pass_all(&[b'<', hex_digit(*byte / 16), hex_digit(*byte % 16), b'>'])?;
        Ok(1)
    }

    // Writes the escape of a control character: `^[` for U+001B, `<U+009B>`.
    fn pass_control(&mut self, c: char) -> io::Result<()>
        ensures { self.new.escapes ≡ self.old.escapes }
    {
        let code = c as u32;
        if code < 128 {
            return self.pass_all(&[b'^', (code as u8) ^ 64]);
        }
        let digits = [
            hex_digit(((code >> 12) % 16) as u8),
            hex_digit(((code >> 8) % 16) as u8),
            hex_digit(((code >> 4) % 16) as u8),
            hex_digit((code % 16) as u8),
        ];
        self.pass_all(b"<U+")?;
        self.pass_all(&digits)?;
        self.pass_all(b">")
    }
}

// The characters that bytes begin with, up to bytes that are none: a piece of the output may end within a character.
fn text_front(bytes: &[u8]) -> &str
    ensures { length result.now ≤ length bytes.now }
{
    match str::from_utf8(bytes) {
        Ok(text) => text,
        Err(error) => match str::from_utf8(&bytes[..error.valid_up_to()]) {
            Ok(text) => text,
            Err(_) => "",
        },
    }
}

// Whether a terminal would obey a character, or order text by it. Newline and tab pass.
fn is_control(c: char) -> bool {
    match c {
        '\n' | '\t' => false,
        '\u{61c}' | '\u{200e}' | '\u{200f}' => true,
        '\u{202a}'..='\u{202e}' | '\u{2066}'..='\u{2069}' => true,
        _ => c.is_control(),
    }
}

impl<W: Write> Write for Screen<W> {
    // No claim is made of what is escaped.
    ghost contents = { λ s. if s.escapes then None else W.contents s.inner };

    fn write(&mut self, buf: &[u8]) -> io::Result<usize> {
        if !self.escapes {
            return self.pass(buf);
        }
        let text = text_front(buf);
        if text.is_empty() {
            return self.pass_byte(buf);
        }
        self.pass_escaped(text)?;
        Ok(text.len())
    }

    fn flush(&mut self) -> io::Result<()> {
        self.inner.flush()
    }
}
