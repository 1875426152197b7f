//! Blanks of a content.

ghost use Rattle.first_pass_atoms.specs.Blanks.{is_blank};
ghost use Rattle.std.specs.List.{prefix_len};
ghost use Rattle.std.specs.Prelude.{◌≡◌, ◌≤◌, length};

/// Returns the number of blanks at the start of these bytes: spaces, tabs and newlines.
pub fn scan_blanks(bytes: &[u8]) -> usize
    ensures value { result ≡ prefix_len is_blank bytes.now }
    ensures within { result ≤ length bytes.now }
{
    bytes
        .iter()
        .take_while(|byte| matches!(**byte, b' ' | b'\t' | b'\n'))
        .count()
}
