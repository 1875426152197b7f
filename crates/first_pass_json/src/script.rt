//! Text and JSON in a page of HTML.

ghost use Rattle.first_pass_json.specs.Scripts.{html_byte, in_script};
ghost use Rattle.json.specs.Print.{escape_byte};
ghost use Rattle.std.specs.Prelude.{◌≡◌, ◌++◌, OnOk};

use crate::values::append_escape;
use std::alloc::AllocError;

/// Appends a byte of a text in an element. Fails only if an allocation fails.
pub fn append_html(held: &mut Vec<u8>, byte: u8) -> Result<(), AllocError>
    ensures { OnOk result (held.new.items ≡ held.old.items ++ html_byte byte) }
{
    match byte {
        b'&' => held.extend_from_slice(b"&amp;"),
        b'<' => held.extend_from_slice(b"&lt;"),
        b'>' => held.extend_from_slice(b"&gt;"),
        _ => held.extend_from_slice(&[byte]),
    }
}

/// Appends JSON in a script element. Fails only if an allocation fails.
#[tactic(auto, unfolding(crate::specs::Scripts::in_script))]
pub fn append_in_script(held: &mut Vec<u8>, json: &[u8]) -> Result<(), AllocError>
    ensures { OnOk result (held.new.items ≡ held.old.items ++ in_script json.now) }
{
    for byte in json {
        if *byte == b'<' {
            held.extend_from_slice(b"\\u003c")?;
        } else {
            held.push(*byte)?;
        }
    }
    Ok(())
}

/// Appends a byte of a string of JSON in a script element. Fails only if an allocation fails.
pub fn append_escape_in_script(held: &mut Vec<u8>, byte: u8) -> Result<(), AllocError>
    ensures { OnOk result (held.new.items ≡ held.old.items ++ in_script (escape_byte byte)) }
{
    if byte == b'<' {
        held.extend_from_slice(b"\\u003c")
    } else {
        append_escape(held, byte)
    }
}
