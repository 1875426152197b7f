//! Strings of JSON from bytes of a content.

ghost use Rattle.first_pass_json.specs.JsonValues.{json_string};
ghost use Rattle.first_pass_links.specs.Labels.{single_spaced};
ghost use Rattle.json.specs.Print.{escape};
ghost use Rattle.std.specs.Prelude.{◌≡◌, ◌++◌, OnOk};

use first_pass_json::values::append_escape;
use first_pass_linked::part::append_spelled;
use std::alloc::AllocError;

// Appends bytes in quotation marks, with the escapes of JSON.
#[tactic(auto, unfolding(first_pass_json::specs::JsonValues::json_string))]
pub(crate) fn append_quoted(line: &mut Vec<u8>, bytes: &[u8]) -> Result<(), AllocError>
    ensures { OnOk result (line.new.items ≡ line.old.items ++ json_string bytes.now) }
{
    line.push(b'"')?;
    append_escaped(line, bytes)?;
    line.push(b'"')?;
    Ok(())
}

// Appends bytes with the escapes of JSON.
fn append_escaped(line: &mut Vec<u8>, bytes: &[u8]) -> Result<(), AllocError>
    ensures { OnOk result (line.new.items ≡ line.old.items ++ escape bytes.now) }
{
    for byte in bytes {
        append_escape(line, *byte)?;
    }
    Ok(())
}

// Appends a label as a string, with each run of white space and line endings as one space (CommonMark 6.3).
pub(crate) fn append_label(line: &mut Vec<u8>, label: &[u8]) -> Result<(), AllocError>
    ensures { OnOk result (line.new.items ≡ line.old.items ++ json_string (single_spaced label.now)) }
{
    let alloc = *line.allocator();
    let mut spelled = Vec::new(alloc);
    append_spelled(&mut spelled, label)?;
    append_quoted(line, spelled.as_slice())
}
