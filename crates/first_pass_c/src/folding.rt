//! The folding of a label, in memory of the caller.

ghost use Rattle.first_pass_c.specs.Folding.{FoldLeaves, IsFolded};
ghost use Rattle.std.specs.Prelude.{◌≡◌, OnOk, IfErr};

use crate::copying::copy_into;
use crate::fault::Fault;
use first_pass_items::cow_str::CowStr;
use first_pass_labels::label_key::LabelKey;
use std::alloc::Global;
use std::str;

/// Writes the folding of a label to the start of an array, and its length.
pub(crate) fn fold_into(
    alloc: Global,
    label: &[u8],
    folded: &mut [u8],
    folded_length: &mut usize,
) -> Result<(), Fault>
    ensures ok { OnOk result (IsFolded label.now folded.old folded.new folded_length.new) }
    ensures fault { IfErr result
        (λ fault. FoldLeaves fault label.now folded.old folded_length.old folded_length.new) }
    ensures unchanged { IfErr result (λ _. folded.new ≡ folded.old) }
{
    let Ok(text) = str::from_utf8(label) else {
        return Err(Fault::NotUtf8);
    };
    let key = LabelKey::new(alloc, CowStr::Borrowed(text))?;
    let folding = key.folding().as_bytes();
    *folded_length = folding.len();
    if folded.len() < folding.len() {
        return Err(Fault::TooSmall);
    }
    copy_into(folding, folded);
    Ok(())
}
