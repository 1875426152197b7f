//! Labels of footnote references (this project).

ghost use Rattle.first_pass_targets.specs.InlineLabels.{is_footnote_label};
ghost use Rattle.std.specs.Prelude.{◌≡◌};

use crate::label::is_blank_label;
use bitflags::Flags;
use first_pass_items::option_set::Options;

/// Returns whether a label is that of a footnote reference: footnotes are enabled, and the label is `^` and a text that
/// is not blank. In GitHub's form of footnotes the text has no newline (this project).
pub fn is_footnote_label(label: &[u8], options: Options) -> bool
    ensures { result ≡ is_footnote_label options label.now }
{
    let [b'^', name @ ..] = label else {
        return false;
    };
    options.contains(Options::ENABLE_FOOTNOTES)
        && !is_blank_label(name)
        && !(options.has_gfm_footnotes() && name.contains(&b'\n'))
}
