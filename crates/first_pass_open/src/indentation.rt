//! The indentation at a place in a line.

ghost use Rattle.first_pass_grammar.specs.Kinds.{all_taken};
ghost use Rattle.first_pass_lines.specs.Rest.{indent};
ghost use Rattle.std.specs.Prelude.{◌≡◌, min};

use first_pass_scan::line_start::LineStart;

/// Takes all columns of indentation at the place, and returns their number, or 4 if there are more (CommonMark 2.2).
#[inline(always)]
pub fn scan_indentation<'a>(line_start: &mut LineStart<'a>) -> usize
    ensures columns { result ≡ min 4 (indent line_start.old) }
    ensures rest { line_start.new ≡ all_taken line_start.old }
{
    if line_start.has_no_column() {
        return 0;
    }
    let columns = line_start.scan_space_upto(4);
    line_start.scan_all_space();
    columns
}
