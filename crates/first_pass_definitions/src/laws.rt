//! Laws of definitions.

ghost use Rattle.first_pass_grammar.specs.Containers.{Context};
ghost use Rattle.first_pass_grammar.specs.Definitions.{LinkReference, reference_definition_at};
ghost use Rattle.first_pass_lines.specs.Lines.{is_line_end, blank_len};
ghost use Rattle.std.specs.Prelude.{◌≡◌, ℕ, List, Bool, drop, Some, true, is_some, ◌<◌, ◌-◌, false, slice_index};

/// The last byte of a definition is no line ending, and the rest of its line is blank. CommonMark 4.7.
pub fn law_of_definitions()
    ensures blank { (in_table : Bool) (around : Context) (bs : List ℕ) (reference : LinkReference)
        → reference_definition_at in_table around bs ≡ Some reference
        → is_some (blank_len (drop reference.size bs)) ≡ true }
    ensures last { (in_table : Bool) (around : Context) (bs : List ℕ) (reference : LinkReference)
        → reference_definition_at in_table around bs ≡ Some reference
        → (0 < reference.size) × (is_line_end (slice_index bs (reference.size - 1)) ≡ false) }
{}
