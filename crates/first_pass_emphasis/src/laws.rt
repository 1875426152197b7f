//! Laws of emphasis.

ghost use Rattle.first_pass_emphasis.specs.Levels.{IsNestingOf, Nested};
ghost use Rattle.first_pass_emphasis.specs.Parts.{Part};
ghost use Rattle.first_pass_emphasis.specs.Pieces.{Pieces, reduced};
ghost use Rattle.first_pass_emphasis.specs.Redex.{IsNormalForm, read};
ghost use Rattle.first_pass_inline.specs.declared.mark.Mark.{Mark};
ghost use Rattle.first_pass_inline.specs.Look.{Chain};
ghost use Rattle.first_pass_inline.specs.Marks.{AreMarks};
ghost use Rattle.std.specs.Prelude.{◌≡◌, List};

/// The brackets of the marks of a chain are paired.
pub fn marks_are_nested()
    ensures { (c : Chain) (ms : List Mark) → AreMarks c ms → (n : Nested) × IsNestingOf ms n }
{}

/// What the parts of a level are reduced to is what the rewriting step makes of them: the first closer that has an
/// opener, with the last such opener, until there is none.
pub fn normal_form()
    ensures { (ts : List Part) → IsNormalForm (read ts) (reduced ts) }
{}

/// Pieces have at most one normal form.
pub fn one_normal_form()
    ensures { (p q r : Pieces) → IsNormalForm p q → IsNormalForm p r → q ≡ r }
{}
