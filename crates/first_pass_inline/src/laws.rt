//! Laws of sequences.

ghost use Rattle.first_pass_inline.specs.declared.mark.Mark.{Mark};
ghost use Rattle.first_pass_inline.specs.declared.pair.Place.{Place};
ghost use Rattle.first_pass_inline.specs.Flat.{LinksHoldNone};
ghost use Rattle.first_pass_inline.specs.Look.{Chain};
ghost use Rattle.first_pass_inline.specs.Marks.{AreMarks, IsSequence};
ghost use Rattle.first_pass_inline.specs.Readable.{AreReadable};
ghost use Rattle.first_pass_inline.specs.Sequences.{Sequence, Where};
ghost use Rattle.std.specs.Prelude.{◌≡◌, IsUtf8, List};

/// From a place on, there is at most one sequence.
pub fn one_sequence()
    ensures { (c : Chain) (w : Where) (t s : Sequence) (p q u : Place) → IsSequence c w p t q → IsSequence c w p s u
        → (t ≡ s) × (q ≡ u) }
{}

/// A chain determines its marks.
pub fn one_marking()
    ensures { (c : Chain) (ms ns : List Mark) → AreMarks c ms → AreMarks c ns → ms ≡ ns }
{}

/// Each chain has marks.
pub fn every_chain_has_marks()
    ensures { (c : Chain) → (ms : List Mark) × AreMarks c ms }
{}

/// No link holds a link, except an autolink, or a footnote reference.
pub fn no_link_in_link()
    ensures { (c : Chain) (w : Where) (t : Sequence) (p q : Place) → IsSequence c w p t q → LinksHoldNone t }
{}

/// In a content that is UTF-8, the destination and the title of each inline link are UTF-8, and no autolink is empty.
pub fn marks_are_readable()
    ensures { (c : Chain) (ms : List Mark) → IsUtf8 c.bytes → AreMarks c ms → AreReadable c.bytes ms }
{}
