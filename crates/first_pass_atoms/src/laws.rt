//! A law of atoms in a content that is UTF-8.

ghost use Rattle.first_pass_atoms.specs.Autolinks.{autolink_at};
ghost use Rattle.first_pass_atoms.specs.RawHtml.{raw_html_at};
ghost use Rattle.std.specs.Prelude.{ℕ, IfSome, IsCharBoundary, IsUtf8, List};

/// Autolinks and raw HTML end on character boundaries, if the content is UTF-8.
pub fn atoms_have_whole_characters()
    ensures links { (content : List ℕ) (place : ℕ) → IsUtf8 content
        → IfSome (autolink_at content place) (λ link. IsCharBoundary content link.«end») }
    ensures html { (content : List ℕ) (place : ℕ) → IsUtf8 content
        → IfSome (raw_html_at content place) (λ end. IsCharBoundary content end) }
{}
