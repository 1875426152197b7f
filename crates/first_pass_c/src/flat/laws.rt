//! The law of the flat form.

ghost use Rattle.first_pass_c.specs.Law.{DeterminesNodes, DeterminesTables};

/// The flat form determines a tree up to the numbering of its indices, and the tables. Take two trees of the same flat
/// form in which every index names an entry: once each index is replaced by its entry, they are equal. Tables of the
/// same flat form are equal.
pub fn flat_form_determines()
    ensures nodes { DeterminesNodes }
    ensures tables { DeterminesTables }
{}
