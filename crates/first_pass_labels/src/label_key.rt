//! A label as the key of a table.

ghost use Rattle.first_pass_items.specs.CowText.{text_of};
ghost use Rattle.first_pass_labels.specs.Foldings.{folding_of, is_same_label, label_cmp};
ghost use Rattle.std.proofs.Common.{rules};
ghost use Rattle.std.specs.Cmp.{on_equiv, on_total, on_po, on_per, partial_equiv_from_equiv};
ghost use Rattle.std.specs.Cmp.Lexicographic.{nat_list_eq_equiv, nat_list_cmp_total, texts_ties, texts_po};
ghost use Rattle.std.specs.Cmp.Rules.{hashing};
ghost use Rattle.std.specs.Hash as fed;
ghost use Rattle.std.specs.Prelude.{◌≡◌, Some, IfOk, refl};

use crate::folding::Folding;
use first_pass_items::cow_str::CowStr;
use std::alloc::{AllocError, Global};
use std::cmp::Ordering;
use std::hash::{Hash, Hasher};
use std::marker::Model;
use std::ops::DerefStr;

/// A label as it is spelled, with its full default case folding. Keys are compared by folding. In contracts a key is
/// only its label.
#[derive(Drop)]
pub struct LabelKey<'a> {
    label: CowStr<'a>,
    folding: Folding,
}

impl<'a> Model for LabelKey<'a> {
    ghost use Rattle.first_pass_items.specs.CowText.{text_of};
    ghost use Rattle.first_pass_items.specs.declared.cow_str.CowStr.{CowStr};
    ghost use Rattle.first_pass_labels.specs.Foldings.{folding_of, kept_folding};
    ghost use Rattle.std.specs.Prelude.{◌≡◌};

    ghost Value = { CowStr };

    ghost view = { λ k. k.label };

    ghost invariant = { λ k. kept_folding k.folding (text_of k.label) ≡ folding_of k.label };
}

impl<'a> LabelKey<'a> {
    /// Returns the key of a label. Fails only if an allocation fails.
    #[inline(always)]
    pub fn new(alloc: Global, label: CowStr<'a>) -> Result<LabelKey<'a>, AllocError>
        ensures { IfOk result (λ key. key ≡ label.entry) }
    {
        let folding = Folding::of_text(alloc, label.deref())?;
        Ok(LabelKey { label, folding })
    }

    /// Returns the label as it is spelled.
    pub fn label(&self) -> &str
        ensures { result.now ≡ text_of self.now }
    {
        self.label.deref()
    }

    /// Returns the label after full default case folding.
    pub fn folding(&self) -> &str
        ensures { result.now ≡ folding_of self.now }
    {
        self.folding.text_of(self.label.deref())
    }
}

impl<'a> PartialEq for LabelKey<'a> {
    ghost eq = { is_same_label };

    ghost laws = { on_per folding_of (partial_equiv_from_equiv nat_list_eq_equiv) };

    /// Returns whether the foldings are equal.
    fn eq(&self, other: &LabelKey<'a>) -> bool {
        self.folding() == other.folding()
    }
}

impl<'a> Eq for LabelKey<'a> {
    ghost laws = { on_equiv folding_of nat_list_eq_equiv };
}

impl<'a> PartialOrd for LabelKey<'a> {
    ghost partial_cmp = { λ x y. Some (label_cmp x y) };

    ghost laws = { on_po folding_of texts_po };

    /// Returns the byte order of the foldings.
    fn partial_cmp(&self, other: &LabelKey<'a>) -> Option<Ordering> {
        Some(self.cmp(other))
    }
}

impl<'a> Ord for LabelKey<'a> {
    ghost cmp = { label_cmp };

    ghost total = { on_total folding_of nat_list_cmp_total };

    ghost matches_partial_cmp = { λ x y. refl };

    ghost matches_eq = { λ x y. texts_ties (folding_of x) (folding_of y) };

    /// Returns the byte order of the foldings.
    fn cmp(&self, other: &LabelKey<'a>) -> Ordering {
        self.folding().cmp(other.folding())
    }
}

impl<'a> Hash for LabelKey<'a> {
    ghost hash_input = { λ key. fed.str (folding_of key) };

    ghost respects_eq = { Prim.search (hashing, rules) };

    /// Hashes the folding.
    fn hash<H: Hasher>(&self, state: &mut H) {
        self.folding().hash(state);
    }
}
