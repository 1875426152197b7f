//! Tables of what a text defines by label, in the byte order of the labels' foldings.

ghost use Rattle.first_pass_items.specs.CowText.{text_of};
ghost use Rattle.first_pass_labels.specs.Foldings.{folded, folding_of};
ghost use Rattle.first_pass_labels.specs.LabelTables.{defined_under, with_first, IsInOrder, HoldsUnder};
ghost use Rattle.std.specs.Map.Iter.{ShowsInOrder, deref_pair};
ghost use Rattle.std.specs.Option.{option_copied};
ghost use Rattle.std.specs.Prelude.{◌≡◌, ◌^◌, ◌<◌, ◌+◌, [], length, is_some, IfOk, IfSome, OnOk, OnErr};

pub use crate::in_order::InOrder;
use crate::in_order::order_of;
use crate::label_key::LabelKey;
use crate::search::{find_first, find_sorted};
use first_pass_items::cow_str::{CowStr, InlineStr};
use first_pass_lines::sample::Sample;
use std::alloc::{AllocError, Global};
use std::boxed::BoxedStr;
use std::marker::Model;
use std::ops::Range;

/// A link reference definition: the destination and the title of the link, unescaped, the range of the definition in
/// the text, and the places of its parts (CommonMark 4.7).
#[derive(Drop)]
pub struct LinkDef<'a> {
    pub dest: CowStr<'a>,
    pub title: Option<CowStr<'a>>,
    pub span: Range<usize>,
    pub places: LinkPlaces,
}

/// The places of the parts of a link reference definition, as byte offsets into the text. The label begins after the
/// `[` at the start of the span, and the title ends at the end of the span.
#[derive(Clone, Copy)]
pub struct LinkPlaces {
    /// The offset of the `]` that ends the label.
    pub label_end: usize,
    /// The start of the destination, with its angle brackets if it has them.
    pub dest_start: usize,
    /// The end of the destination.
    pub dest_end: usize,
    /// The offset of the `"`, `'` or `(` that begins the title. Without a title, the end of the definition.
    pub title_start: usize,
}

impl<'a> LinkDef<'a> {
    /// Returns the range of the label in the text, without its brackets.
    pub fn label_range(&self) -> Range<usize>
        ensures start { self.now.span.start < self.now.places.label_end → result.start ≡ self.now.span.start + 1 }
        ensures end { result.«end» ≡ self.now.places.label_end }
    {
        let end = self.places.label_end;
        if self.span.start < end {
            self.span.start + 1..end
        } else {
            end..end
        }
    }

    /// Returns the range of the destination in the text, with its angle brackets if it has them.
    pub fn dest_range(&self) -> Range<usize>
        ensures start { result.start ≡ self.now.places.dest_start }
        ensures end { result.«end» ≡ self.now.places.dest_end }
    {
        self.places.dest_start..self.places.dest_end
    }

    /// Returns the range of the title in the text, with its delimiters. Returns `None` if there is no title.
    pub fn title_range(&self) -> Option<Range<usize>>
        ensures some { is_some result ≡ is_some self.now.title }
        ensures range { IfSome result (λ range. (range.start ≡ self.now.places.title_start)
            × (range.«end» ≡ self.now.span.«end»)) }
    {
        match &self.title {
            Some(_) => Some(self.places.title_start..self.span.end),
            None => None,
        }
    }
}

/// A footnote: the number of its uses.
#[derive(Drop)]
pub struct FootnoteDef {
    pub use_count: usize,
}

/// The link definitions of a text, by label.
pub type RefDefs<'a> = LabelTable<'a, LinkDef<'a>>;

/// The footnote definitions of a text, by label.
pub type FootDefs<'a> = LabelTable<'a, FootnoteDef>;

/// A table of definitions by label, in the byte order of the labels' foldings. `get` and `iter` show only the first
/// definition of each folding.
///
/// The table keeps every definition that was added, in the order of the calls. `sort` makes a list of the indices of
/// those that are shown, in the order of their labels. While the table is not sorted, `get` may go through all
/// definitions, and each step of `iter` does.
#[derive(Drop)]
pub struct LabelTable<'a, T> {
    alloc: Global,
    entries: Vec<(LabelKey<'a>, T)>,
    // The indices of the table's entries in the order of their labels. Empty unless the table is sorted.
    order: Vec<usize>,
}

impl<'a, T> Model for LabelTable<'a, T> {
    ghost use Rattle.first_pass_items.specs.declared.cow_str.CowStr.{CowStr};
    ghost use Rattle.first_pass_labels.specs.LabelTables.{table_of, IsOrderIfAny};
    ghost use Rattle.std.specs.Prelude.{List};

    ghost Value = { List (CowStr × T) };

    ghost view = { λ t. table_of t.entries.items };

    ghost invariant = { λ t. IsOrderIfAny t.order.items t.entries.items (table_of t.entries.items) };
}

impl<'a, T> LabelTable<'a, T> {
    /// Returns a table without entries. Allocates nothing.
    pub fn new(alloc: Global) -> LabelTable<'a, T>
        ensures { result ≡ [] }
    {
        LabelTable {
            alloc,
            entries: Vec::new(alloc),
            order: Vec::new(alloc),
        }
    }

    /// Returns the definition whose label has the same folding as `label`, and `None` exactly if there is none. Fails
    /// only if an allocation fails (CommonMark 4.7).
    pub fn get(&self, label: &str) -> Result<Option<&T>, AllocError>
        ensures value { IfOk result (λ found. option_copied found ≡ defined_under (folded label.now) self.now) }
        ensures holds { IfOk result (λ found. HoldsUnder self.now (folded label.now) (option_copied found)) }
    {
        let key = key_of_copy(self.alloc, label)?;
        Ok(self.find(&key))
    }

    // Returns the definition whose label has the same folding as that of the key.
    fn find(&self, key: &LabelKey<'a>) -> Option<&T>
        ensures { option_copied result ≡ defined_under (folding_of key.now) self.now }
    {
        if self.order.is_empty() {
            return find_first(self.entries.as_slice(), key);
        }
        find_sorted(self.entries.as_slice(), self.order.as_slice(), key)
    }

    /// Returns the labels with their definitions, in the byte order of their foldings. No folding occurs twice.
    pub fn iter(&self) -> InOrder<'_, 'a, T>
        ensures entries { result ≡ self.now }
        ensures order { IsInOrder self.now }
        ensures fits { length self.now < 2 ^ 63 }
        ensures runs { ShowsInOrder (deref_pair {K = LabelKey} {X = T}) }
    {
        InOrder::new(self.entries.as_slice(), self.order.as_slice())
    }

    /// Adds a definition under a label, unless the table has one under a label with the same folding: the first stays.
    /// Fails only if an allocation fails; then no definition is added (CommonMark 4.7).
    pub fn insert_first(&mut self, label: LabelKey<'a>, definition: T) -> Result<(), AllocError>
    where
        T: Drop,
        ensures first { OnOk result (self.new ≡ with_first self.old label.entry definition) }
        ensures order { IsInOrder self.old }
        ensures refused { OnErr result (self.new ≡ self.old) }
    {
        self.entries.push((label, definition))?;
        self.order.clear();
        Ok(())
    }

    /// Makes room for the definitions that are expected in the rest of a text. Asks for room for at most `most` in all.
    /// The table stays the same. Fails only if an allocation fails.
    pub fn reserve_for(&mut self, sample: Sample, most: usize) -> Result<(), AllocError>
        ensures { self.new ≡ self.old }
    {
        let count = self.entries.len();
        let expected = sample.expected_more(count);
        self.entries
            .reserve(expected.min(most.saturating_sub(count)))
    }

    /// Sorts the table, so that `get` and `iter` take few steps until the next definition is added. Its labels and
    /// definitions stay the same. Fails only if an allocation fails. Allocates nothing if the table is empty.
    pub fn sort(&mut self) -> Result<(), AllocError>
        ensures same { self.new ≡ self.old }
        ensures err { OnErr result (0 < length self.old) }
    {
        if 0 < self.entries.len() {
            let order = order_of(self.alloc, self.entries.as_slice())?;
            self.order = order;
        }
        Ok(())
    }
}

// The key of a copy of this label. A label of more than 22 bytes is copied to the heap. The table's keys have one
// lifetime, and this label may live shorter.
fn key_of_copy<'a>(alloc: Global, label: &str) -> Result<LabelKey<'a>, AllocError>
    ensures { IfOk result (λ key. text_of key ≡ label.now) }
{
    let copy = match InlineStr::try_from_str(label) {
        Some(short) => CowStr::Inlined(short),
        None => CowStr::Boxed(BoxedStr::from_str(alloc, label)?),
    };
    LabelKey::new(alloc, copy)
}
