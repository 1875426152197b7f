//! What belongs to a tree but is not in it: the tables of what the text defines, and the lists that nodes refer to.

ghost use Rattle.first_pass_attributes.specs.Attributes.{attributes_in};
ghost use Rattle.first_pass_grammar.specs.Derivation.{no_tables, with_definitions, with_footnote_label};
ghost use Rattle.first_pass_grammar.specs.Names.{text_named, alignments_named};
ghost use Rattle.first_pass_items.specs.CowText.{text_of};
ghost use Rattle.first_pass_links.specs.Labels.{label_at};
ghost use Rattle.first_pass_names.specs.TableEntries.{entries, with_definition, IsCopy, AddsFootnote, tables_of, names_of, no_names, with_named, with_alignments, with_heading, link_entry, link_at as link_at_of, refdefs_of, footdefs_of};
ghost use Rattle.std.specs.Option.{option_map};
ghost use Rattle.std.specs.Prelude.{◌≡◌, ◌<◌, ◌+◌, ◌∷◌, [], length, slice_get, None, Ok, Some, IfOk, IsSomeAnd, MatchOption, OnOk, OnErr, false};

pub use first_pass_attributes::attrs::HeadingAttributes;
use first_pass_items::cow_str::{CowStr, InlineStr};
use first_pass_items::item::{Alignment, AlignmentIndex, CowIndex, HeadingIndex};
pub use first_pass_labels::label_key::LabelKey;
use first_pass_labels::label_table::LabelTable;
pub use first_pass_labels::label_table::{FootDefs, FootnoteDef, InOrder, LinkDef, RefDefs};
pub use first_pass_lines::sample::Sample;
use first_pass_links::label::scan_link_label_rest;
use std::alloc::{AllocError, Global};
use std::boxed::BoxedStr;
use std::ops::{DerefStr, Index};

// The most link definitions, and the most heading attributes, for which room is made at once: the rest of a text may be
// unlike its start.
const MOST_EXPECTED: usize = 300_000;

/// Two tables of what the text defines (link definitions and footnote labels), and three lists. The lists have the
/// strings, column alignments and heading attributes that nodes refer to by index.
#[derive(Drop)]
pub struct Allocations<'a> {
    pub(crate) texts: Vec<CowStr<'a>>,
    alignments: Vec<Vec<Alignment>>,
    headings: Vec<HeadingAttributes<'a>>,
    refdefs: RefDefs<'a>,
    footdefs: FootDefs<'a>,
}

impl<'a> Allocations<'a> {
    /// Returns empty tables and empty lists. Allocates nothing.
    pub fn new(alloc: Global) -> Allocations<'a>
        ensures tables { tables_of result ≡ no_tables }
        ensures names { names_of result ≡ no_names }
    {
        Allocations {
            texts: Vec::new(alloc),
            alignments: Vec::new(alloc),
            headings: Vec::new(alloc),
            refdefs: LabelTable::new(alloc),
            footdefs: LabelTable::new(alloc),
        }
    }

    /// Returns the table of link definitions. Of definitions with matching labels, it has only the first.
    pub fn refdefs(&self) -> &RefDefs<'a>
        ensures { result.now ≡ refdefs_of self.now }
    {
        &self.refdefs
    }

    /// Returns the table of footnotes. Of definitions with matching labels, it has only the label of the first.
    pub fn footdefs(&self) -> &FootDefs<'a>
        ensures { result.now ≡ footdefs_of self.now }
    {
        &self.footdefs
    }

    /// Sorts both tables, so that look-ups and listings take few steps until the next entry is added. No entry changes.
    /// Fails only if an allocation fails. Allocates nothing if both tables are empty.
    pub fn sort_tables(&mut self) -> Result<(), AllocError>
        ensures entries { entries self.new ≡ entries self.old }
        ensures names { names_of self.new ≡ names_of self.old }
        ensures err { OnErr result (0 < length (refdefs_of self.old) + length (footdefs_of self.old)) }
    {
        self.refdefs.sort()?;
        self.footdefs.sort()?;
        Ok(())
    }

    /// Makes room for the link definitions and the heading attributes that are expected in the rest of a text. Asks for
    /// room for at most 300,000 of each in all. No entry changes. Fails only if an allocation fails.
    pub fn reserve_for(&mut self, sample: Sample) -> Result<(), AllocError>
        ensures entries { entries self.new ≡ entries self.old }
        ensures names { names_of self.new ≡ names_of self.old }
    {
        self.refdefs.reserve_for(sample, MOST_EXPECTED)?;
        let count = self.headings.len();
        let expected = sample.expected_more(count);
        self.headings
            .reserve(expected.min(MOST_EXPECTED.saturating_sub(count)))
    }

    /// Appends a string to the list of strings, and returns its index there. Fails only if an allocation fails; then
    /// nothing changes.
    pub fn allocate_cow(&mut self, cow: CowStr<'a>) -> Result<CowIndex, AllocError>
        ensures index { IfOk result (λ ix. ix.0 ≡ length (names_of self.old).texts) }
        ensures names { OnOk result (names_of self.new ≡ with_named (names_of self.old) cow.entry) }
        ensures entries { entries self.new ≡ entries self.old }
        ensures refused { OnErr result (names_of self.new ≡ names_of self.old) }
    {
        let ix = CowIndex(self.texts.len());
        self.texts.push(cow)?;
        Ok(ix)
    }

    /// Appends the column alignments of a table (GFM 4.10) to their list, and returns the index of this entry. Fails
    /// only if an allocation fails; then nothing changes.
    pub fn allocate_alignment(
        &mut self,
        alignment: Vec<Alignment>,
    ) -> Result<AlignmentIndex, AllocError>
        ensures index { IfOk result (λ ix. ix.0 ≡ length (names_of self.old).alignments) }
        ensures names { OnOk result (names_of self.new ≡ with_alignments (names_of self.old) alignment.items) }
        ensures entries { entries self.new ≡ entries self.old }
        ensures refused { OnErr result (names_of self.new ≡ names_of self.old) }
    {
        let ix = AlignmentIndex(self.alignments.len());
        self.alignments.push(alignment)?;
        Ok(ix)
    }

    /// Appends the attributes of a heading to their list, and returns the index of this entry. Fails only if an
    /// allocation fails; then nothing changes.
    #[inline(always)]
    pub fn allocate_heading(
        &mut self,
        attrs: HeadingAttributes<'a>,
    ) -> Result<HeadingIndex, AllocError>
        ensures index { IfOk result (λ ix. ix.0 ≡ length (names_of self.old).headings) }
        ensures names { OnOk result (names_of self.new ≡ with_heading (names_of self.old) (attributes_in attrs.entry)) }
        ensures entries { entries self.new ≡ entries self.old }
        ensures refused { OnErr result (names_of self.new ≡ names_of self.old) }
    {
        let ix = HeadingIndex(self.headings.len());
        self.headings.push(attrs)?;
        Ok(ix)
    }

    /// Adds a link definition to its table, unless the table has one with a matching label (CommonMark 4.7). The
    /// label, destination and title are not copied, so those that are slices of the text stay slices. Fails only if an
    /// allocation fails; then nothing changes.
    pub fn define_link(
        &mut self,
        label: LabelKey<'a>,
        definition: LinkDef<'a>,
    ) -> Result<(), AllocError>
        ensures entries { OnOk result
            (entries self.new ≡ with_definition (entries self.old) label.entry definition.entry) }
        ensures tables { OnOk result
            (tables_of self.new
            ≡ with_definitions (tables_of self.old) (link_entry (label.entry, definition.entry) ∷ [])) }
        ensures names { names_of self.new ≡ names_of self.old }
        ensures refused { OnErr result (entries self.new ≡ entries self.old) }
    {
        self.refdefs.insert_first(label, definition)?;
        Ok(())
    }

    /// Adds the label of a footnote definition to its table, with use count 0, unless the table has a matching label.
    /// If `label` is a slice of the text, the table gets that slice, and otherwise a copy. Fails only if an allocation
    /// fails; then nothing changes (this project).
    pub fn define_footnote(&mut self, alloc: Global, label: &CowStr<'a>) -> Result<(), AllocError>
        ensures entries { OnOk result (AddsFootnote (entries self.old) (entries self.new) label.now) }
        ensures tables { OnOk result
            (tables_of self.new ≡ with_footnote_label (tables_of self.old) (text_of label.now)) }
        ensures names { names_of self.new ≡ names_of self.old }
        ensures refused { OnErr result (entries self.new ≡ entries self.old) }
    {
        let label = LabelKey::new(alloc, copy_of(alloc, label)?)?;
        let footnote = FootnoteDef { use_count: 0 };
        self.footdefs.insert_first(label, footnote)?;
        Ok(())
    }

    /// Looks up the link label at the start of `text`, which is what follows a `[` (CommonMark 4.7, 6.3). Returns the
    /// length of the label in bytes, with its `]`, and the link definition that has a matching label. Returns `None`
    /// if no label is there, or if no definition matches. The label may have line endings. Prefixes of containers in
    /// its further lines count as part of it. Fails only if an allocation fails.
    pub fn link_at(
        &self,
        alloc: Global,
        text: &str,
    ) -> Result<Option<(usize, &LinkDef<'a>)>, AllocError>
        ensures { IfOk result (λ found. option_map (λ f. (f.0, f.1.now)) found
            ≡ link_at_of (refdefs_of self.now) text.now) }
    {
        let Some((size, label)) = scan_label(alloc, text)? else {
            return Ok(None);
        };
        match self.refdefs.get(label.deref())? {
            Some(link) => Ok(Some((size, link))),
            None => Ok(None),
        }
    }

    /// Returns the string at this index of the list of strings, or an empty string if the list is too short.
    pub fn text_at(&self, ix: CowIndex) -> &str
        ensures { result.now ≡ text_named (names_of self.now) ix }
    {
        match self.texts.get(ix.0) {
            Some(text) => text.deref(),
            None => "",
        }
    }

    /// Returns the column alignments of a table at this index of their list, or an empty slice if the list is too
    /// short.
    pub fn alignments_at(&self, ix: AlignmentIndex) -> &[Alignment]
        ensures { result.now ≡ alignments_named (names_of self.now) ix }
    {
        match self.alignments.get(ix.0) {
            Some(alignments) => alignments.as_slice(),
            None => &[],
        }
    }

    /// Returns the attributes of a heading at this index of their list, or `None` if the list is too short.
    pub fn attributes_at(&self, ix: HeadingIndex) -> Option<&HeadingAttributes<'a>>
        ensures { option_map (λ h. attributes_in h.now) result ≡ slice_get (names_of self.now).headings ix.0 }
    {
        self.headings.get(ix.0)
    }
}

// Returns a copy of a string. It is borrowed if the string is borrowed. Fails only if an allocation fails.
fn copy_of<'a>(alloc: Global, text: &CowStr<'a>) -> Result<CowStr<'a>, AllocError>
    ensures { IfOk result (λ copy. IsCopy text.now copy) }
{
    match text {
        CowStr::Borrowed(text) => Ok(CowStr::Borrowed(text)),
        CowStr::Boxed(text) => Ok(CowStr::Boxed(BoxedStr::from_str(alloc, text.as_str())?)),
        CowStr::Inlined(text) => Ok(CowStr::Inlined(InlineStr::try_from_str(
            text.as_str(),
        ).unwrap())),
    }
}

// Returns the length of the prefix that is not part of a label in one of its further lines: always 0.
fn no_prefix(_line: &[u8]) -> Result<Option<usize>, AllocError>
    ensures { result ≡ Ok (Some 0) }
{
    Ok(Some(0))
}

// Returns the length of the label at the start of `text` in bytes, with its `]`, and the label as it is read. Returns
// `None` if no label is there. Fails only if an allocation fails.
fn scan_label<'t>(alloc: Global, text: &'t str) -> Result<Option<(usize, CowStr<'t>)>, AllocError>
    ensures { IfOk result (λ answer. MatchOption (label_at (λ further. Some 0) false text.now)
        (answer ≡ None)
        (λ label. IsSomeAnd answer (λ found. (found.0 ≡ label.0) × (text_of found.1 ≡ label.1)))) }
{
    scan_link_label_rest(alloc, text, |line: &[u8]| no_prefix(line), false)
}

impl<'a> Index<CowIndex> for Allocations<'a> {
    type Output = CowStr<'a>;

    ghost can_index = { λ allocs ix. ix.0 < length (names_of allocs).texts };

    ghost index_gives = { λ allocs ix named. slice_get (names_of allocs).texts ix.0 ≡ Some named };

    /// Returns the string at this index of the list of strings. The list must be long enough.
    fn index(&self, ix: CowIndex) -> &CowStr<'a> {
        &self.texts[ix.0]
    }
}

impl<'a> Index<AlignmentIndex> for Allocations<'a> {
    type Output = Vec<Alignment>;

    ghost can_index = { λ allocs ix. ix.0 < length (names_of allocs).alignments };

    ghost index_gives = { λ allocs ix named. slice_get (names_of allocs).alignments ix.0 ≡ Some named.items };

    /// Returns the column alignments of a table at this index of their list. The list must be long enough.
    fn index(&self, ix: AlignmentIndex) -> &Vec<Alignment> {
        &self.alignments[ix.0]
    }
}

impl<'a> Index<HeadingIndex> for Allocations<'a> {
    type Output = HeadingAttributes<'a>;

    ghost can_index = { λ allocs ix. ix.0 < length (names_of allocs).headings };

    ghost index_gives = { λ allocs ix named. slice_get (names_of allocs).headings ix.0 ≡ Some (attributes_in named) };

    /// Returns the attributes of a heading at this index of their list. The list must be long enough.
    fn index(&self, ix: HeadingIndex) -> &HeadingAttributes<'a> {
        &self.headings[ix.0]
    }
}
