//! Calls of tables that allocate, each made many times.

use crate::outcome::Outcome;
use first_pass_attributes::attrs::ShortList;
use first_pass_items::cow_str::CowStr;
use first_pass_items::item::{Alignment, AlignmentIndex, CowIndex, HeadingIndex};
use first_pass_labels::label_key::LabelKey;
use first_pass_labels::label_table::{LinkDef, LinkPlaces};
use first_pass_names::items::{Allocations, HeadingAttributes};
use std::alloc::{AllocError, Global};
use std::ops::DerefStr;

// The words that are added to the tables one after another, in the order of labels. A table of labels has no room for
// all of them after its first allocation, so that a later one can fail while it has entries.
const WORDS: [&str; 17] = [
    "a", "b", "c", "d", "e", "f", "g", "h", "i", "j", "k", "l", "m", "n", "o", "p", "q",
];

// The number of texts, of alignments and of attributes that are added.
const TIMES: usize = 12;

// The alignments of a table of one column.
const COLUMNS: [Alignment; 1] = [Alignment::Center];

/// Makes the call with this name. Returns `None` if no call here has it, and an error if an allocation of the test
/// itself failed.
pub fn call_tables(alloc: Global, call: &str) -> Option<Result<Outcome, AllocError>> {
    match call {
        "allocate_cow" => Some(add_each(alloc, Entry::Text, TIMES)),
        "allocate_alignment" => Some(add_each(alloc, Entry::Alignments, TIMES)),
        "allocate_heading" => Some(add_each(alloc, Entry::Heading, TIMES)),
        "define_link" => Some(add_each(alloc, Entry::Link, WORDS.len())),
        "define_footnote" => Some(add_each(alloc, Entry::Footnote, WORDS.len())),
        "get" => Some(get(alloc)),
        _ => None,
    }
}

// The number of entries in tables, made of the first words.
#[derive(Clone, Copy)]
struct Counts {
    texts: usize,
    alignments: usize,
    headings: usize,
    links: usize,
    footnotes: usize,
}

// The counts of empty tables.
const NONE: Counts = Counts {
    texts: 0,
    alignments: 0,
    headings: 0,
    links: 0,
    footnotes: 0,
};

// Whether tables have these numbers of entries, made of the first words: texts, alignments of one column, attributes
// with only an id, link definitions with that destination, and footnotes.
fn has(allocs: &Allocations<'_>, counts: Counts) -> bool {
    for at in 0..WORDS.len() {
        let text = if at < counts.texts { WORDS[at] } else { "" };
        let columns: &[Alignment] = if at < counts.alignments {
            &COLUMNS
        } else {
            &[]
        };
        let is_kept = allocs.text_at(CowIndex(at)) == text
            && allocs.alignments_at(AlignmentIndex(at)) == columns
            && has_heading(allocs, at, at < counts.headings);
        if !is_kept {
            return false;
        }
    }
    has_links(allocs, counts.links) && has_footnotes(allocs, counts.footnotes)
}

// Whether the attributes at this index have this id, or there are none, as is expected.
fn has_heading(allocs: &Allocations<'_>, at: usize, is_wanted: bool) -> bool {
    match allocs.attributes_at(HeadingIndex(at)) {
        Some(given) => {
            is_wanted
                && given.id == WORDS.get(at).copied()
                && given.classes.is_empty()
                && given.attrs.is_empty()
        }
        None => !is_wanted,
    }
}

fn has_links(allocs: &Allocations<'_>, count: usize) -> bool {
    let mut at = 0;
    for (label, link) in allocs.refdefs().iter() {
        let is_wanted = match WORDS.get(at) {
            Some(word) => {
                label.label() == *word
                    && label.folding() == *word
                    && link.dest.deref() == *word
                    && link.title.is_none()
                    && link.span == (0..0)
            }
            None => false,
        };
        if !is_wanted {
            return false;
        }
        at = at.saturating_add(1);
    }
    at == count
}

fn has_footnotes(allocs: &Allocations<'_>, count: usize) -> bool {
    let mut at = 0;
    for (label, footnote) in allocs.footdefs().iter() {
        let is_wanted = match WORDS.get(at) {
            Some(word) => label.label() == *word && label.folding() == *word,
            None => false,
        };
        if !is_wanted || footnote.use_count != 0 {
            return false;
        }
        at = at.saturating_add(1);
    }
    at == count
}

// What is added to the tables.
#[derive(Clone, Copy)]
enum Entry {
    Text,
    Alignments,
    Heading,
    Link,
    Footnote,
}

impl Entry {
    // The counts of tables that have only this number of such entries.
    fn counts(self, count: usize) -> Counts {
        let mut counts = NONE;
        match self {
            Entry::Text => counts.texts = count,
            Entry::Alignments => counts.alignments = count,
            Entry::Heading => counts.headings = count,
            Entry::Link => counts.links = count,
            Entry::Footnote => counts.footnotes = count,
        }
        counts
    }

    // Adds such an entry with this word. Returns the error of the call, or whether the index that it returned is `at`;
    // true if it returns none. Fails if an allocation of the test itself fails.
    fn add(
        self,
        alloc: Global,
        allocs: &mut Allocations<'_>,
        at: usize,
        word: &'static str,
    ) -> Result<Result<bool, AllocError>, AllocError> {
        Ok(match self {
            Entry::Text => allocs
                .allocate_cow(CowStr::Borrowed(word))
                .map(|ix| ix == CowIndex(at)),
            Entry::Alignments => allocs
                .allocate_alignment(vec![in alloc; Alignment::Center]?)
                .map(|ix| ix == AlignmentIndex(at)),
            Entry::Heading => allocs
                .allocate_heading(with_id(word))
                .map(|ix| ix == HeadingIndex(at)),
            Entry::Link => define(alloc, allocs, word, word).map(|_| true),
            Entry::Footnote => allocs
                .define_footnote(alloc, &CowStr::Borrowed(word))
                .map(|_| true),
        })
    }
}

// Adds this number of entries to empty tables.
fn add_each(alloc: Global, entry: Entry, times: usize) -> Result<Outcome, AllocError> {
    let mut allocs = Allocations::new(alloc);
    let mut outcome = Outcome::Usual;
    for at in 0..times {
        outcome = add_one(alloc, entry, &mut allocs, at, outcome)?;
        if !outcome.is_good() {
            return Ok(outcome);
        }
    }
    Ok(outcome)
}

// Adds the entry with this number to tables that have those before it. A call that is refused is made again. Returns
// the outcome of all calls, from that of the earlier ones.
fn add_one(
    alloc: Global,
    entry: Entry,
    allocs: &mut Allocations<'_>,
    at: usize,
    earlier: Outcome,
) -> Result<Outcome, AllocError> {
    let word = WORDS.get(at).copied().unwrap_or("");
    let mut outcome = earlier;
    let mut added = entry.add(alloc, allocs, at, word)?;
    if added.is_err() {
        outcome = outcome.refused(has(allocs, entry.counts(at)));
        if outcome != Outcome::Refused {
            return Ok(outcome);
        }
        added = entry.add(alloc, allocs, at, word)?;
    }
    let after = entry.counts(at.saturating_add(1));
    if added != Ok(true) || !has(allocs, after) {
        return Ok(Outcome::Differs);
    }
    Ok(outcome)
}

fn with_id(id: &str) -> HeadingAttributes<'_> {
    HeadingAttributes {
        id: Some(id),
        classes: ShortList::new(),
        attrs: ShortList::new(),
    }
}

// The places of a definition that no text contains.
const NO_PLACES: LinkPlaces = LinkPlaces {
    label_end: 0,
    dest_start: 0,
    dest_end: 0,
    title_start: 0,
};

// Adds a link definition with this label and destination. Making the key of the label may fail too.
fn define(
    alloc: Global,
    allocs: &mut Allocations<'_>,
    label: &'static str,
    dest: &'static str,
) -> Result<(), AllocError> {
    let label = LabelKey::new(alloc, CowStr::Borrowed(label))?;
    let definition = LinkDef {
        dest: CowStr::Borrowed(dest),
        title: None,
        span: 0..0,
        places: NO_PLACES,
    };
    allocs.define_link(label, definition)
}

// A label of more than 22 bytes is copied to the heap, and then folded.
fn finds(allocs: &Allocations<'_>) -> Result<bool, AllocError> {
    match allocs
        .refdefs()
        .get("A label of more than twenty-two bytes")
    {
        Ok(Some(found)) => Ok(found.dest.deref() == "x"),
        Ok(None) => Ok(false),
        Err(refused) => Err(refused),
    }
}

// Whether the only link definition has this label and the destination `x`.
fn has_only(allocs: &Allocations<'_>, wanted: &str) -> bool {
    let mut count: usize = 0;
    for (label, link) in allocs.refdefs().iter() {
        if label.label() != wanted || link.dest.deref() != "x" {
            return false;
        }
        count = count.saturating_add(1);
    }
    count == 1
}

fn get(alloc: Global) -> Result<Outcome, AllocError> {
    let mut allocs = Allocations::new(alloc);
    let long = "A Label Of More Than Twenty-Two Bytes";
    define(alloc, &mut allocs, long, "x")?;
    Ok(get_from(&allocs, long))
}

// Finds the only definition, which has this label. A call that is refused is made again.
fn get_from(allocs: &Allocations<'_>, label: &str) -> Outcome {
    let (found, outcome) = match finds(allocs) {
        Ok(found) => (found, Outcome::Usual),
        Err(_) => {
            if !has_only(allocs, label) {
                return Outcome::Changed;
            }
            match finds(allocs) {
                Ok(found) => (found, Outcome::Refused),
                Err(_) => return Outcome::Differs,
            }
        }
    };
    if found { outcome } else { Outcome::Differs }
}
