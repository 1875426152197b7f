//! Labels that match after case folding, and the greatest permitted number of their characters.

use first_pass_items::cow_str::CowStr;
use first_pass_labels::label_key::LabelKey;
use first_pass_labels::label_table::{FootDefs, FootnoteDef, LinkDef, LinkPlaces, RefDefs};
use first_pass_lines::sample::Sample;
use first_pass_links::label::scan_link_label_rest;
use std::alloc::{AllocError, Global};
use std::ops::DerefStr;
use std::test::Fail;

// A call of a table of definitions.
#[derive(Clone, Copy)]
enum Step<'a> {
    /// Defines a label with this destination.
    Define(&'a str, &'a str),
    Sort,
    Reserve,
    /// Notes each label with its destination, in the order of the table. Then notes the destination under each of
    /// these labels, or `-`.
    State(&'a [&'a str]),
}

fn key<'a>(alloc: Global, label: &'a str) -> Result<LabelKey<'a>, AllocError> {
    LabelKey::new(alloc, CowStr::Borrowed(label))
}

fn link<'a>(dest: &'a str) -> LinkDef<'a> {
    LinkDef {
        dest: CowStr::Borrowed(dest),
        title: None,
        span: 0..0,
        places: LinkPlaces {
            label_end: 0,
            dest_start: 0,
            dest_end: 0,
            title_start: 0,
        },
    }
}

fn define<'a>(
    alloc: Global,
    links: &mut RefDefs<'a>,
    label: &'a str,
    dest: &'a str,
) -> Result<(), AllocError> {
    links.insert_first(key(alloc, label)?, link(dest))
}

fn note(notes: &mut String, text: &str) -> Result<(), AllocError> {
    notes.push_str(text)?;
    notes.push_str(", ")
}

fn note_all(links: &RefDefs<'_>, notes: &mut String) -> Result<(), AllocError> {
    for (label, link) in links.iter() {
        notes.push_str(label.label())?;
        notes.push_str(" ")?;
        note(notes, link.dest.deref())?;
    }
    Ok(())
}

fn note_found(links: &RefDefs<'_>, label: &str, notes: &mut String) -> Result<(), AllocError> {
    match links.get(label)? {
        Some(link) => note(notes, link.dest.deref()),
        None => note(notes, "-"),
    }
}

fn note_state(links: &RefDefs<'_>, labels: &[&str], notes: &mut String) -> Result<(), AllocError> {
    note_all(links, notes)?;
    for label in labels {
        note_found(links, *label, notes)?;
    }
    Ok(())
}

fn take<'a>(
    alloc: Global,
    links: &mut RefDefs<'a>,
    step: Step<'a>,
    notes: &mut String,
) -> Result<(), AllocError> {
    match step {
        Step::Define(label, dest) => define(alloc, links, label, dest),
        Step::Sort => links.sort(),
        Step::Reserve => links.reserve_for(Sample { read: 1, rest: 9 }, 40),
        Step::State(labels) => note_state(links, labels, notes),
    }
}

// What the steps note of a table that is empty at first.
fn append_notes(alloc: Global, steps: &[Step<'_>], notes: &mut String) -> Result<(), AllocError> {
    let mut links = RefDefs::new(alloc);
    for step in steps {
        take(alloc, &mut links, *step, notes)?;
    }
    Ok(())
}

fn notes_of(alloc: Global, steps: &[Step<'_>]) -> Result<String, AllocError> {
    let mut notes = String::new(alloc);
    append_notes(alloc, steps, &mut notes)?;
    Ok(notes)
}

// The first of several matching definitions counts, and labels match after case folding (CommonMark 4.7, 6.3).
#[test]
fn first_definitions_stay(rt: HostRuntime) -> Result<(), Fail> {
    let long = "A Label Of More Than Twenty-Two Bytes";
    let steps = [
        Step::Define("\u{391}\u{393}\u{3a9}", "u"),
        Step::Define("\u{1e9e}", "x"),
        Step::Define(long, "l"),
        Step::Define("SS", "y"),
        Step::State(&["ss", "\u{df}", "\u{3b1}\u{3b3}\u{3c9}", long, "s"]),
    ];
    let want =
        "A Label Of More Than Twenty-Two Bytes l, \u{1e9e} x, \u{391}\u{393}\u{3a9} u, x, x, u, l, -, ";
    assert_eq!(rt; notes_of(rt.alloc(), &steps)?.as_str(), want);
    Ok(())
}

// A sorted table gives the same results as before, and takes further definitions. Labels of this test have their first
// eight or sixteen bytes in common.
#[test]
fn sorting_changes_no_result(rt: HostRuntime) -> Result<(), Fail> {
    let first = Step::State(&["A LONG LABEL OF TWO", "SS", "a long label", "a", "B"]);
    let steps = [
        Step::Define("a long label of two", "1"),
        Step::Define("b", "2"),
        Step::Define("A long label of one", "3"),
        Step::Define("a LONG label of two", "4"),
        Step::Define("a long lane", "5"),
        Step::Define("\u{df}", "6"),
        first,
        Step::Sort,
        Step::Reserve,
        first,
        Step::Define("B", "7"),
        first,
        Step::Define("A", "8"),
        Step::State(&["a"]),
        Step::Sort,
        Step::State(&["a"]),
    ];
    let notes = notes_of(rt.alloc(), &steps)?;
    let want =
        "A long label of one 3, a long label of two 1, a long lane 5, b 2, \u{df} 6, 1, 6, -, -, 2, \
        A long label of one 3, a long label of two 1, a long lane 5, b 2, \u{df} 6, 1, 6, -, -, 2, \
        A long label of one 3, a long label of two 1, a long lane 5, b 2, \u{df} 6, 1, 6, -, -, 2, \
        A 8, A long label of one 3, a long label of two 1, a long lane 5, b 2, \u{df} 6, 8, \
        A 8, A long label of one 3, a long label of two 1, a long lane 5, b 2, \u{df} 6, 8, ";
    assert_eq!(rt; notes.as_str(), want);
    Ok(())
}

fn define_footnote<'a>(
    alloc: Global,
    footnotes: &mut FootDefs<'a>,
    label: &'a str,
    use_count: usize,
) -> Result<(), AllocError> {
    footnotes.insert_first(key(alloc, label)?, FootnoteDef { use_count })
}

// The count under a label, after two definitions of the same footnote.
fn use_count(alloc: Global, label: &str) -> Result<Option<usize>, AllocError> {
    let mut footnotes = FootDefs::new(alloc);
    define_footnote(alloc, &mut footnotes, "Note", 0)?;
    define_footnote(alloc, &mut footnotes, "nOTE", 9)?;
    Ok(footnotes.get(label)?.map(|footnote| footnote.use_count))
}

#[test]
fn first_footnotes_stay(rt: HostRuntime) -> Result<(), Fail> {
    assert_eq!(rt; use_count(rt.alloc(), "NOTE")?, Some(0));
    Ok(())
}

// Whether the key of a label equals another one, and whether it is less.
fn compare(alloc: Global, label: &str, other: &str) -> Result<(bool, bool), AllocError> {
    let (label, other) = (key(alloc, label)?, key(alloc, other)?);
    Ok((label == other, label < other))
}

fn has_folding(alloc: Global, label: &str, folding: &str) -> Result<bool, AllocError> {
    let key = key(alloc, label)?;
    Ok(key.label() == label && key.folding() == folding)
}

#[test]
fn keys_compare_by_folding(rt: HostRuntime) -> Result<(), Fail> {
    let sharp = "\u{1e9e}";
    assert_eq!(rt; compare(rt.alloc(), sharp, "SS")?, (true, false));
    assert_eq!(rt; compare(rt.alloc(), "Sr", sharp)?, (false, true));
    assert!(rt; has_folding(rt.alloc(), sharp, "ss")?);
    Ok(())
}

// Whether a text of this many characters, the last of which is white space, is a label.
fn fits(alloc: Global, characters: usize) -> Result<bool, AllocError> {
    let mut text = String::new(alloc);
    for _ in 1..characters {
        text.push('\u{e9}')?;
    }
    text.push_str(" ]")?;
    is_label(alloc, text.as_str())
}

fn is_label(alloc: Global, text: &str) -> Result<bool, AllocError> {
    let label = scan_link_label_rest(alloc, text, |_line: &[u8]| Ok(None), false)?;
    Ok(label.is_some())
}

// CommonMark 4.7: at most 999 characters.
#[test]
fn labels_end(rt: HostRuntime) -> Result<(), Fail> {
    for (characters, fit) in [(999, true), (1000, false)] {
        assert_eq!(rt; fits(rt.alloc(), characters)?, fit, "{characters}");
    }
    Ok(())
}
