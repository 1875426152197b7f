//! Each call of the pass that allocates, once without a failing allocation.

ghost use Rattle.first_pass.specs.Views.{source_text};
ghost use Rattle.std.specs.Prelude.{◌≡◌, IsCharBoundary};

use bitflags::Flags;
use first_pass::below::{Item, ItemBody, TreeIndex};
use first_pass::flank::TableParseMode;
use first_pass::pass::{
    FirstPass, HtmlEnd, PassState, count_header_cols, run_first_pass, surgerize_tight_list,
};
use first_pass_items::option_set::Options;
use first_pass_lines::lines::{scan_atx_heading, scan_blank_line};
use first_pass_lines::places::rest_of;
use first_pass_scan::leaf_scan::scan_code_fence;
use std::alloc::{AllocError, Global};
use std::test::Fail;

const TEXT: &str = "# a\nb\\\nc";

// A call that reads a block of a text, or a part of one, from a place on.
#[derive(Clone, Copy)]
enum Call {
    Block,
    Footnote,
    Heading,
    Paragraph,
    Rule,
    Fenced,
    Indented,
    Metadata,
    Html(HtmlEnd),
    Division,
    // Up to the end of the text, after two columns.
    CodeText,
    HtmlLine,
}

// Makes a call, and returns where the pass reads on, or the length of a footnote definition's head. Returns `None` if
// the call does not fit the text, and for `CodeText` and `HtmlLine`.
fn read(
    pass: &mut FirstPass<'_>,
    text: &str,
    start: usize,
    call: Call,
) -> Result<Option<usize>, AllocError>
    requires text { source_text pass.old ≡ text.now }
    requires place { IsCharBoundary text.now start }
{
    let rest = rest_of(text.as_bytes(), start);
    let next = match call {
        Call::Block if !rest.is_empty() => pass.parse_block(start)?,
        Call::Footnote => return pass.parse_footnote(start),
        Call::Heading => match scan_atx_heading(rest) {
            Some(level) => pass.parse_atx_heading(start, level)?,
            None => return Ok(None),
        },
        Call::Paragraph => pass.parse_paragraph(start, None)?,
        Call::Rule => pass.parse_hrule(rest.len(), start)?,
        Call::Fenced => match scan_code_fence(rest) {
            Some((count, byte)) => pass.parse_fenced_code_block(start, 0, byte, count)?,
            None => return Ok(None),
        },
        Call::Indented if scan_blank_line(rest).is_none() => {
            pass.parse_indented_code_block(start, 0)?
        }
        Call::Metadata => pass.parse_metadata_block(start, b'+')?,
        Call::Html(end) => pass.parse_html_block_type_1_to_5(start, end, 0, 0)?,
        Call::Division => pass.parse_html_block_type_6_or_7(start, 0, 0)?,
        Call::CodeText => return pass.append_code_text(2, start, text.len()).map(|_| None),
        Call::HtmlLine => return pass.append_html_line(0, start, text.len()).map(|_| None),
        _ => return Ok(None),
    };
    Ok(Some(next))
}

// What a call on a new pass returns, and the number of nodes in the tree after it. Returns `None` and 0 if the
// place is within a character.
fn made(
    alloc: Global,
    text: &str,
    options: Options,
    start: usize,
    call: Call,
) -> Result<(Option<usize>, usize), AllocError> {
    let mut pass = FirstPass::new(alloc, text, options)?;
    if !text.is_char_boundary(start) {
        return Ok((None, 0));
    }
    let returned = read(&mut pass, text, start, call)?;
    Ok((returned, pass.pass.state.tree.node_count()))
}

#[test]
fn blocks_of_a_text(rt: HostRuntime) -> Result<(), Fail> {
    for (text, start, call, returned, nodes) in [
        (TEXT, 0, Call::Block, Some(4), 3),
        (TEXT, 0, Call::Heading, Some(4), 3),
        (TEXT, 4, Call::Paragraph, Some(8), 5),
        ("***\n", 0, Call::Rule, Some(4), 2),
        ("```x\na\n```\n", 0, Call::Fenced, Some(11), 3),
        ("    a\n\n", 4, Call::Indented, Some(7), 3),
        ("+++\na\n+++\n", 0, Call::Metadata, Some(10), 3),
        (
            "<!-- a\n-->\nb",
            0,
            Call::Html(HtmlEnd::Text("-->")),
            Some(11),
            4,
        ),
        (
            "<pre>\n</STYLE>\na",
            0,
            Call::Html(HtmlEnd::AnyRawTag),
            Some(15),
            4,
        ),
        ("<div>\n\na", 0, Call::Division, Some(6), 3),
        ("a\r\n", 0, Call::CodeText, None, 4),
        ("a\r\n", 0, Call::HtmlLine, None, 3),
    ] {
        let came = made(rt.alloc(), text, Options::empty(), start, call)?;
        assert!(rt; came == (returned, nodes), "{text} from {start}: {came:?}");
    }
    Ok(())
}

#[test]
fn heads_of_footnotes(rt: HostRuntime) -> Result<(), Fail> {
    for (text, options, returned, nodes) in [
        ("[^a]: b", Options::ENABLE_FOOTNOTES, Some(6), 2),
        ("[^a]: b", Options::ENABLE_OLD_FOOTNOTES, Some(5), 2),
        ("[a]: b", Options::ENABLE_FOOTNOTES, None, 1),
    ] {
        let came = made(rt.alloc(), text, options, 0, Call::Footnote)?;
        assert!(rt; came == (returned, nodes), "{text}");
    }
    Ok(())
}

// The labels of the footnotes that a text defines, in GitHub's form, each with its number of uses.
fn footnote_labels(alloc: Global, text: &str) -> Result<String, AllocError> {
    let (_tree, allocs) = run_first_pass(alloc, text, Options::ENABLE_FOOTNOTES)?;
    let mut labels = String::new(alloc);
    for (label, footnote) in allocs.footdefs().iter() {
        write!(labels, "{} {}, ", label.label(), footnote.use_count)?;
    }
    Ok(labels)
}

// The number of uses of the footnote with a label, in GitHub's form.
fn uses(alloc: Global, text: &str, label: &str) -> Result<Option<usize>, AllocError> {
    let (_tree, allocs) = run_first_pass(alloc, text, Options::ENABLE_FOOTNOTES)?;
    match allocs.footdefs().get(label)? {
        Some(footnote) => Ok(Some(footnote.use_count)),
        None => Ok(None),
    }
}

#[test]
fn footnotes_of_a_text(rt: HostRuntime) -> Result<(), Fail> {
    for (text, want) in [
        ("[^A]: > [^a]: c", "A 0, "),
        ("> [^b]: > [^a]: c\n\n[^A]: d", "a 0, b 0, "),
        ("[^A]: x\n\n[^a]: y", "A 0, "),
    ] {
        assert!(rt;
            footnote_labels(rt.alloc(), text)?.as_str() == want,
            "{text}"
        );
    }
    assert_eq!(rt; uses(rt.alloc(), "[^A]: x\n\n[^a]: y", "a")?, Some(0));
    Ok(())
}

// Whether a line that doesn't continue all containers interrupts a paragraph, for a pass that has read nothing.
fn interrupts_lazily(alloc: Global, text: &str, line: &str) -> Result<bool, AllocError> {
    let pass = FirstPass::new(alloc, text, Options::empty())?;
    pass.scan_paragraph_interrupt(line, false, 0)
}

// The number of bytes in a one-line text before its rest as the continuation of a run of link reference definitions.
fn bytes_before_rest(alloc: Global, text: &str) -> Result<Option<usize>, AllocError> {
    let mut pass = FirstPass::new(alloc, text, Options::empty())?;
    match pass.scan_next_line_or_lazy_continuation(text.as_bytes())? {
        Some(rest) => Ok(Some(rest.bytes_scanned())),
        None => Ok(None),
    }
}

#[test]
fn lines_after_others(rt: HostRuntime) -> Result<(), Fail> {
    assert!(rt; interrupts_lazily(rt.alloc(), TEXT, "2. b")?);
    assert_eq!(rt; bytes_before_rest(rt.alloc(), " \ta\n")?, Some(2));
    assert_eq!(rt; bytes_before_rest(rt.alloc(), "     \n")?, None);
    Ok(())
}

// The number of tight paragraphs in a text that is one list, after all of them are made tight.
fn count_tightened(alloc: Global, text: &str) -> Result<usize, AllocError> {
    let (mut tree, _allocs) = run_first_pass(alloc, text, Options::empty())?;
    let list = TreeIndex(1);
    if list.0 < tree.node_count() {
        surgerize_tight_list(&mut tree, list);
    }
    let is_tight = |node: &&(usize, Item)| node.1.body == ItemBody::TightParagraph;
    Ok(tree.nodes().iter().filter(is_tight).count())
}

#[test]
fn calls_without_a_pass(rt: HostRuntime) -> Result<(), Fail> {
    assert_eq!(rt; count_header_cols(b"a|b", 1, 0, 1), 2);
    assert_eq!(rt; count_tightened(rt.alloc(), "- a\n\n- b")?, 2);
    Ok(())
}

// Where reading a line ends in a mode, and the range of the line break or table that it returns. The line is read up to
// `end` at most. The text comes with the options of the pass.
fn line_read(
    alloc: Global,
    (text, options): (&str, Options),
    start: usize,
    end: Option<usize>,
    mode: TableParseMode,
) -> Result<(usize, Option<(usize, usize)>), AllocError> {
    let mut pass = FirstPass::new(alloc, text, options)?;
    let most = end.unwrap_or(text.len());
    if most < start || text.len() < most {
        return Ok((0, None));
    }
    let (next, item) = pass.parse_line(start, end, mode)?;
    Ok((next, item.map(|item| (item.start, item.end))))
}

#[test]
fn a_line_in_each_mode(rt: HostRuntime) -> Result<(), Fail> {
    let plain = (TEXT, Options::empty());
    let table = ("a|b\n-|-\n", Options::ENABLE_TABLES);
    let indented = ("  a|b\n  -|-\nc", Options::ENABLE_TABLES);
    for (source, start, end, mode, want) in [
        (
            plain,
            4,
            Some(8),
            TableParseMode::Disabled,
            (7, Some((5, 7))),
        ),
        (plain, 4, Some(5), TableParseMode::Disabled, (5, None)),
        (table, 0, None, TableParseMode::Disabled, (4, Some((3, 4)))),
        (table, 0, None, TableParseMode::Active, (1, None)),
        (table, 0, None, TableParseMode::Scan, (8, Some((3, 8)))),
        (indented, 2, None, TableParseMode::Scan, (12, Some((5, 12)))),
    ] {
        assert!(rt;
            line_read(rt.alloc(), source, start, end, mode)? == want,
            "{0} {end:?}",
            source.0
        );
    }
    Ok(())
}

// Opens a block of this kind at the start of a text, before anything is read.
fn open(state: &mut PassState, body: ItemBody) -> Result<(), AllocError> {
    let item = Item {
        start: 0,
        end: 0,
        body,
    };
    state.tree.append(item)?;
    state.tree.push()?;
    Ok(())
}

// Whether a `:` interrupts the text in an open block of this kind, in a line that continues that block.
fn colon_interrupts(alloc: Global, body: ItemBody) -> Result<bool, AllocError> {
    let mut pass = FirstPass::new(alloc, "a\n: b", Options::ENABLE_DEFINITION_LIST)?;
    let reader = &mut pass.pass;
    open(&mut reader.state, body)?;
    pass.scan_paragraph_interrupt(": b", true, 1)
}

#[test]
fn colons_after_text(rt: HostRuntime) -> Result<(), Fail> {
    for (body, interrupts) in [
        (ItemBody::Paragraph, true),
        (ItemBody::TightParagraph, true),
        (ItemBody::MaybeDefinitionListTitle, true),
        (ItemBody::DefinitionListTitle, false),
        (ItemBody::BlockQuote(None), false),
    ] {
        assert_eq!(rt; colon_interrupts(rt.alloc(), body)?, interrupts);
    }
    Ok(())
}

// Where reading continues after a paragraph that its own call adds to an empty item, and after the blank line there.
// The item is no longer empty.
fn ends_in_an_empty_item(alloc: Global) -> Result<(usize, usize), AllocError> {
    let text = "-\n  a\n\n\nb";
    let mut pass = FirstPass::new(alloc, text, Options::empty())?;
    pass.parse_block(0)?;
    let following = pass.parse_paragraph(4, None)?;
    if following >= text.len() {
        return Ok((following, following));
    }
    Ok((following, pass.parse_block(following)?))
}

// The end of the content of a heading's text, and whether its attributes have the id `x`.
fn content_end(alloc: Global, options: Options) -> Result<(usize, bool), AllocError> {
    let pass = FirstPass::new(alloc, "a {#x}\n", options)?;
    let (end, given) = pass.extract_and_parse_heading_attribute_block(0, 6)?;
    Ok((
        end,
        given.is_some_and(|attributes| attributes.id == Some("x")),
    ))
}

#[test]
fn parts_of_a_text(rt: HostRuntime) -> Result<(), Fail> {
    assert!(rt; ends_in_an_empty_item(rt.alloc())? == (6, 7));
    let with_attributes = Options::ENABLE_HEADING_ATTRIBUTES;
    assert!(rt; content_end(rt.alloc(), with_attributes)? == (2, true));
    assert!(rt; content_end(rt.alloc(), Options::empty())? == (6, false));
    Ok(())
}
