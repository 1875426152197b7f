//! Tables of contents, as Markdown lists and in JSON, and the headings in lines of JSON.

use super::fakes::{Given, Program, run, words_of};
use first_pass_blocks::parser::BlockParser;
use first_pass_host::report::{Report, run_report};
use first_pass_host::tree_report::TreeReport;
use first_pass_outline::run::{ContentsJson, ContentsList, OutlineJson};
use std::process::Abort;
use std::test::Fail;

// The options of GitHub, and the word for heading attributes.
const GITHUB: &str = "2078";

const ATTRIBUTES: &str = "64";

// Words, a text and its list.
const LISTS: &[(&[&str], &str, &str)] = &[
    (&[], "a\n", ""),
    // Levels that are left out, and headings in containers.
    (
        &[ATTRIBUTES],
        "# One {#first}\n### 1. *b*\n> ## Two\n- # Three",
        "- [One](#first)\n  - 1\\. *b*\n  - Two\n- Three\n",
    ),
    (&[], "### a\n# b\n### c\n## d\n", "- a\n- b\n  - c\n  - d\n"),
    // The lines of a heading, with a backslash that was dropped, and both breaks.
    (&[], "\\*a  \n  b\\\n&amp; *c*\n=\n", "- \\*a b &amp; *c*\n"),
    // A backslash on a line of its own after an attribute block.
    (
        &[ATTRIBUTES],
        "> a {#x}\n> \\\n> ===\n> b {#y}\r> \\\r> ---\n",
        "- a  \\\n  - b  \\\n",
    ),
    // No link: brackets, a backslash at the end, and ids that no destination has.
    (
        &[ATTRIBUTES],
        "# [a] {#x}\n# b \\\\ {#y}\n# c {#z)}\n# {#w}\n",
        "- [a]\n- b \\\\\n- c\n- [](#w)\n",
    ),
    // Blocks that would begin in an item.
    (
        &[GITHUB],
        "# <div> of pages\n# <?php\n# <!-- draft\n# [a\\]b]: c\n# a | b\n## |-\n",
        "- \\<div> of pages\n- \\<?php\n- \\<!-- draft\n- \\[a\\]b]: c\n- a | b\n  - \\|-\n",
    ),
    (
        &[],
        "# - a\n# 12) a\n# --\n# > a\n# ~~~\n# # a\n# [ ] a\n# <a>\n# <a> b\n# [a] b\n# 1234567890. a\n# *a*\n",
        "- \\- a\n- 12\\) a\n- \\--\n- \\> a\n- \\~~~\n- \\# a\n- \\[ ] a\n- \\<a>\n- <a> b\n\
        - [a] b\n- 1234567890. a\n- *a*\n",
    ),
    // No text: only below a text it has a comment.
    (
        &[],
        "#\n# a\n##\n##\n# b\n### #\n",
        "-\n- a\n  - <!-- -->\n  -\n- b\n  - <!-- -->\n",
    ),
];

// Words, a text and its nested array.
const ARRAYS: &[(&[&str], &str, &str)] = &[
    (&[], "", "[]\n"),
    (
        &[],
        "# a\n### b\n## c\n# d\n",
        "[{\"level\":1,\"text\":\"a\",\"id\":null,\"start\":0,\"end\":4,\"children\":[\
        {\"level\":3,\"text\":\"b\",\"id\":null,\"start\":4,\"end\":10,\"children\":[]},\
        {\"level\":2,\"text\":\"c\",\"id\":null,\"start\":10,\"end\":15,\"children\":[]}]},\
        {\"level\":1,\"text\":\"d\",\"id\":null,\"start\":15,\"end\":19,\"children\":[]}]\n",
    ),
    (
        &[ATTRIBUTES],
        "# a {#\"}\n## b\n### c",
        "[{\"level\":1,\"text\":\"a\",\"id\":\"\\\"\",\"start\":0,\"end\":9,\"children\":[\
        {\"level\":2,\"text\":\"b\",\"id\":null,\"start\":9,\"end\":14,\"children\":[\
        {\"level\":3,\"text\":\"c\",\"id\":null,\"start\":14,\"end\":19,\"children\":[]}]}]}]\n",
    ),
];

// Words, a text and its lines.
const LINES: &[(&[&str], &str, &str)] = &[
    (
        &[ATTRIBUTES],
        "# One {#first}\n> ## é\n",
        "{\"level\":1,\"text\":\"One\",\"id\":\"first\",\"start\":0,\"end\":15}\n\
        {\"level\":2,\"text\":\"é\",\"id\":null,\"start\":17,\"end\":23}\n",
    ),
    (
        &[],
        "# \"a\\\\\u{1}\u{1f}\u{8}b\u{7f}\tc\n",
        "{\"level\":1,\"text\":\"\\\"a\\\\\\\\\\u0001\\u001f\\bb\u{7f}\\tc\",\"id\":null,\"start\":0,\"end\":14}\n",
    ),
];

// Asserts the output of a report.
fn assert_report<P: Report>(
    rt: &(impl Abort + AllocGlobal),
    report: &P,
    words: &[&str],
    text: &str,
    want: &str,
) -> Result<(), Fail> {
    let list = words_of(rt.alloc(), words)?;
    let mut input = text.as_bytes();
    let mut output = Vec::new(rt.alloc());
    let fault = run_report(report, rt.alloc(), list.as_slice(), &mut input, &mut output).err();
    let written = String::from_utf8_lossy(rt.alloc(), output.as_slice())?;
    assert!(rt; fault.is_none(), "{text:?}: {fault:?}");
    assert!(rt; written.as_str() == want, "{text:?}: {written}");
    Ok(())
}

#[test]
fn headings_are_a_list(rt: HostRuntime) -> Result<(), Fail> {
    for (words, text, want) in LISTS {
        assert_report(
            &rt,
            &TreeReport(BlockParser, ContentsList),
            words,
            text,
            want,
        )?;
    }
    Ok(())
}

#[test]
fn headings_are_nested_objects(rt: HostRuntime) -> Result<(), Fail> {
    for (words, text, want) in ARRAYS {
        assert_report(
            &rt,
            &TreeReport(BlockParser, ContentsJson),
            words,
            text,
            want,
        )?;
    }
    Ok(())
}

#[test]
fn headings_are_lines_of_json(rt: HostRuntime) -> Result<(), Fail> {
    for (words, text, want) in LINES {
        assert_report(
            &rt,
            &TreeReport(BlockParser, OutlineJson),
            words,
            text,
            want,
        )?;
    }
    Ok(())
}

// The number of lines with a word.
fn count_of(lines: &str, word: &str) -> usize {
    lines.lines().filter(|line| line.contains(word)).count()
}

// Each entry of a list is read as one item, under all options and under none.
#[test]
fn entries_are_items(rt: HostRuntime) -> Result<(), Fail> {
    for (_, _, list) in LISTS {
        for options in ["0", "65534"] {
            let words = [options];
            let given = Given::new(words.as_slice(), list.as_bytes());
            let ran = run(rt.alloc(), Program::Blocks, given)?;
            let tree = String::from_utf8_lossy(rt.alloc(), ran.bytes.as_slice())?;
            let items = count_of(tree.as_str(), "ListItem(");
            assert_eq!(rt; items, list.lines().count(), "{list:?}");
        }
    }
    Ok(())
}
