//! The output of `links` for texts, and its faults.

use super::fakes::{Given, Program, assert_fault, assert_lines};
use first_pass_host::fault::RunFault;
use std::test::Fail;

// Options, a text and its lines.
const TEXTS: &[(&str, &[u8], &str)] = &[
    // An inline link and an inline image with titles, an empty target, and a link around an image.
    (
        "0",
        b"[a](b \"c\") ![d](<e f> 'g') [h]() [![i](j)](k (l))\n",
        "link inline b \"c\" 0..10 1..2\n\
        image inline e f \"g\" 11..26 13..14\n\
        link inline  27..32 28..29\n\
        link inline k \"l\" 33..49 34..41\n\
        image inline j 34..41 36..37\n",
    ),
    // Escapes and references in a destination and a title. A newline and a backslash are printed as escapes.
    (
        "0",
        b"[a](\\*&amp;\\\\ \"\\\"&#10;b\")\n",
        "link inline *&\\\\ \"\"\\nb\" 0..25 1..2\n",
    ),
    // The label of two definitions in another case; the first definition counts. Then the three forms of references.
    (
        "0",
        b"[a]: /1 \"b\"\n[A]: /2\n\n[A] [x][a] ![a][] [y][no]\n",
        "definition [a]: /1 \"b\" 0..11\n\
        link shortcut /1 \"b\" 21..24 22..23\n\
        link full /1 \"b\" 25..31 26..27\n\
        image collapsed /1 \"b\" 32..38 34..35\n\
        undefined [no] 39..46\n",
    ),
    // A link in a link, which makes the outer one text, and in an image.
    (
        "0",
        b"[a [b](c)](d) ![a [b](c)](d)\n",
        "link inline c 3..9 4..5\n\
        image inline d 14..28 16..24\n\
        link inline c 18..24 19..20\n",
    ),
    // Brackets around a reference, and of two blocks.
    (
        "0",
        b"[[a] ]\n\n# [a\n]\n\n[a]: /x\n",
        "definition [a]: /x 16..23\n\
        link shortcut /x 1..4 2..3\n",
    ),
    // Brackets in code, in a tag and in an autolink, all of which bind tighter.
    (
        "0",
        b"`[a`] <b c=\"[a]\"> <http://[a]> [a]\n\n[a]: /x\n",
        "definition [a]: /x 36..43\n\
        autolink uri http://[a] 18..30 19..29\n\
        link shortcut /x 31..34 32..33\n",
    ),
    // The two forms of autolinks, and none.
    (
        "0",
        b"<ab:c\\d> <m@n.o> <a b:c>\n",
        "autolink uri ab:c\\\\d 0..8 1..7\n\
        autolink email m@n.o 9..16 10..15\n",
    ),
    // A label over two lines of a quote, and a target over two lines of an item.
    (
        "0",
        b"> [a\n> b]\n\n- [c](d\n  \"e\n  f\")\n\n[a b]: /x\n",
        "definition [a b]: /x 31..40\n\
        link shortcut /x 2..9 3..8\n\
        link inline d \"e\\nf\" 13..29 14..15\n",
    ),
    // An escaped bracket at the start of the second line of a label.
    (
        "0",
        b"> [a\n> \\]]\n\n[a \\]]: /x\n",
        "definition [a \\]]: /x 12..22\n\
        link shortcut /x 2..10 3..9\n",
    ),
    // A backslash that makes a line break.
    (
        "0",
        b"[a\\\nb]\n\n[a\\ b]: /x\n",
        "definition [a\\ b]: /x 8..18\n\
        link shortcut /x 0..6 1..5\n",
    ),
    // Pipes of cells in a label, in a destination and in a wikilink.
    (
        "32770",
        b"|[a\\|b]|[c](d\\|e)|[[f\\|g]]|\n|-|-|-|\n\n[a|b]: /x\n",
        "definition [a|b]: /x 37..46\n\
        link shortcut /x 1..7 2..6\n\
        link inline d|e 8..17 9..10\n\
        link wikilink f 18..26 23..24\n",
    ),
    // The same without wikilinks.
    (
        "2",
        b"|[a\\|b]|[c](d\\|e)|[[f\\|g]]|\n|-|-|-|\n\n[a|b]: /x\n",
        "definition [a|b]: /x 37..46\n\
        link shortcut /x 1..7 2..6\n\
        link inline d|e 8..17 9..10\n\
        undefined [f|g] 19..25\n",
    ),
    // A reference in a footnote; references to it in another case, after `!` and in brackets that are then no link;
    // one to no footnote.
    (
        "4",
        b"[a]: /x\n\n[^n]: [a] [^N] ![^n] [^no] [b [^n]](c)",
        "definition [a]: /x 0..7\n\
        footnote [^n] 9..47\n\
        link shortcut /x 15..18 16..17\n\
        footnote-reference [^N] 19..23\n\
        footnote-reference [^n] 25..29\n\
        undefined [^no] 30..35\n\
        footnote-reference [^n] 39..43\n",
    ),
    // Old footnotes, whose references need no definition, over two lines.
    (
        "516",
        b"[^m\no] [^ m  o] [^no]\n",
        "footnote-reference [^m o] 0..6\n\
        footnote-reference [^ m o] 7..15\n\
        footnote-reference [^no] 16..21\n",
    ),
    // Without footnotes their labels are others.
    (
        "0",
        b"[^n]: [a]\n\n[^n] [a]\n",
        "definition [^n]: [a] 0..9\n\
        link shortcut [a] 11..15 12..14\n\
        undefined [a] 16..19\n",
    ),
    // Undefined references: full, collapsed, shortcut, an image, and none for a label that is the text of a link.
    (
        "0",
        b"[a][b] [c][] [d] ![e] [f][g](h)\n",
        "undefined [b] 0..6\n\
        undefined [c] 7..12\n\
        undefined [d] 13..16\n\
        undefined [e] 17..21\n\
        link inline h 25..31 26..27\n",
    ),
    // Three pairs in a row.
    (
        "0",
        b"[a][b][c]\n\n[c]: /x\n",
        "definition [c]: /x 11..18\n\
        link full /x 3..9 4..5\n",
    ),
    // Wikilinks: one, two pairs around a link that are none, one before parentheses, one in brackets, and an image.
    (
        "32768",
        b"[[a]] ![[b|c [d](e)]] [[f [g](h)]] [[i|j]](k) [[[l]]] ![[m|n]]\n",
        "link wikilink a 0..5 2..3\n\
        link inline e 13..19 14..15\n\
        link inline h 26..32 27..28\n\
        link wikilink i 35..42 39..40\n\
        link wikilink l 47..52 49..50\n\
        image wikilink m 54..62 59..60\n",
    ),
    // Headings, one with an attribute block, and a definition list.
    (
        "4160",
        b"# [a](b) {#c}\n\n[d](e)\n===\n\n[f](g)\n: [h](i)\n",
        "link inline b 2..8 3..4\n\
        link inline e 15..21 16..17\n\
        link inline g 27..33 28..29\n\
        link inline i 36..42 37..38\n",
    ),
    // Tasks of a list.
    (
        "16",
        b"- [x] [x](a)\n- [ ] [b]\n",
        "link inline a 6..12 7..8\n\
        undefined [b] 19..22\n",
    ),
];

#[test]
fn links_are_listed(rt: HostRuntime) -> Result<(), Fail> {
    for (options, text, lines) in TEXTS {
        assert_lines(&rt, Program::Links, Given::new(&[options], text), lines)?;
    }
    Ok(())
}

#[test]
fn links_have_faults(rt: HostRuntime) -> Result<(), Fail> {
    let cases: &[(&str, &[u8], RunFault)] = &[
        ("x", b"[a]: /x\n", RunFault::BadOptions),
        ("0", b"\xff", RunFault::NotUtf8),
        ("0", b"[a]: /x\n", RunFault::WriteFailed),
    ];
    for (word, text, fault) in cases {
        assert_fault(&rt, Program::Links, Given::new(&[word], text), *fault)?;
    }
    Ok(())
}
