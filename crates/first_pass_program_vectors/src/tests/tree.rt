//! The output of `tree` for texts, and each fault of its run.

use super::fakes::{Given, Pace, Program, assert_fault, assert_lines};
use first_pass_host::fault::RunFault;
use std::test::Fail;

// Words, a text and its lines.
const TEXTS: &[(&[&str], &str, &str)] = &[
    // An info string with a quotation mark, a backslash, a control character and a character that is not ASCII.
    (
        &[],
        "> ~~~ \"\\\\\u{1}é\n> a",
        "{\"kind\":\"Root\",\"depth\":0,\"start\":0,\"end\":16}\n\
        {\"kind\":\"BlockQuote\",\"depth\":1,\"start\":0,\"end\":16,\"quote\":null}\n\
        {\"kind\":\"FencedCodeBlock\",\"depth\":2,\"start\":2,\"end\":16,\"info\":\"\\\"\\\\\\u0001é\"}\n\
        {\"kind\":\"Text\",\"depth\":3,\"start\":15,\"end\":16,\"escaped\":false}\n",
    ),
    // A heading without attributes, and one with them.
    (
        &["64"],
        "# a\n## b {#x .c .d k=v\" nn}\n   ",
        "{\"kind\":\"Root\",\"depth\":0,\"start\":0,\"end\":31}\n\
        {\"kind\":\"Heading\",\"depth\":1,\"start\":0,\"end\":4,\"level\":1,\
        \"id\":null,\"classes\":[],\"attributes\":[]}\n\
        {\"kind\":\"Text\",\"depth\":2,\"start\":2,\"end\":3,\"escaped\":false}\n\
        {\"kind\":\"Heading\",\"depth\":1,\"start\":4,\"end\":28,\"level\":2,\
        \"id\":\"x\",\"classes\":[\"c\",\"d\"],\"attributes\":[[\"k\",\"v\\\"\"],[\"nn\",null]]}\n\
        {\"kind\":\"Text\",\"depth\":2,\"start\":7,\"end\":8,\"escaped\":false}\n",
    ),
    // Two definitions that `blocks` prints in the same way, and a footnote after them.
    (
        &["4"],
        "[a]: </b \"x\">\n[b]: /b \"x\"\n\n[^F]: - c\n",
        "{\"kind\":\"Root\",\"depth\":0,\"start\":0,\"end\":37}\n\
        {\"kind\":\"FootnoteDefinition\",\"depth\":1,\"start\":27,\"end\":37,\"label\":\"F\"}\n\
        {\"kind\":\"List\",\"depth\":2,\"start\":33,\"end\":37,\"tight\":true,\"byte\":\"-\",\"number\":0}\n\
        {\"kind\":\"ListItem\",\"depth\":3,\"start\":33,\"end\":37,\"columns\":2}\n\
        {\"kind\":\"TightParagraph\",\"depth\":4,\"start\":35,\"end\":37}\n\
        {\"kind\":\"Text\",\"depth\":5,\"start\":35,\"end\":36,\"escaped\":false}\n\
        {\"definition\":\"a\",\"destination\":\"/b \\\"x\\\"\",\"title\":null,\"start\":0,\"end\":13}\n\
        {\"definition\":\"b\",\"destination\":\"/b\",\"title\":\"x\",\"start\":14,\"end\":25}\n\
        {\"footnote\":\"F\"}\n",
    ),
];

#[test]
fn nodes_are_written_as_json(rt: HostRuntime) -> Result<(), Fail> {
    for (words, text, want) in TEXTS {
        let given = Given::new(words, text.as_bytes());
        assert_lines(&rt, Program::Tree, given, want)?;
    }
    Ok(())
}

#[test]
fn each_fault_of_a_run(rt: HostRuntime) -> Result<(), Fail> {
    let faults: &[(&[&str], &[u8], usize, RunFault)] = &[
        (&["1"], b"\xff", 1, RunFault::BadOptions),
        (&["0"], b"\xff", 0, RunFault::NotUtf8),
        (&["0"], b"a", 1, RunFault::ReadFailed),
        (&["0"], b"a", 0, RunFault::WriteFailed),
    ];
    for (words, text, fails_at, fault) in faults {
        let mut given = Given::new(words, text);
        given.read = Pace::failing(usize::MAX, *fails_at);
        assert_fault(&rt, Program::Tree, given, *fault)?;
    }
    Ok(())
}
