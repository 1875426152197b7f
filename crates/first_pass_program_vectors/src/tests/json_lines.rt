//! The lines of JSON of a tree with places and texts, and of links.

use bitflags::Flags;
use first_pass_blocks::parser::BlockParser;
use first_pass_host::report::{Report, Subject};
use first_pass_host::tree_report::TreeReport;
use first_pass_items::option_set::Options;
use first_pass_json::run::JsonTreeWith;
use first_pass_linked::links::LinkReport;
use first_pass_linked_json::links::JsonLinks;
use std::alloc::{AllocError, Global};
use std::test::Fail;

// A text with a character of two units of UTF-16, and a second line after `\r\n`.
const TEXT: &str = "# 😀\r\n[é]: /d";

// What is added to ranges, and the lines of that text.
const PLACED: &[(TreeReport<BlockParser, JsonTreeWith>, &str)] = &[
    (
        TreeReport(
            BlockParser,
            JsonTreeWith {
                lines: true,
                text: true,
            },
        ),
        "{\"kind\":\"Root\",\"depth\":0,\"start\":0,\"start_line\":1,\"start_column\":1,\"end\":16,\
        \"end_line\":2,\"end_column\":8,\"source\":\"# 😀\\r\\n[é]: /d\"}\n\
        {\"kind\":\"Heading\",\"depth\":1,\"start\":0,\"start_line\":1,\"start_column\":1,\"end\":8,\
        \"end_line\":2,\"end_column\":1,\"source\":\"# 😀\\r\\n\",\"level\":1,\"id\":null,\"classes\":[],\
        \"attributes\":[]}\n\
        {\"kind\":\"Text\",\"depth\":2,\"start\":2,\"start_line\":1,\"start_column\":3,\"end\":6,\
        \"end_line\":1,\"end_column\":5,\"source\":\"😀\",\"escaped\":false}\n\
        {\"definition\":\"é\",\"destination\":\"/d\",\"title\":null,\"start\":8,\"start_line\":2,\
        \"start_column\":1,\"end\":16,\"end_line\":2,\"end_column\":8,\"source\":\"[é]: /d\"}\n",
    ),
    (
        TreeReport(
            BlockParser,
            JsonTreeWith {
                lines: true,
                text: false,
            },
        ),
        "{\"kind\":\"Root\",\"depth\":0,\"start\":0,\"start_line\":1,\"start_column\":1,\"end\":16,\
        \"end_line\":2,\"end_column\":8}\n\
        {\"kind\":\"Heading\",\"depth\":1,\"start\":0,\"start_line\":1,\"start_column\":1,\"end\":8,\
        \"end_line\":2,\"end_column\":1,\"level\":1,\"id\":null,\"classes\":[],\"attributes\":[]}\n\
        {\"kind\":\"Text\",\"depth\":2,\"start\":2,\"start_line\":1,\"start_column\":3,\"end\":6,\
        \"end_line\":1,\"end_column\":5,\"escaped\":false}\n\
        {\"definition\":\"é\",\"destination\":\"/d\",\"title\":null,\"start\":8,\"start_line\":2,\
        \"start_column\":1,\"end\":16,\"end_line\":2,\"end_column\":8}\n",
    ),
    (
        TreeReport(
            BlockParser,
            JsonTreeWith {
                lines: false,
                text: true,
            },
        ),
        "{\"kind\":\"Root\",\"depth\":0,\"start\":0,\"end\":16,\"source\":\"# 😀\\r\\n[é]: /d\"}\n\
        {\"kind\":\"Heading\",\"depth\":1,\"start\":0,\"end\":8,\"source\":\"# 😀\\r\\n\",\"level\":1,\
        \"id\":null,\"classes\":[],\"attributes\":[]}\n\
        {\"kind\":\"Text\",\"depth\":2,\"start\":2,\"end\":6,\"source\":\"😀\",\"escaped\":false}\n\
        {\"definition\":\"é\",\"destination\":\"/d\",\"title\":null,\"start\":8,\"end\":16,\
        \"source\":\"[é]: /d\"}\n",
    ),
    (
        TreeReport(
            BlockParser,
            JsonTreeWith {
                lines: false,
                text: false,
            },
        ),
        "{\"kind\":\"Root\",\"depth\":0,\"start\":0,\"end\":16}\n\
        {\"kind\":\"Heading\",\"depth\":1,\"start\":0,\"end\":8,\"level\":1,\"id\":null,\"classes\":[],\
        \"attributes\":[]}\n\
        {\"kind\":\"Text\",\"depth\":2,\"start\":2,\"end\":6,\"escaped\":false}\n\
        {\"definition\":\"é\",\"destination\":\"/d\",\"title\":null,\"start\":8,\"end\":16}\n",
    ),
];

// What a report writes on a text, or the message of its fault.
fn lines_of<P: Report>(
    alloc: Global,
    report: &P,
    text: &str,
    options: Options,
) -> Result<String, AllocError> {
    let mut output = Vec::new(alloc);
    let subject = Subject {
        alloc,
        text,
        options,
    };
    match report.write_report(subject, &mut output) {
        Ok(()) => String::from_utf8_lossy(alloc, output.as_slice()),
        Err(fault) => String::from_str(alloc, fault.message()),
    }
}

#[test]
fn ranges_have_places_and_texts(rt: HostRuntime) -> Result<(), Fail> {
    for (report, want) in PLACED {
        let lines = lines_of(rt.alloc(), report, TEXT, Options::empty())?;
        assert!(rt; lines.as_str() == *want, "{lines}");
    }
    Ok(())
}

// A text with each sort of line of `links`, and those lines. A footnote's label is a quotation mark.
const LINKED: &str = "[b]: </c d>\n[A]: /1 \"t\"\n\n\
    [^\"]: ![B] [x](y\\\" (\\\\&#10;)) <m@n.o> [^\"] [\"  z] [[p|q]] [r][a]\n";

const LINKED_LINES: &str =
    "{\"definition\":\"A\",\"destination\":\"/1\",\"title\":\"t\",\"start\":12,\"end\":23}\n\
    {\"definition\":\"b\",\"destination\":\"/c d\",\"title\":null,\"start\":0,\"end\":11}\n\
    {\"footnote\":\"\\\"\",\"start\":25,\"end\":90}\n\
    {\"image\":\"shortcut\",\"destination\":\"/c d\",\"title\":null,\"start\":31,\"end\":35,\"text_start\":33,\
    \"text_end\":34}\n\
    {\"link\":\"inline\",\"destination\":\"y\\\"\",\"title\":\"\\\\\\n\",\"start\":36,\"end\":54,\"text_start\":37,\
    \"text_end\":38}\n\
    {\"autolink\":\"email\",\"destination\":\"m@n.o\",\"start\":55,\"end\":62,\"text_start\":56,\"text_end\":61}\n\
    {\"footnote_reference\":\"\\\"\",\"start\":63,\"end\":67}\n\
    {\"undefined\":\"\\\" z\",\"start\":68,\"end\":74}\n\
    {\"link\":\"wikilink\",\"destination\":\"p\",\"title\":null,\"start\":75,\"end\":82,\"text_start\":79,\
    \"text_end\":80}\n\
    {\"link\":\"full\",\"destination\":\"/1\",\"title\":\"t\",\"start\":83,\"end\":89,\"text_start\":84,\
    \"text_end\":85}\n";

#[test]
fn links_are_listed_as_json(rt: HostRuntime) -> Result<(), Fail> {
    let options = Options::ENABLE_FOOTNOTES.union(Options::ENABLE_WIKILINKS);
    let links = &LinkReport(BlockParser, JsonLinks);
    let lines = lines_of(rt.alloc(), links, LINKED, options)?;
    assert!(rt; lines.as_str() == LINKED_LINES, "{lines}");
    Ok(())
}
