//! Laws of the range that an info string, a footnote's label or a heading's attributes have in the text: reading the
//! range gives what the node names, and both ends are on character boundaries. Also a law of the table that
//! `footnote_nodes` returns, and one of the units in which columns are counted.

ghost use Rattle.first_pass_attributes.specs.Attributes.{attributes_of};
ghost use Rattle.first_pass_grammar.specs.CodeBlocks.{IsFencedCode};
ghost use Rattle.first_pass_grammar.specs.Completion.{lines_from};
ghost use Rattle.first_pass_grammar.specs.declared.kind.Container.{Container};
ghost use Rattle.first_pass_grammar.specs.Derivation.{Derives, Tables};
ghost use Rattle.first_pass_grammar.specs.Footnotes.{NamesLabel, footnote_head_at, footnote_prefix, label_bytes};
ghost use Rattle.first_pass_grammar.specs.Kinds.{unindented};
ghost use Rattle.first_pass_grammar.specs.Leaves.{Document, IsHeading, around, heading_block, heading_text_at};
ghost use Rattle.first_pass_grammar.specs.Tables.{Taken};
ghost use Rattle.first_pass_grammar.specs.Texts.{IsPlainText};
ghost use Rattle.first_pass_items.specs.declared.cow_str.CowStr.{CowStr};
ghost use Rattle.first_pass_items.specs.declared.item.CowIndex.{CowIndex};
ghost use Rattle.first_pass_items.specs.declared.item.HeadingIndex.{HeadingIndex};
ghost use Rattle.first_pass_items.specs.declared.item.HeadingLevel.{HeadingLevel};
ghost use Rattle.first_pass_items.specs.declared.item.Item.{Item};
ghost use Rattle.first_pass_lines.specs.Lines.{level_number, line_len};
ghost use Rattle.first_pass_lines.specs.Places.{Place, offset};
ghost use Rattle.first_pass_places.specs.AttributeBlockPlaces.{attribute_block_range};
ghost use Rattle.first_pass_places.specs.AttributePlaces.{attribute_ranges};
ghost use Rattle.first_pass_places.specs.FootnoteLabels.{label_range};
ghost use Rattle.first_pass_places.specs.FootnoteNodes.{AreFirstFootnotes, entry_label};
ghost use Rattle.first_pass_places.specs.InfoStrings.{bytes_in};
ghost use Rattle.first_pass_places.specs.LineColumns.{utf16_len};
ghost use Rattle.first_pass_places.specs.NamePlaces.{FirstIsReadFromText, HasNameOnBoundaries, HaveWholeStarts, NamesLabelAt};
ghost use Rattle.first_pass_places.specs.PlacedAttributes.{attributes_from_places};
ghost use Rattle.first_pass_scan.specs.LeafLines.{code_fence};
ghost use Rattle.std.specs.Char.Escape.{encode_utf16};
ghost use Rattle.std.specs.declared.ops.Range.{Range};
ghost use Rattle.std.specs.List.{flat_map};
ghost use Rattle.std.specs.Prelude.{◌≡◌, ◌+◌, ◌≤◌, ℕ, List, Option, Some, IfSome, IsUtf8, All, drop, encode_utf8_all, length, map};

/// The info string that a fenced code block names is what the bytes in `info_range` give, with escapes and references
/// resolved. The block begins at `start` with a fence of `count` bytes, each equal to `byte` (CommonMark 4.5).
pub fn info_strings_are_read()
    ensures { (d : Document) (start count byte : ℕ) (places : List Place) (stop : ℕ) (items : List (ℕ × Item))
        → code_fence (drop start d.text) ≡ Some (count, byte) → IsFencedCode d start count places stop items
        → FirstIsReadFromText d items }
{}

/// Reading the range of the label, without the prefixes and the dropped columns at the start of each further line,
/// gives the label that the footnote definition names. The head of the definition begins after the indentation at the
/// place `p` of the text (this project).
pub fn footnote_labels_are_read()
    ensures { (d : Document) (path : List Container) (p : Place) (index : CowIndex) (head : ℕ × List ℕ)
        → (unindented p).rest.left ≡ drop (offset (unindented p)) d.text
        → footnote_head_at (around d path) p ≡ Some head
        → NamesLabel d.names index (label_bytes head.0 (unindented p).rest.left) head.1
        → NamesLabelAt d.names (footnote_prefix (around d path)) index d.text
        (label_range d.text (offset (unindented p))) }
{}

/// The attributes that an ATX heading names are those of the bytes in the range of its block. The heading begins at
/// `start` with the number signs of its level (CommonMark 4.2, and this project).
pub fn heading_attributes_are_read()
    ensures { (d : Document) (start : ℕ) (level : HeadingLevel) (index : Option HeadingIndex) (chain : List Item)
        (stop : ℕ) → IsHeading d (heading_text_at d.text start (level_number level)) index chain stop
        → FirstIsReadFromText d (heading_block start stop level index chain) }
{}

/// The attributes that a setext heading names are those of the bytes in the range of its block. The text of the heading
/// begins at `start`; `lines` are the lines of the document after the line that `start` is in. A task list item marker
/// may be before the text. The clause also covers a paragraph, which names no attributes (CommonMark 4.3, GFM 5.3, and
/// this project).
pub fn setext_attributes_are_read()
    ensures { (d : Document) (path : List Container) (start : ℕ) (marker : Option Item) (lines : List Place) (t : Taken)
        → IfSome marker (λ x. x.«end» ≤ start) → start ≤ length d.text
        → lines ≡ lines_from d.text (start + line_len (drop start d.text)) → IsPlainText d path start marker lines t
        → FirstIsReadFromText d t.items }
{}

/// The attributes that `attributes_from_places` reads at the ranges from `attribute_ranges` are those of the bytes
/// between the braces of the heading's block: the last id, and the classes and the keys with their values in order
/// (this project).
pub fn attributes_are_read()
    ensures { (text : List ℕ) (x : Item) (block : Range ℕ) → attribute_block_range text x ≡ Some block
        → attributes_from_places text (attribute_ranges text x) ≡ attributes_of (bytes_in text block) }
{}

/// In a derived tree, if a fenced code block or a footnote definition starts on a character boundary, its mark is ASCII
/// (CommonMark 4.5, and this project).
pub fn nodes_have_whole_starts()
    ensures { (d : Document) (nodes : List (ℕ × Item)) (tables : Tables) → Derives d nodes tables
        → HaveWholeStarts d.text nodes }
{}

/// In a derived tree of a text in UTF-8, both ends of the range of a node's info string, label or attributes are on
/// character boundaries, if the node is in the text and starts on a character boundary (this project).
pub fn names_have_whole_characters()
    ensures { (d : Document) (nodes : List (ℕ × Item)) (tables : Tables) → Derives d nodes tables → IsUtf8 d.text
        → All (λ n. HasNameOnBoundaries d.text n.1) nodes }
{}

/// For the nodes of a derived tree, a table that meets `AreFirstFootnotes` has the same labels as the tree's table of
/// footnotes, in the same order (this project).
pub fn footnotes_have_nodes()
    ensures { (d : Document) (nodes : List (ℕ × Item)) (tables : Tables) (table : List (CowStr × ℕ))
        → Derives d nodes tables → AreFirstFootnotes d.names nodes table → map entry_label table ≡ tables.footnotes }
{}

/// The units that are counted in the bytes of a text are those that its characters have in UTF-16 (this project).
pub fn columns_are_in_utf16()
    ensures { (characters : List ℕ)
        → utf16_len (encode_utf8_all characters) ≡ length (flat_map encode_utf16 characters) }
{}
