//! The template of the page that shows a text with its tree, made of `tools/view.html` by `.ci/page --write`.

use crate::page::Part;

/// The template of the page of the command `view`.
pub static VIEW: [Part<'static>; 11] = [
    Part::Html(
        r##"<!DOCTYPE html>
<html lang="en">
<head>
<meta charset="utf-8">
<meta name="viewport" content="width=device-width, initial-scale=1">
<title>"##,
    ),
    Part::Title,
    Part::Html(
        r##"</title>
<style>
:root {
  color-scheme: light dark;
  --page: #fff; --ink: #1b1f24; --faint: #59636e; --rule: #d8dee4; --panel: #f6f8fa; --mark: #fff3bf;
  --focus: #0969da;
  --list: #2f6f3e; --quote: #8250df; --heading: #0550ae; --code: #953800; --html: #a40e26; --table: #116329;
  --paragraph: #8c959f; --note: #9a6700;
  --emphasis: #cf222e; --link: #0969da; --run: #953800; --made: #8250df;
}
@media (prefers-color-scheme: dark) {
  :root {
    --page: #0d1117; --ink: #e6edf3; --faint: #9198a1; --rule: #30363d; --panel: #161b22; --mark: #4b3a00;
    --focus: #58a6ff;
    --list: #7ee787; --quote: #d2a8ff; --heading: #79c0ff; --code: #ffa657; --html: #ff7b72; --table: #56d364;
    --paragraph: #6e7681; --note: #e3b341;
    --emphasis: #ff7b72; --link: #58a6ff; --run: #ffa657; --made: #d2a8ff;
  }
}
* { box-sizing: border-box; }
body { margin: 0; background: var(--page); color: var(--ink); font: 14px/1.5 system-ui, sans-serif; }
header { padding: 10px 16px; border-bottom: 1px solid var(--rule); display: flex; gap: 4px 16px; align-items: baseline;
  flex-wrap: wrap; }
h1 { font-size: 16px; margin: 0; overflow-wrap: anywhere; unicode-bidi: isolate; }
h2 { font-size: 13px; margin: 16px 0 6px; }
header p, aside p { margin: 0; color: var(--faint); }
main { display: grid; grid-template-columns: minmax(0, 1fr) 340px; }
aside { padding: 0 16px 16px; border-left: 1px solid var(--rule); background: var(--panel); position: sticky; top: 0;
  height: 100vh; overflow: auto; font-size: 13px; }
#text { padding: 12px 12px 60px 0; font: 13px/20px ui-monospace, SFMono-Regular, Menlo, Consolas, monospace; }
.piece { content-visibility: auto; }
.line { display: flex; align-items: baseline; }
.number { flex: 0 0 58px; padding-right: 10px; text-align: right; color: var(--faint); user-select: none; }
.number::before { content: attr(data-line); }
/* The kinds of the blocks that begin in a line. They are no text, so that they aren't copied. */
.begins { flex: 0 0 96px; padding-right: 8px; font-size: 11px; color: var(--faint); user-select: none;
  overflow-wrap: anywhere; }
.begins::before { content: attr(data-begins); }
.row { flex: 1; min-width: 0; display: flex; min-height: 20px; }
.frame { flex: 1; min-width: 0; display: flex; padding: 0 5px; border: 0 solid var(--paragraph);
  border-left-width: 2px; border-right-width: 1px; }
.frame.first { border-top-width: 1px; margin-top: 2px; }
.frame.last { border-bottom-width: 1px; margin-bottom: 2px; }
.words { flex: 1; min-width: 0; white-space: pre-wrap; overflow-wrap: anywhere; tab-size: 4; color: var(--faint); }
.words, .words span, .shown, .mark { unicode-bidi: isolate; }
.words span { color: var(--ink); }
.cell { border: 1px solid var(--table); border-radius: 2px; padding: 0 2px; }
.token { text-decoration: underline solid 2px var(--rule); text-underline-offset: 3px; }
/* A character that can't be seen is there, without size, to be copied; what is seen in its place is no text. */
.mark { font-size: 0; user-select: none; color: var(--faint) !important; }
.mark.kept { user-select: auto; }
.mark::before { content: attr(data-mark); font-size: 13px; }
.mark.named::before { font-size: 10px; border: 1px solid; border-radius: 3px; padding: 0 2px; }
.List, .ListItem, .DefinitionList, .DefinitionListDefinition { border-color: var(--list); border-left-style: dashed; }
.BlockQuote { border-color: var(--quote); border-left-style: double; border-left-width: 4px; }
.Heading, .DefinitionListTitle { border-color: var(--heading); border-left-width: 4px; }
.FencedCodeBlock, .IndentCodeBlock { border-color: var(--code); border-left-style: dotted; border-left-width: 3px; }
.HtmlBlock, .MetadataBlock { border-color: var(--html); border-left-style: groove; border-left-width: 4px; }
.Table, .TableHead, .TableRow { border-color: var(--table); border-style: double; border-left-width: 3px; }
.FootnoteDefinition { border-color: var(--note); border-style: dashed; }
.MaybeEmphasis { text-decoration: underline wavy 1px var(--emphasis); }
.MaybeLinkOpen, .MaybeLinkClose, .MaybeImage { text-decoration: underline solid 2px var(--link); }
.MaybeCode { text-decoration: underline dashed 2px var(--run); }
.MaybeMath { text-decoration: underline dashed 1px var(--run); }
.MaybeHtml, .Html { text-decoration: underline double 1px var(--html); }
.SynthesizeText, .SynthesizeChar, .MaybeSmartQuote { text-decoration: underline dotted 2px var(--made); }
.TaskListMarker { text-decoration: underline solid 4px var(--list); }
.legend span { display: inline-block; margin: 0 10px 4px 0; }
.outline { padding: 0; margin: 0; list-style: none; overflow-wrap: anywhere; }
#text:focus-visible, [data-node]:focus-visible, .words:focus-visible, a:focus-visible {
  outline: 2px solid var(--focus); outline-offset: 1px; }
#box { position: fixed; z-index: 1; max-width: min(70ch, 96vw); padding: 6px 10px; border: 1px solid var(--rule);
  border-radius: 6px; background: var(--panel); color: var(--ink); white-space: pre-wrap; overflow-wrap: anywhere;
  font: 12px/17px ui-monospace, SFMono-Regular, Menlo, Consolas, monospace; pointer-events: none;
  box-shadow: 0 2px 8px #0003; }
table { border-collapse: collapse; width: 100%; }
th, td { text-align: left; vertical-align: top; padding: 3px 6px 3px 0; border-top: 1px solid var(--rule);
  overflow-wrap: anywhere; }
th { font-weight: 600; border: 0; }
a { color: var(--link); }
.target, #text .lit { background: var(--mark); }
@media (max-width: 800px) {
  main { grid-template-columns: minmax(0, 1fr); }
  aside { position: static; height: auto; border-left: 0; border-top: 1px solid var(--rule); }
  .line { flex-wrap: wrap; }
  .number { flex-basis: 40px; padding-right: 6px; }
  .begins { order: -1; flex: 0 0 100%; padding-left: 40px; line-height: 14px; }
  .begins:not([data-begins]) { display: none; }
}
</style>
</head>
<body>
<header><h1>"##,
    ),
    Part::Title,
    Part::Html(
        r##"</h1><p id="sums"></p>
<p id="keys">Point at a place, or go from node to node with the keys: ↓ next, ↑ previous, → next sibling, ← parent.</p>
</header>
<main>
<div id="text" tabindex="0" role="application" aria-label="The text and its tree" aria-describedby="keys"></div>
<aside aria-label="About the text">
<h2>Options</h2>
<p id="options">"##,
    ),
    Part::Options,
    Part::Html(
        r##"</p>
<h2>Outline</h2>
<nav id="outline" aria-label="Outline"></nav>
<h2>Link definitions</h2>
<div id="definitions"></div>
<h2>Footnotes</h2>
<div id="footnotes"></div>
<h2>Frames</h2>
<div class="legend" id="frames"></div>
<h2>Underlines</h2>
<div class="legend" id="tokens"></div>
</aside>
</main>
<div id="box" hidden></div>
<script type="application/json" id="source">"##,
    ),
    Part::Text,
    Part::Html(
        r##"</script>
<script type="application/jsonl" id="lines">"##,
    ),
    Part::Lines,
    Part::Html(
        r##"</script>
<script>
"use strict";
const source = JSON.parse(document.getElementById("source").textContent);
// Each line that `tree` writes has one object.
const lines = document.getElementById("lines").textContent.match(/\{[^\n]*\}/g).map(line => JSON.parse(line));
// The kinds of blocks, each with its sign in the margin.
const BLOCKS = {
  Paragraph: "p", TightParagraph: "p", Rule: "rule", Heading: "h", FencedCodeBlock: "fence", IndentCodeBlock: "code",
  HtmlBlock: "html", BlockQuote: "quote", List: "list", ListItem: "item", FootnoteDefinition: "note",
  MetadataBlock: "meta", DefinitionList: "dl", DefinitionListTitle: "dt", DefinitionListDefinition: "dd",
  Table: "table", TableHead: "head", TableRow: "row",
};
const MOST_FRAMES = 30;
const MOST_SIGNS = 8;
const LINES_A_PIECE = 50;
const PIECES_AT_ONCE = 20;
// Characters that can't be seen, or that change how others are seen: controls except the tab, and format characters.
const UNSEEN = /\r\n|[\p{Cf}\u2028\u2029]|[^\P{Cc}\t]/u;
const EACH_UNSEEN = new RegExp(`(${UNSEEN.source})`, "u");

// Offsets are bytes of UTF-8; a string here has units of UTF-16. The unit at each byte, and the byte after the last.
function unitsOfBytes(text) {
  const units = new Uint32Array(new TextEncoder().encode(text).length + 1);
  let byte = 0;
  for (let unit = 0; unit < text.length;) {
    const code = text.codePointAt(unit);
    const size = code < 0x80 ? 1 : code < 0x800 ? 2 : code < 0x10000 ? 3 : 4;
    units.fill(unit, byte, byte + size);
    byte += size;
    unit += code < 0x10000 ? 1 : 2;
  }
  units[byte] = text.length;
  return units;
}

// Where lines start, in units, and where the last one ends.
function startsOfLines(text) {
  const starts = [0];
  for (const found of text.matchAll(/\r\n|\n|\r/g)) starts.push(found.index + found[0].length);
  if (starts[starts.length - 1] < text.length) starts.push(text.length);
  return starts;
}

const units = unitsOfBytes(source);
const starts = startsOfLines(source);
const nodes = lines.filter(line => "kind" in line)
  .map((line, number) => ({ line, number, kind: line.kind, elements: [] }));
const definitions = lines.filter(line => "definition" in line);
const footnotes = lines.filter(line => "footnote" in line);

// The number of the line at a unit, from 0.
function lineAt(unit) {
  let low = 0, high = starts.length - 1;
  while (low + 1 < high) {
    const middle = (low + high) >> 1;
    if (starts[middle] <= unit) low = middle; else high = middle;
  }
  return low;
}

// A text in which each character that can't be seen is an escape.
function escaped(text) {
  return text.replace(new RegExp(UNSEEN.source, "gu"), found =>
    [...found].map(it => `\\u{${it.codePointAt(0).toString(16)}}`).join(""));
}

// The kind and range of a node in bytes, and what else its line has.
function labelOf(node) {
  const { kind, depth, start, end, ...own } = node.line;
  const values = Object.entries(own).map(([name, value]) => `${name}: ${JSON.stringify(value)}`).join(", ");
  return escaped(`${kind} ${start}..${end}${values ? "  " + values : ""}`);
}

// Parents, and ranges in units. The marker of a task list item stands before the paragraph that holds it, which begins
// with it here.
function prepare() {
  const open = [];
  for (const node of nodes) {
    open.length = node.line.depth;
    node.parent = open[open.length - 1];
    node.from = units[node.line.start];
    node.to = units[node.line.end];
    open.push(node);
    for (let above = node.parent; above && node.from < above.from; above = above.parent) above.from = node.from;
  }
}

// For each line the blocks that it lies in, outermost first, and those that begin in it, but hardly more than are drawn;
// and the cells and tokens that begin in it or before.
function readLines() {
  const rows = starts.slice(0, -1)
    .map((from, at) => ({ from, to: starts[at + 1], blocks: [], begun: [], inside: [] }));
  for (const node of nodes) {
    if (node.kind === "Root" || rows.length === 0) continue;
    // An empty cell may begin where its row ends.
    const first = Math.min(lineAt(node.from), node.parent.last ?? rows.length - 1);
    const last = node.to > node.from ? lineAt(node.to - 1) : first;
    node.first = first;
    node.last = last;
    if (node.kind in BLOCKS) readBlock(node, rows);
    else for (let at = first; at <= last; at++) rows[at].inside.push(node);
  }
  return rows;
}

function readBlock(block, rows) {
  const { begun } = rows[block.first];
  if (begun.length <= MOST_SIGNS) begun.push(block);
  block.frames = (block.parent.frames ?? 0) + 1;
  // The lines of a block lie in those around it, which are enough.
  if (block.frames > MOST_FRAMES) return;
  for (let at = block.first; at <= block.last; at++) rows[at].blocks.push(block);
}

function element(name, classes) {
  const made = document.createElement(name);
  made.className = classes;
  return made;
}

function setLabel(made, node) {
  made.setAttribute("role", "group");
  made.setAttribute("aria-label", `${node.kind} ${node.line.start}..${node.line.end}`);
}

// An element of a node. The first one has its kind and range as its label.
function nodeElement(name, classes, node) {
  const made = element(name, classes);
  made.dataset.node = node.number;
  if (node.elements.length === 0) setLabel(made, node);
  node.elements.push(made);
  return made;
}

// What is seen in place of a character that can't be seen: ^[ for a control of ASCII, otherwise its number.
function markOf(part) {
  const code = part.codePointAt(0);
  if (/^[\r\n]/.test(part)) return "↵";
  if (code < 0x80) return `^${String.fromCharCode(code ^ 0x40)}`;
  return `U+${code.toString(16).toUpperCase().padStart(4, "0")}`;
}

// Puts a text into an element, with a mark for each character that can't be seen. A line end itself isn't put there:
// each line is an element.
function put(parent, text) {
  if (!UNSEEN.test(text)) {
    if (text) parent.append(text);
    return;
  }
  text.split(EACH_UNSEEN).forEach((part, at) => {
    if (at % 2 === 0) {
      if (part) parent.append(part);
      return;
    }
    const mark = element("span", "mark");
    mark.dataset.mark = markOf(part);
    if (!/^[\r\n]/.test(part)) {
      mark.classList.add("kept");
      mark.append(part);
    }
    if (mark.dataset.mark.length > 1) mark.classList.add("named");
    parent.append(mark);
  });
}

// Puts a line's text into an element, with its cells and tokens. Bytes outside of all tokens stay faint.
function putInside(parent, row) {
  let at = row.from, cell = null, inner = parent;
  const pass = to => { if (to > at) { put(inner, source.slice(at, to)); at = to; } };
  for (const node of row.inside) {
    const from = Math.max(node.from, row.from), to = Math.min(node.to, row.to);
    if (cell && node.parent !== cell) {
      pass(Math.min(cell.to, row.to));
      cell = null;
      inner = parent;
    }
    pass(from);
    if (node.kind === "TableCell") {
      cell = node;
      inner = nodeElement("span", "cell", node);
      parent.append(inner);
      continue;
    }
    const token = nodeElement("span", node.kind === "Text" ? "" : `token ${node.kind}`, node);
    put(token, source.slice(Math.max(from, at), to));
    at = Math.max(at, to);
    inner.append(token);
  }
  if (cell) {
    pass(Math.min(cell.to, row.to));
    inner = parent;
  }
  pass(row.to);
}

function signOf(node) {
  return BLOCKS[node.kind] + (node.kind === "Heading" ? node.line.level : "");
}

function lineOf(row, at) {
  const line = element("div", "line");
  line.id = `line-${at + 1}`;
  const number = element("div", "number"), begins = element("div", "begins");
  number.dataset.line = at + 1;
  const signs = row.begun.slice(0, MOST_SIGNS).map(signOf);
  if (row.begun.length > MOST_SIGNS) signs.push("…");
  if (signs.length) begins.dataset.begins = signs.join(" ");
  let inner = element("div", "row");
  line.append(number, begins, inner);
  for (const block of row.blocks.slice(0, MOST_FRAMES)) {
    const edges = (block.first === at ? " first" : "") + (block.last === at ? " last" : "");
    const frame = nodeElement("div", `frame ${block.kind}${edges}`, block);
    inner.append(frame);
    inner = frame;
  }
  const words = element("div", "words");
  putInside(words, row);
  // A line without text would be left out of a copy.
  if (!words.textContent) words.append(document.createElement("br"));
  inner.append(words);
  return line;
}

const rows = [];
let drawn = 0;

// Draws pieces of lines from the first that isn't drawn, up to that of a line.
function drawTo(line) {
  const text = document.getElementById("text");
  for (; drawn < rows.length && drawn <= line; drawn += LINES_A_PIECE) {
    const piece = element("div", "piece");
    const part = rows.slice(drawn, drawn + LINES_A_PIECE);
    piece.style.containIntrinsicSize = `auto ${22 * part.length}px`;
    part.forEach((row, at) => piece.append(lineOf(row, drawn + at)));
    text.append(piece);
  }
}

// Draws what is left, some pieces at a time, so that the page can be used meanwhile.
function drawRest() {
  drawTo(drawn + LINES_A_PIECE * PIECES_AT_ONCE - 1);
  if (drawn < rows.length) setTimeout(drawRest);
  else document.body.dataset.drawn = "all";
}

// Goes to a line, and lights it.
function goToLine(line) {
  drawTo(line - 1);
  document.querySelectorAll(".target").forEach(it => it.classList.remove("target"));
  const found = document.getElementById(`line-${line}`);
  if (!found) return;
  found.classList.add("target");
  found.scrollIntoView({ block: "center" });
}

function cellsOf(row, name, texts) {
  for (const text of texts) {
    const cell = element(name, "shown");
    if (typeof text === "string") put(cell, text); else cell.append(text);
    row.append(cell);
  }
}

// A link to the line of an offset.
function placeLink(start, text) {
  const link = element("a", "shown");
  link.href = `#line-${lineAt(units[start]) + 1}`;
  put(link, text);
  return link;
}

function drawTables() {
  const table = document.createElement("table");
  cellsOf(table.insertRow(), "th", ["label", "destination, title", "range"]);
  for (const it of definitions) {
    const leads = it.title === null ? it.destination : `${it.destination} “${it.title}”`;
    cellsOf(table.insertRow(), "td", [it.definition, leads, placeLink(it.start, `${it.start}..${it.end}`)]);
  }
  document.getElementById("definitions").append(definitions.length ? table : "none");
  put(document.getElementById("footnotes"), footnotes.map(it => it.footnote).join(", ") || "none");
  document.getElementById("sums").textContent =
    `${starts.length - 1} lines, ${units.length - 1} bytes, ${nodes.length} nodes`;
  const title = document.querySelector("h1"), name = title.textContent;
  title.textContent = "";
  put(title, name);
}

// The text of a heading: what lies between its first token and its last, a space for each line end and what follows it.
function headingText(number) {
  const next = nextSibling(nodes[number]);
  const tokens = nodes.slice(number + 1, next ? next.number : nodes.length);
  return tokens.map(it => /^(Soft|Hard)Break$/.test(it.kind) ? " " : source.slice(it.from, it.to)).join("").trim();
}

function drawOutline() {
  const list = element("ul", "outline");
  for (const node of nodes) {
    if (node.kind !== "Heading") continue;
    const item = document.createElement("li");
    item.style.paddingLeft = `${node.line.level - 1}em`;
    item.append(placeLink(node.line.start, headingText(node.number) || "(empty)"));
    list.append(item);
  }
  document.getElementById("outline").append(list.children.length ? list : "none");
}

function drawLegend() {
  const kinds = new Set(nodes.map(node => node.kind));
  kinds.delete("Root");
  kinds.delete("Text");
  for (const kind of kinds) {
    const isFrame = kind in BLOCKS || kind === "TableCell";
    const sample = element("span", `${kind === "TableCell" ? "cell" : isFrame ? "frame" : "token"} ${kind}`);
    sample.textContent = kind in BLOCKS ? `${kind} (${BLOCKS[kind]})` : kind;
    document.getElementById(isFrame ? "frames" : "tokens").append(sample);
  }
}

let lit = null;

// Lights the elements of a node instead of those that were lit.
function light(node) {
  if (node === lit) return;
  for (const it of lit ? lit.elements : []) it.classList.remove("lit");
  for (const it of node ? node.elements : []) it.classList.add("lit");
  lit = node;
}

// Shows a node with those around it beside a place, and lights it. Without room below the place the box is above `top`.
function showBox(node, x, y, top) {
  const box = document.getElementById("box");
  box.hidden = !node;
  light(node);
  if (!node) return;
  const path = [];
  for (let it = node; it; it = it.parent) path.push(it);
  path.reverse();
  const shown = path.length > 12 ? [...path.slice(0, 4), null, ...path.slice(-7)] : path;
  box.textContent = shown.map((it, at) => "  ".repeat(at) + (it ? labelOf(it) : "…")).join("\n");
  const wide = box.offsetWidth, high = box.offsetHeight;
  box.style.left = `${Math.max(4, Math.min(x, innerWidth - wide - 8))}px`;
  box.style.top = `${y + high > innerHeight ? Math.max(4, top - high) : y}px`;
}

function watchPointer() {
  const text = document.getElementById("text");
  text.addEventListener("mousemove", event => {
    const found = event.target.closest("[data-node]");
    byKeys = false;
    showBox(found ? nodes[found.dataset.node] : null, event.clientX + 14, event.clientY + 18, event.clientY - 10);
  });
  text.addEventListener("mouseleave", () => showBox(null));
  addEventListener("hashchange", () => goToLine(Number(location.hash.slice("#line-".length))));
  document.body.addEventListener("click", event => {
    const link = event.target.closest("a");
    if (link && link.hash === location.hash) goToLine(Number(link.hash.slice("#line-".length)));
  });
}

// The node that the keys lead to, and whether the box is shown for it, rather than for the pointer.
let current = null;
let byKeys = false;

// The next node that isn't within this one.
function nextSibling(node) {
  let at = node.number + 1;
  while (at < nodes.length && nodes[at].line.depth > node.line.depth) at++;
  return nodes[at];
}

// The node that a key leads to from the current one.
function nodeFor(key) {
  if (key === "End") return nodes[nodes.length - 1];
  if (key === "Home" || !current) return nodes[1];
  switch (key) {
    case "ArrowDown": return nodes[current.number + 1];
    case "ArrowUp": return nodes[current.number - 1];
    case "ArrowRight": return nextSibling(current);
    default: return current.parent;
  }
}

// Focuses the element of a node, which a screen reader reads. The root has that of all lines; a node that has none, as
// one in too many frames, has that of its line.
function focusNode(node) {
  current = node;
  byKeys = true;
  if (node.kind === "Root" || rows.length === 0) {
    document.getElementById("text").focus();
    showBox(node, 70, 70, 70);
    return;
  }
  drawTo(node.first);
  let found = node.elements[0];
  if (!found) {
    found = document.querySelector(`#line-${node.first + 1} .words`);
    setLabel(found, node);
  }
  found.tabIndex = -1;
  found.focus({ preventScroll: true });
  found.scrollIntoView({ block: "nearest" });
  showBoxAt(found);
}

// Shows the box of the current node at its element.
function showBoxAt(found) {
  const place = found.getBoundingClientRect();
  showBox(current, place.left + 8, Math.min(place.bottom, innerHeight) + 6, place.top - 6);
}

function watchKeys() {
  addEventListener("scroll", () => {
    if (byKeys && current.elements.length > 0) showBoxAt(current.elements[0]);
    else if (!byKeys) showBox(null);
  });
  document.getElementById("text").addEventListener("keydown", event => {
    const { key, altKey, ctrlKey, metaKey, shiftKey } = event;
    if (altKey || ctrlKey || metaKey || shiftKey) return;
    if (key === "Escape") {
      byKeys = false;
      showBox(null);
    }
    if (!["ArrowDown", "ArrowUp", "ArrowLeft", "ArrowRight", "Home", "End"].includes(key)) return;
    event.preventDefault();
    const node = nodeFor(key);
    if (node) focusNode(node);
  });
  // A click makes its node the current one.
  document.getElementById("text").addEventListener("click", event => {
    const found = event.target.closest("[data-node]");
    if (found) current = nodes[found.dataset.node];
  });
}

prepare();
rows.push(...readLines());
drawTables();
drawOutline();
drawLegend();
watchPointer();
watchKeys();
drawTo(LINES_A_PIECE * PIECES_AT_ONCE - 1);
if (location.hash) goToLine(Number(location.hash.slice("#line-".length)));
setTimeout(drawRest);
</script>
</body>
</html>
"##,
    ),
];
