//! The break after a line, while the next line is read.

ghost use Rattle.first_pass_leaves.specs.LineBreaks.{body_of, break_item};
ghost use Rattle.first_pass_tokens.specs.LineTokens.{is_break};
ghost use Rattle.std.specs.Prelude.{◌≡◌, true, IfSome};

use first_pass_items::item::{Item, ItemBody};

/// The kind of a break: soft, or hard by white space or by a backslash (CommonMark 6.7, 6.8, and this project).
#[derive(Clone, Copy, Drop)]
pub enum BreakKind {
    Soft,
    BySpaces,
    ByBackslash,
}

/// A break from one offset into the text to another. It has fewer bytes than an item, so that it stays in registers.
#[derive(Clone, Copy, Drop)]
pub struct LineBreak {
    pub start: usize,
    pub end: usize,
    pub kind: BreakKind,
}

/// The break of an item, if there is one.
#[inline(always)]
pub fn held_break(item: Option<Item>) -> Option<LineBreak>
    requires { IfSome item (λ x. is_break x.body ≡ true) }
    ensures { break_item result ≡ item }
{
    match item {
        None => None,
        Some(Item { start, end, body }) => {
            let kind = break_kind(body);
            Some(LineBreak { start, end, kind })
        }
    }
}

// The kind of a break with this body.
#[inline(always)]
fn break_kind(body: ItemBody) -> BreakKind
    requires { is_break body ≡ true }
    ensures { body_of result ≡ body }
{
    match body {
        ItemBody::HardBreak(true) => BreakKind::ByBackslash,
        ItemBody::HardBreak(false) => BreakKind::BySpaces,
        _ => BreakKind::Soft,
    }
}

/// The item of a break, if there is one.
#[inline(always)]
pub fn break_item(line_break: Option<LineBreak>) -> Option<Item>
    ensures { result ≡ break_item line_break }
{
    match line_break {
        None => None,
        Some(LineBreak { start, end, kind }) => Some(Item {
            start,
            end,
            body: break_body(kind),
        }),
    }
}

// The body of a break of a kind.
#[inline(always)]
fn break_body(kind: BreakKind) -> ItemBody
    ensures { result ≡ body_of kind }
{
    match kind {
        BreakKind::Soft => ItemBody::SoftBreak,
        BreakKind::BySpaces => ItemBody::HardBreak(false),
        BreakKind::ByBackslash => ItemBody::HardBreak(true),
    }
}
