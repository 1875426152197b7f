//! The tokens with which code spans and math end. A token is known by its index in its chain.

ghost use Rattle.first_pass_atoms.specs.NextTokens.{AreEndsOf, IsLastFrom, IsNextFrom, KeysBelow, KeysIn, key, sought};
ghost use Rattle.first_pass_atoms.specs.TokenEnds.{closes_at, code_end, code_key, code_sought, display_end, has_math};
ghost use Rattle.first_pass_atoms.specs.TokenEnds.{in_chain, key_at, later, math_end, math_key, opening_context};
ghost use Rattle.std.specs.Prelude.{◌≡◌, ◌+◌, ◌<◌, ◌≤◌, ℕ, length, IfOk, IfSome, IsSomeAnd, Some, slice_index};

use first_pass_items::item::{Item, ItemBody};
use std::alloc::{AllocError, Global};

// What tokens are sought: runs of backquotes, or dollar signs.
#[derive(Clone, Copy, PartialEq, Eq)]
enum Mark {
    Code,
    Math,
}

/// For each token of a chain that may begin a code span or math, the next token that may end it.
#[derive(Drop)]
pub struct TokenEnds {
    // For a token that may begin a code span, the index of the next run of as many backquotes; at least the number of
    // tokens if there is none. Empty if no token is such a run.
    code: Vec<usize>,
    // The same for math: the next dollar sign of the same brace context.
    math: Vec<usize>,
}

/// The end of math: the index of its last token, and whether it is display math.
#[derive(Clone, Copy, PartialEq, Eq)]
pub struct MathEnd {
    pub last: usize,
    pub display: bool,
}

/// Returns the ends of code spans and math in the chain with these tokens. Fails only if an allocation fails.
pub fn token_ends(alloc: Global, tokens: &[(usize, Item)]) -> Result<TokenEnds, AllocError>
    ensures { IfOk result (AreEndsOf tokens.now) }
{
    let code = next_tokens(alloc, tokens, Mark::Code)?;
    let math = next_tokens(alloc, tokens, Mark::Math)?;
    Ok(TokenEnds { code, math })
}

impl TokenEnds {
    /// Returns the index of the token that ends the code span that the token with index `at` begins, or `None` if that
    /// token begins none. `tokens` are those of the chain. CommonMark 6.1.
    #[tactic(auto, unfolding(crate::specs::TokenEnds::code_end))]
    pub fn code_end(&self, tokens: &[(usize, Item)], at: usize) -> Option<usize>
        requires { AreEndsOf tokens.now self.now }
        ensures value { result ≡ code_end tokens.now at }
        ensures within { IfSome result (λ last. (at < last) × (last < length tokens.now)) }
    {
        match sought_at(Mark::Code, tokens, at) {
            None => None,
            Some(_) => in_chain(tokens, &self.code, at),
        }
    }

    /// Returns the end of the math that the token with index `at` begins, or `None` if that token begins none. `tokens`
    /// are those of the chain.
    #[tactic(auto, unfolding(crate::specs::TokenEnds::math_end, crate::specs::TokenEnds::inline_end))]
    pub fn math_end(&self, tokens: &[(usize, Item)], at: usize) -> Option<MathEnd>
        requires { AreEndsOf tokens.now self.now }
        ensures value { result ≡ math_end tokens.now at }
        ensures within { IfSome result (λ end. (at < end.last) × (end.last < length tokens.now)) }
    {
        let context = opening_context(tokens, at)?;
        if sought_at(Mark::Math, tokens, at + 1).is_some() {
            return self.display_end(tokens, at, context);
        }
        let last = self.next_dollar(tokens, at, context)?;
        if !closes_at(tokens, last) {
            return None;
        }
        Some(MathEnd {
            last,
            display: false,
        })
    }

    // The end of the display math that this dollar sign and the next token begin, both dollar signs.
    #[tactic(auto, unfolding(crate::specs::TokenEnds::display_end))]
    fn display_end(&self, tokens: &[(usize, Item)], at: usize, context: usize) -> Option<MathEnd>
        requires ends { AreEndsOf tokens.now self.now }
        requires first { key_at math_key tokens.now at ≡ Some context }
        requires second { at + 1 < length tokens.now }
        ensures value { result ≡ display_end tokens.now at context }
        ensures within { IfSome result (λ end. (at < end.last) × (end.last < length tokens.now)) }
    {
        let next = self.dollar_after(tokens, at, context)?;
        if sought_at(Mark::Math, tokens, next + 1).is_none() {
            return None;
        }
        Some(MathEnd {
            last: next + 1,
            display: true,
        })
    }

    // The next dollar sign of this brace context after the token that follows the one with index `at`.
    fn dollar_after(&self, tokens: &[(usize, Item)], at: usize, context: usize) -> Option<usize>
        requires ends { AreEndsOf tokens.now self.now }
        requires first { key_at math_key tokens.now at ≡ Some context }
        requires second { at + 1 < length tokens.now }
        ensures value { result ≡ later (has_math context) tokens.now (at + 1) }
        ensures within { IfSome result (λ next. (at < next) × (next < length tokens.now)) }
    {
        if sought_at(Mark::Math, tokens, at + 1) == Some(context) {
            return self.next_dollar(tokens, at + 1, context);
        }
        self.next_dollar(tokens, at, context)
    }

    // The next dollar sign of this brace context, which the token with index `at` has.
    fn next_dollar(&self, tokens: &[(usize, Item)], at: usize, context: usize) -> Option<usize>
        requires ends { AreEndsOf tokens.now self.now }
        requires here { key_at math_key tokens.now at ≡ Some context }
        ensures value { result ≡ later (has_math context) tokens.now at }
        ensures within { IfSome result (λ next. (at < next) × (next < length tokens.now)) }
    {
        in_chain(tokens, &self.math, at)
    }
}

// The entry of a table for the token with this index, if it is the index of a token.
fn in_chain(tokens: &[(usize, Item)], next: &[usize], at: usize) -> Option<usize>
    requires { at < length next.now }
    ensures value { result ≡ in_chain tokens.now (slice_index next.now at) }
    ensures within { IfSome result (λ i. (i ≡ slice_index next.now at) × (i < length tokens.now)) }
{
    let index = next[at];
    if index < tokens.len() {
        Some(index)
    } else {
        None
    }
}

// The brace context of the dollar sign with this index, if it can open math.
fn opening_context(tokens: &[(usize, Item)], at: usize) -> Option<usize>
    ensures value { result ≡ key_at opening_context tokens.now at }
    ensures math { IfSome result (λ context. key_at math_key tokens.now at ≡ Some context) }
    ensures within { IfSome result (λ context. at < length tokens.now) }
{
    let (_, token) = tokens.get(at)?;
    match token.body {
        ItemBody::MaybeMath(true, _, context) => Some(usize::from(context)),
        _ => None,
    }
}

// Whether the token with this index is a dollar sign that can close math.
fn closes_at(tokens: &[(usize, Item)], at: usize) -> bool
    ensures { result ≡ closes_at tokens.now at }
{
    match tokens.get(at) {
        Some((_, token)) => matches!(token.body, ItemBody::MaybeMath(_, true, _)),
        None => false,
    }
}

// The number of the mark that the token with this index has: of a run of backquotes its length, of a dollar sign its
// brace context.
fn key_at(mark: Mark, tokens: &[(usize, Item)], at: usize) -> Option<usize>
    ensures value { result ≡ key_at (key mark) tokens.now at }
{
    let (_, token) = tokens.get(at)?;
    match mark {
        Mark::Code => code_key(token.body),
        Mark::Math => math_key(token.body),
    }
}

// The length of a run of backquotes.
fn code_key(body: ItemBody) -> Option<usize>
    ensures { result ≡ code_key body }
{
    match body {
        ItemBody::MaybeCode(count, _) => Some(count),
        _ => None,
    }
}

// The brace context of a dollar sign.
fn math_key(body: ItemBody) -> Option<usize>
    ensures { result ≡ math_key body }
{
    match body {
        ItemBody::MaybeMath(_, _, context) => Some(usize::from(context)),
        _ => None,
    }
}

// The length of the run that ends the code span that a run of backquotes begins, if it can begin one.
fn code_sought(body: ItemBody) -> Option<usize>
    ensures { result ≡ code_sought body }
{
    match body {
        ItemBody::MaybeCode(count, false) if 0 < count => Some(count),
        ItemBody::MaybeCode(count, true) if 1 < count => Some(count - 1),
        _ => None,
    }
}

// The number of the mark that the token with this index seeks.
fn sought_at(mark: Mark, tokens: &[(usize, Item)], at: usize) -> Option<usize>
    ensures value { result ≡ key_at (sought mark) tokens.now at }
    ensures within { IfSome result (λ n. at < length tokens.now) }
{
    let (_, token) = tokens.get(at)?;
    match mark {
        Mark::Code => code_sought(token.body),
        Mark::Math => math_key(token.body),
    }
}

// For each token that seeks a number the next token that has it: its index, or the number of tokens.
fn next_tokens(
    alloc: Global,
    tokens: &[(usize, Item)],
    mark: Mark,
) -> Result<Vec<usize>, AllocError>
    ensures { IfOk result (λ next. IsNextFrom mark tokens.now 0 next.items) }
{
    let Some(most) = greatest_key(mark, tokens) else {
        return Ok(Vec::new(alloc));
    };
    let mut last = vec![in alloc; tokens.len(); most]?;
    last.push(tokens.len())?;
    let mut next = vec![in alloc; tokens.len(); tokens.len()]?;
    let mut at = tokens.len();
    while 0 < at {
        at -= 1;
        write_next(mark, tokens, at, &last, &mut next);
        write_last(mark, tokens, at, &mut last);
    }
    Ok(next)
}

// Writes the next token for the token with this index.
fn write_next(
    mark: Mark,
    tokens: &[(usize, Item)],
    at: usize,
    last: &[usize],
    next: &mut Vec<usize>,
)
    requires keys { KeysBelow mark tokens.now (length last.now) }
    requires last { IsLastFrom mark tokens.now (at + 1) last.now }
    requires size { at < length next.old.items }
    requires next { IsNextFrom mark tokens.now (at + 1) next.old.items }
    ensures size { length next.new.items ≡ length next.old.items }
    ensures next { IsNextFrom mark tokens.now at next.new.items }
{
    if let Some(n) = sought_at(mark, tokens, at) {
        next[at] = last[n];
    }
}

// Writes the index of a token as the first one that has its number.
fn write_last(mark: Mark, tokens: &[(usize, Item)], at: usize, last: &mut Vec<usize>)
    requires size { at < length tokens.now }
    requires keys { KeysBelow mark tokens.now (length last.old.items) }
    requires last { IsLastFrom mark tokens.now (at + 1) last.old.items }
    ensures size { length last.new.items ≡ length last.old.items }
    ensures last { IsLastFrom mark tokens.now at last.new.items }
{
    if let Some(n) = key_at(mark, tokens, at) {
        last[n] = at;
    }
}

// The greatest number of the mark that a token has, if any has one.
fn greatest_key(mark: Mark, tokens: &[(usize, Item)]) -> Option<usize>
    ensures { KeysIn mark tokens.now (length tokens.now) result }
{
    let mut most = None;
    for at in 0..tokens.len() {
        most = greater(most, key_at(mark, tokens, at));
    }
    most
}

// The greater of two numbers, each of which may be absent.
fn greater(first: Option<usize>, second: Option<usize>) -> Option<usize>
    ensures first { (n : ℕ) → IsSomeAnd first (λ most. n ≤ most) → IsSomeAnd result (λ most. n ≤ most) }
    ensures second { (n : ℕ) → second ≡ Some n → IsSomeAnd result (λ most. n ≤ most) }
{
    match (first, second) {
        (None, other) => other,
        (most, None) => most,
        (Some(one), Some(other)) => Some(one.max(other)),
    }
}
