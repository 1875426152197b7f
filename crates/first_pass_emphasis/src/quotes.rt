//! Quotation marks of a level.

ghost use Rattle.first_pass_emphasis.specs.declared.role.Role.{Role};
ghost use Rattle.first_pass_emphasis.specs.Parts.{Part, raw};
ghost use Rattle.first_pass_emphasis.specs.Quotes.{begins_pair as begins_by, double_after as double_by, is_single_edge as is_edge, quote_role as role_by, quoted, single_after as single_by};
ghost use Rattle.first_pass_emphasis.specs.Stacks.{IsQuotedLevel, next_closes as next_by};
ghost use Rattle.std.specs.Prelude.{◌≡◌, ◌++◌, List, false};

use crate::role::Role;

/// A quotation mark: its byte, and whether it can open and close, as a delimiter run of one byte.
#[derive(Clone, Copy, PartialEq, Eq)]
pub(crate) struct Quote {
    pub(crate) byte: u8,
    pub(crate) opens: bool,
    pub(crate) closes: bool,
}

/// A quotation mark, and the index of its role.
#[derive(Clone, Copy, PartialEq, Eq)]
pub(crate) struct PlacedQuote {
    pub(crate) quote: Quote,
    pub(crate) at: usize,
}

/// Writes the roles of the quotation marks of a level at the end of these.
pub(crate) fn pair_quotes(roles: &mut Vec<Role>, quotes: &[PlacedQuote])
    requires level { (outside : List Role) × (ts : List Part) × IsQuotedLevel outside ts roles.old.items quotes.now }
    ensures { (outside : List Role) (ts : List Part) → IsQuotedLevel outside ts roles.old.items quotes.now
        → roles.new.items ≡ outside ++ raw (quoted false false ts) }
{
    let mut double = false;
    let mut single = false;
    let mut rest = quotes;
    while let Some((placed, later)) = rest.split_first() {
        let begins = begins_pair(single, placed.quote, later);
        roles[placed.at] = quote_role(double, begins, placed.quote);
        double = double_after(double, placed.quote);
        single = single_after(single, begins, placed.quote);
        rest = later;
    }
}

// The role of a quotation mark, given whether a pair of double ones is open, and whether it begins a pair of single
// ones.
fn quote_role(double: bool, begins: bool, quote: Quote) -> Role
    ensures { result ≡ role_by double begins quote }
{
    let is_left = if quote.byte == b'"' {
        !(double && quote.closes)
    } else {
        begins
    };
    if is_left {
        Role::LeftQuote
    } else {
        Role::RightQuote
    }
}

// Whether a pair of double quotation marks is open after one.
fn double_after(double: bool, quote: Quote) -> bool
    ensures { result ≡ double_by double quote }
{
    if quote.byte != b'"' {
        return double;
    }
    if double { !quote.closes } else { quote.opens }
}

// Whether a pair of single quotation marks is open after one, given whether this begins one.
fn single_after(single: bool, begins: bool, quote: Quote) -> bool
    ensures { result ≡ single_by single begins quote }
{
    if quote.byte == b'"' {
        return single;
    }
    if single { !quote.closes } else { begins }
}

// Whether a quotation mark begins a pair of single ones, given whether a pair is open, and the later ones of its
// level.
fn begins_pair(single: bool, quote: Quote, later: &[PlacedQuote]) -> bool
    ensures { result ≡ begins_by single quote (next_by later.now) }
{
    quote.byte != b'"' && !single && quote.opens && next_closes(later)
}

// Whether this is a single quotation mark that can open or close.
fn is_single_edge(quote: Quote) -> bool
    ensures { result ≡ is_edge quote }
{
    quote.byte != b'"' && (quote.opens || quote.closes)
}

// Whether the first of these single quotation marks that can open or close can close.
fn next_closes(quotes: &[PlacedQuote]) -> bool
    ensures { result ≡ next_by quotes.now }
{
    let mut rest = quotes;
    while let Some((placed, later)) = rest.split_first() {
        if is_single_edge(placed.quote) {
            return placed.quote.closes;
        }
        rest = later;
    }
    false
}
