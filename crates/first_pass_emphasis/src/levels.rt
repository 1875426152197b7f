//! The levels of a chain: the parts between the brackets of links and images, and what is outside of all.

ghost use Rattle.first_pass_emphasis.specs.declared.levels.Level.{Level};
ghost use Rattle.first_pass_emphasis.specs.declared.role.Role.{Role};
ghost use Rattle.first_pass_emphasis.specs.declared.role.Role.TheVariants.{Text};
ghost use Rattle.first_pass_emphasis.specs.Levels.{IsNestingOf, Nested, chain_roles};
ghost use Rattle.first_pass_emphasis.specs.Parts.{Part};
ghost use Rattle.first_pass_emphasis.specs.Walks.{Around, Holds, IsReadLevel, IsSettled, IsWalkBefore, Within as WithinLevel};
ghost use Rattle.first_pass_inline.specs.declared.mark.Mark.{Mark};
ghost use Rattle.std.specs.Prelude.{◌≡◌, ℕ, ◌++◌, ◌∷◌, [], ◌≤◌, drop, length, replicate, List, IfOk};

use crate::quotes::{PlacedQuote, pair_quotes};
use crate::reduce::{Pass, reduce};
use crate::role::Role;
use crate::run::PlacedRun;
use crate::token::{Side, Token, side_of, token_of};
use first_pass_inline::mark::Mark;
use first_pass_items::option_set::Options;
use std::alloc::{AllocError, Global};

// A level that is being read: how many runs and quotation marks there are before it, and the place of the content at
// which it begins or before it.
#[derive(Clone, Copy, PartialEq, Eq)]
pub(crate) struct Level {
    runs: usize,
    quotes: usize,
    from: usize,
}

// The state of the walk over the marks: the roles of those that were read; the runs and the quotation marks of all
// levels that are being read; the levels around the innermost one; and that one.
#[derive(Drop)]
pub(crate) struct Walk {
    pass: Pass,
    runs: Vec<PlacedRun>,
    quotes: Vec<PlacedQuote>,
    outer: Vec<Level>,
    level: Level,
}

/// Returns the role of each mark of a chain with this content: what becomes of its delimiters and its quotation marks.
/// Fails only if an allocation fails.
pub fn roles_of(
    alloc: Global,
    content: &[u8],
    options: Options,
    marks: &[Mark],
) -> Result<Vec<Role>, AllocError>
    requires nested { (n : Nested) × IsNestingOf marks.now n }
    ensures { IfOk result (λ roles. (n : Nested) → IsNestingOf marks.now n
        → roles.items ≡ chain_roles content.now options n) }
{
    let mut walk = Walk {
        pass: Pass {
            roles: Vec::new(alloc),
            stack: Vec::new(alloc),
            bottoms: Vec::new(alloc),
        },
        runs: Vec::new(alloc),
        quotes: Vec::new(alloc),
        outer: Vec::new(alloc),
        level: Level {
            runs: 0,
            quotes: 0,
            from: 0,
        },
    };
    let mut rest = marks;
    while let Some((mark, following)) = rest.split_first() {
        let read = read(&mut walk, content, options, *mark, following)?;
        rest = &following[read..];
    }
    settle(&mut walk)?;
    Ok(walk.pass.roles)
}

// Reads a mark. Returns how many of the marks that follow it belong to the same run.
fn read(
    walk: &mut Walk,
    content: &[u8],
    options: Options,
    mark: Mark,
    following: &[Mark],
) -> Result<usize, AllocError>
    requires before { (goal : List Role) × IsWalkBefore content.now options goal (mark ∷ following.now) walk.old }
    ensures before { IfOk result (λ read. (goal : List Role)
        → IsWalkBefore content.now options goal (mark ∷ following.now) walk.old
        → IsWalkBefore content.now options goal (drop read following.now) walk.new) }
    ensures within { IfOk result (λ read. read ≤ length following.now) }
{
    match side_of(mark.kind) {
        Side::Before(from) => {
            open(walk, from)?;
            Ok(0)
        }
        Side::After => {
            close(walk)?;
            Ok(0)
        }
        Side::Within => {
            match token_of(content, options, walk.level.from, mark, following) {
                Token::Delimiter(run) => {
                    let at = walk.pass.roles.len();
                    walk.runs.push(PlacedRun { run, at })?;
                    push_text(&mut walk.pass.roles, run.size)?;
                    Ok(run.size - 1)
                }
                Token::Quotation(quote) => {
                    let at = walk.pass.roles.len();
                    walk.quotes.push(PlacedQuote { quote, at })?;
                    walk.pass.roles.push(Role::Text)?;
                    Ok(0)
                }
                Token::Other => {
                    walk.pass.roles.push(Role::Text)?;
                    Ok(0)
                }
            }
        }
    }
}

// Appends the role of text several times.
fn push_text(roles: &mut Vec<Role>, count: usize) -> Result<(), AllocError>
    ensures { IfOk result (λ _. roles.new.items ≡ roles.old.items ++ replicate count Text) }
{
    for _ in 0..count {
        roles.push(Role::Text)?;
    }
    Ok(())
}

// Begins a level after a bracket.
fn open(walk: &mut Walk, from: usize) -> Result<(), AllocError>
    ensures { IfOk result (λ _. (o : Around) (outer : ℕ) (us : List Part) (closes : Mark) (r : Nested)
        → Holds o outer us walk.old → Holds (WithinLevel o us closes r outer) from [] walk.new) }
{
    walk.outer.push(walk.level)?;
    walk.level = Level {
        runs: walk.runs.len(),
        quotes: walk.quotes.len(),
        from,
    };
    walk.pass.roles.push(Role::Text)?;
    Ok(())
}

// Ends a level before a bracket.
fn close(walk: &mut Walk) -> Result<(), AllocError>
    requires { (o : Around) × (from : ℕ) × (ts : List Part) × Holds o from ts walk.old }
    ensures { IfOk result (λ _. (o : Around) (from : ℕ) (ts : List Part) → IsReadLevel o from ts walk.old walk.new) }
{
    settle(walk)?;
    walk.runs.truncate(walk.level.runs);
    walk.quotes.truncate(walk.level.quotes);
    walk.level = leave(&mut walk.outer, walk.level);
    walk.pass.roles.push(Role::Text)?;
    Ok(())
}

// Takes the innermost one off the levels around one, and returns it.
fn leave(outer: &mut Vec<Level>, level: Level) -> Level
    ensures { (around : List Level) (last : Level) → outer.old.items ≡ around ++ last ∷ []
        → (outer.new.items ≡ around) × (result ≡ last) }
{
    match outer.pop() {
        Some(around) => around,
        None => level,
    }
}

// Writes the roles of the innermost level: those of quotation marks, and those of delimiters.
fn settle(walk: &mut Walk) -> Result<(), AllocError>
    requires { (o : Around) × (from : ℕ) × (ts : List Part) × Holds o from ts walk.old }
    ensures { IfOk result (λ _. (o : Around) (from : ℕ) (ts : List Part) → Holds o from ts walk.old
        → IsSettled o from ts walk.new) }
{
    pair_quotes(&mut walk.pass.roles, &walk.quotes[walk.level.quotes..]);
    reduce(&mut walk.pass, &walk.runs[walk.level.runs..])?;
    Ok(())
}
