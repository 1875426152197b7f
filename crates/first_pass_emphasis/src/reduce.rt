//! The runs of a level, reduced with one stack.

ghost use Rattle.first_pass_emphasis.specs.Bottoms.{AreBottoms, IsBottom, lowered};
ghost use Rattle.first_pass_emphasis.specs.declared.reduce.Entry.{Entry};
ghost use Rattle.first_pass_emphasis.specs.declared.role.Role.{Role};
ghost use Rattle.first_pass_emphasis.specs.Parts.{Part};
ghost use Rattle.first_pass_emphasis.specs.Pieces.{Pieces, reduced, roles as roles_in};
ghost use Rattle.first_pass_emphasis.specs.Stacks.{IsAt, IsBefore, IsClosed, IsLevel, IsNearest, IsRead, IsReady, IsTried};
ghost use Rattle.std.specs.Prelude.{◌≡◌, ◌+◌, ◌++◌, ◌<◌, ◌≤◌, length, replicate, take, drop, map, List, IfOk};

use crate::role::Role;
use crate::run::{PlacedRun, Run, fits, format, is_same_class, width};
use std::alloc::AllocError;

// A run on the stack: how many of its delimiters are left, and the index of the role after them.
#[derive(Clone, Copy, PartialEq, Eq)]
pub(crate) struct Entry {
    run: Run,
    left: usize,
    end: usize,
}

// Below the index `low` of the stack there is no opener of a closer of the class of `run`.
#[derive(Clone, Copy, PartialEq, Eq)]
pub(crate) struct Bottom {
    run: Run,
    low: usize,
}

// The roles of what was read; and of the level that is reduced the runs that are in no formatted text, and bottoms, at
// most one for each class.
#[derive(Drop)]
pub(crate) struct Pass {
    pub(crate) roles: Vec<Role>,
    pub(crate) stack: Vec<Entry>,
    pub(crate) bottoms: Vec<Bottom>,
}

/// Reduces the level at the end of these roles, given its runs. Fails only if an allocation fails.
pub(crate) fn reduce(pass: &mut Pass, runs: &[PlacedRun]) -> Result<(), AllocError>
    requires level { (outside : List Role) × (ts : List Part) × IsLevel outside ts pass.old.roles.items runs.now }
    ensures { IfOk result (λ _. (outside : List Role) (ts : List Part)
        → IsLevel outside ts pass.old.roles.items runs.now → pass.new.roles.items ≡ outside ++ roles_in (reduced ts)) }
{
    pass.stack.clear();
    pass.bottoms.clear();
    for i in 0..runs.len() {
        read(pass, runs, i)?;
    }
    Ok(())
}

// Reads the run at an index of the runs.
fn read(pass: &mut Pass, runs: &[PlacedRun], i: usize) -> Result<(), AllocError>
    requires before { (goal : Pieces) × IsBefore goal (drop i runs.now) pass.old }
    requires within { i < length runs.now }
    ensures { IfOk result (λ _. (goal : Pieces) → IsBefore goal (drop i runs.now) pass.old
        → IsBefore goal (drop (i + 1) runs.now) pass.new) }
{
    let placed = runs[i];
    read_run(pass, placed.run, placed.at)?;
    Ok(())
}

// Reads a run: it closes what it can, and what is left of it goes on the stack.
fn read_run(pass: &mut Pass, run: Run, at: usize) -> Result<(), AllocError>
    requires ready { IsReady run.size at pass.old }
    ensures { IfOk result (λ _. (p : Pieces) (rest : List Role) → IsAt p run.size rest at pass.old
        → IsRead p rest run pass.new) }
{
    let left = close_all(pass, run, at)?;
    let end = at + run.size;
    pass.stack.push(Entry { run, left, end })?;
    Ok(())
}

// Closes what it can. Returns how many delimiters of the run are left.
fn close_all(pass: &mut Pass, run: Run, at: usize) -> Result<usize, AllocError>
    requires ready { IsReady run.size at pass.old }
    ensures { IfOk result (λ more. (p : Pieces) (rest : List Role) → IsAt p run.size rest at pass.old
        → IsClosed p rest run more pass.new) }
{
    let mut more = run.size;
    let mut at = at;
    while more > 0 {
        let taken = close(pass, run, more, at)?;
        if taken == 0 {
            return Ok(more);
        }
        more -= taken;
        at += taken;
    }
    Ok(0)
}

// Closes what the nearest opener began. Returns how many delimiters that took: none, if there is no opener.
fn close(pass: &mut Pass, run: Run, more: usize, at: usize) -> Result<usize, AllocError>
    requires ready { IsReady more at pass.old }
    requires some { 0 < more }
    ensures { IfOk result (λ taken. (p : Pieces) (rest : List Role) → IsAt p more rest at pass.old
        → IsTried p rest at run more taken pass.new) }
{
    let low = bottom_of(&pass.bottoms, run);
    match nearest(&pass.stack, low, run, more) {
        None => {
            record_bottom(&mut pass.bottoms, run, pass.stack.len())?;
            Ok(0)
        }
        Some(index) => {
            let opener = pass.stack[index];
            let taken = width(opener.run, opener.left, more);
            let left = opener.left - taken;
            let end = opener.end - taken;
            let made = format(opener.run, taken);
            write(&mut pass.roles, end, taken, Role::Opens(made, taken));
            write(&mut pass.roles, at, taken, Role::Closes(made, taken));
            pass.stack.truncate(index);
            pass.stack.push(Entry {
                run: opener.run,
                left,
                end,
            })?;
            lower(&mut pass.bottoms, index + 1);
            Ok(taken)
        }
    }
}

// Returns the index of the last run that can be the opener. There is none below `low`.
fn nearest(stack: &[Entry], low: usize, run: Run, more: usize) -> Option<usize>
    requires { IsBottom stack.now run low }
    ensures { IsNearest stack.now run more result }
{
    let mut at = stack.len();
    while at > low {
        at -= 1;
        let entry = stack[at];
        if fits(entry.run, entry.left, run, more) {
            return Some(at);
        }
    }
    None
}

// Returns the bottom of a closer: 0 if none is recorded for its class.
fn bottom_of(bottoms: &[Bottom], run: Run) -> usize
    ensures { (es : List Entry) → AreBottoms es bottoms.now → IsBottom es run result }
{
    for bottom in bottoms {
        if is_same_class(bottom.run, run) {
            return bottom.low;
        }
    }
    0
}

// Records the bottom of a closer, in place of that of its class.
fn record_bottom(bottoms: &mut Vec<Bottom>, run: Run, low: usize) -> Result<(), AllocError>
    ensures { IfOk result (λ _. (es : List Entry) → AreBottoms es bottoms.old.items → IsBottom es run low
        → AreBottoms es bottoms.new.items) }
{
    for i in 0..bottoms.len() {
        if is_same_class(bottoms[i].run, run) {
            bottoms[i] = Bottom { run, low };
            return Ok(());
        }
    }
    bottoms.push(Bottom { run, low })?;
    Ok(())
}

// Lowers the bottoms to the height of the stack.
fn lower(bottoms: &mut Vec<Bottom>, height: usize)
    ensures { bottoms.new.items ≡ map (lowered height) bottoms.old.items }
{
    for i in 0..bottoms.len() {
        let bottom = bottoms[i];
        bottoms[i] = Bottom {
            run: bottom.run,
            low: bottom.low.min(height),
        };
    }
}

// Writes a role several times from an index on.
fn write(roles: &mut Vec<Role>, at: usize, count: usize, role: Role)
    requires { at + count ≤ length roles.old.items }
    ensures { roles.new.items ≡ take at roles.old.items
        ++ (replicate count role ++ drop (at + count) roles.old.items) }
{
    for i in 0..count {
        roles[at + i] = role;
    }
}
