//! The task in the words after the program's name.

ghost use Rattle.first_pass_host.specs.declared.task.Task.{Task};
ghost use Rattle.first_pass_host.specs.Task.{AskFor, AsksFor};
ghost use Rattle.std.specs.Prelude.{ℕ, IfSome, IsNone};

use crate::option_word::{begins_with_plus, parse_options};
use first_pass_items::option_set::Options;

/// A task: the options of the pass, and the number of runs, if one is given.
#[derive(Clone, Copy)]
pub struct Task {
    pub options: Options,
    pub runs: Option<u32>,
}

/// Returns the task in the words after a program's name: `[BITS [RUNS]]`. `BITS` is a word for `parse_options`, and
/// `RUNS` is one or more ASCII digits with a value from 1 to `u32::MAX`. Returns `None` for any other words.
/// Allocates nothing.
#[tactic(auto, using(crate::proofs::TaskWords::refused_first, crate::proofs::TaskWords::refused_whole))]
pub fn parse_task(words: &[String]) -> Option<Task>
    ensures some { IfSome result (λ task. AskFor words.now task) }
    ensures none { IsNone result → (task : Task) → ¬ AskFor words.now task }
{
    if words.len() != 2 {
        // Three or more words denote no options.
        let options = parse_options(words)?;
        return Some(Task {
            options,
            runs: None,
        });
    }
    let options = parse_options(&words[..1])?;
    let runs = runs_of(words[1].as_str())?;
    Some(Task {
        options,
        runs: Some(runs),
    })
}

// The number of runs that a word gives.
fn runs_of(word: &str) -> Option<u32>
    ensures some { IfSome result (AsksFor word.now) }
    ensures none { IsNone result → (runs : ℕ) → ¬ AsksFor word.now runs }
{
    if begins_with_plus(word) {
        return None;
    }
    match word.parse::<u32>() {
        Ok(0) => None,
        Ok(runs) => Some(runs),
        Err(_) => None,
    }
}
