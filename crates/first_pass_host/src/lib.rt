//! The environment of a program: its words, the whole input, the output in pieces, its faults and a clock. The run
//! of a program over a text: it reads its words and its input, and writes its report, such as the lines of a tree.
//! Timing of runs: the number of runs that is enough, the task in the words, and the line of output.
#![tactic(auto)]

pub mod clock;
pub mod exit;
pub mod fault;
pub mod input;
pub mod option_word;
pub mod output;
pub mod program;
pub mod report;
pub mod task;
pub mod timing;
pub mod timing_line;
pub mod tree_report;
pub mod words;
