//! The parts below and beside the pass, if a case needs several calls, a tree made by hand or a text built in a loop:
//! columns, labels, lines of offsets, what single nodes name, samples of texts, titles, trees, walks. Also the check of
//! ranges and the pieces of texts of `first_pass_cases`. A case with one text and one result is in `scan_cases`.
#![tactic(auto)]

#[cfg(test)]
mod tests;
