//! The number of checks, and their results.

use std::alloc::AllocError;

/// The numbers of texts and fronts read, of trees not in order, and of wrong trees made and reported.
#[derive(Clone, Copy)]
pub struct Sums {
    pub texts: usize,
    pub fronts: usize,
    pub breaches: usize,
    pub wrong: usize,
    pub told: usize,
}

impl Sums {
    pub fn new() -> Sums {
        Sums {
            texts: 0,
            fronts: 0,
            breaches: 0,
            wrong: 0,
            told: 0,
        }
    }

    /// Counts one more text.
    pub fn count_text(&mut self) {
        self.texts = self.texts.saturating_add(1);
    }

    /// Counts one more front.
    pub fn count_front(&mut self, is_breach: bool) {
        self.fronts = self.fronts.saturating_add(1);
        self.breaches = self.breaches.saturating_add(usize::from(is_breach));
    }

    /// Counts one more wrong tree.
    pub fn count_wrong(&mut self, is_told: bool) {
        self.wrong = self.wrong.saturating_add(1);
        self.told = self.told.saturating_add(usize::from(is_told));
    }

    /// Appends the line that ends a report.
    pub fn append_line(&self, report: &mut String) -> Result<(), AllocError> {
        let (texts, fronts, breaches) = (self.texts, self.fronts, self.breaches);
        let (wrong, told) = (self.wrong, self.told);
        write!(
            report,
            "{texts} texts, {fronts} fronts, {breaches} breaches, "
        )?;
        write!(report, "{told} of {wrong} wrong trees told\n")
    }

    /// Returns the number of fronts not in order, and of wrong trees that are not reported for their own fault.
    pub fn differ(&self) -> usize {
        let untold = self.wrong.saturating_sub(self.told);
        self.breaches.saturating_add(untold)
    }
}
