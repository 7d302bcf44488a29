use std::process::Abort;

/// Counts the rows of a test, and keeps the number of the first that differs.
#[derive(Clone, Copy)]
pub struct Rows {
    count: u32,
    wrong: Option<u32>,
}

impl Rows {
    /// No row yet.
    pub fn none() -> Rows {
        Rows {
            count: 0,
            wrong: None,
        }
    }

    /// One more row: what came, and what was wanted.
    pub fn row<T: PartialEq + Copy>(&mut self, got: T, want: T) {
        self.count = self.count.saturating_add(1);
        if got != want && self.wrong.is_none() {
            self.wrong = Some(self.count);
        }
    }

    /// Ends the test where a row differs.
    pub fn end(&self, rt: &impl Abort) {
        assert_eq!(rt; self.wrong, None, "the first row that differs");
    }
}
