//! Counts runs, and what differed from the expected.

use std::io;

/// The numbers in the last line of a list.
#[derive(Drop)]
pub(crate) struct Tally {
    folders: u64,
    runs: u64,
    differences: u64,
}

impl Tally {
    /// All counts are 0.
    pub(crate) fn new() -> Tally {
        Tally {
            folders: 0,
            runs: 0,
            differences: 0,
        }
    }

    /// Counts a folder.
    pub(crate) fn count_folder(&mut self) {
        self.folders = self.folders.saturating_add(1);
    }

    /// Counts a run, and whether it ended differently than expected.
    pub(crate) fn count_run(&mut self, differs: bool) {
        self.runs = self.runs.saturating_add(1);
        self.count_look(differs);
    }

    /// Counts whether a file differs from the expected.
    pub(crate) fn count_look(&mut self, differs: bool) {
        if differs {
            self.differences = self.differences.saturating_add(1);
        }
    }

    /// Prints the last line of a list, and returns whether everything was as expected.
    pub(crate) fn conclude(&self, rt: &impl Print, list: &str) -> io::Result<bool> {
        let folders = self.folders;
        let runs = self.runs;
        let differences = self.differences;
        if differences == 0 {
            println!(rt; "{list}: {runs} runs in {folders} folders end as they must")?;
        } else {
            println!(rt; "{list}: {differences} differences in {runs} runs in {folders} folders")?;
        }
        Ok(differences == 0)
    }
}
