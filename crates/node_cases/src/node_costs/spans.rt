//! Adds up how long calls took.

use std::io;

/// How long calls took, in nanoseconds.
#[derive(Clone, Copy)]
pub struct Spans {
    least: u64,
    sum: u64,
    count: u64,
}

impl Spans {
    /// The times of no calls.
    pub fn none() -> Spans {
        Spans {
            least: u64::MAX,
            sum: 0,
            count: 0,
        }
    }

    /// Adds the time of a further call.
    pub fn note(&mut self, spent: u64) {
        self.least = self.least.min(spent);
        self.sum = self.sum.saturating_add(spent);
        self.count = self.count.saturating_add(1);
    }

    /// Prints the least time and the mean.
    pub fn print_spans(&self, rt: &HostRuntime, name: &str) -> io::Result<()> {
        let least = self.least;
        let mean = self.sum.checked_div(self.count).unwrap_or(0);
        eprintln!(*rt; "  {name}: {least}, {mean}")
    }
}
