// Counts of trials, and of those that came out as expected.
use std::io;
use std::io::Write;

#[derive(Clone, Copy, Default)]
pub struct Tally {
    tried: u32,
    right: u32,
}

impl Tally {
    // One more trial. No group has so many that a count stays at its greatest value.
    pub fn see(self, right: bool) -> Tally {
        Tally {
            tried: self.tried.saturating_add(1),
            right: self.right.saturating_add(u32::from(right)),
        }
    }

    pub fn print<O: Write>(self, out: &mut O, name: &str) -> io::Result<()> {
        let Tally { tried, right } = self;
        writeln!(out, "{name} {right} of {tried}")
    }
}
