// Text for the programs: on standard output and standard error as it comes, and gathered. Where a write fails, its error
// is handed back, and what was to follow is not written.
#![tactic(auto)]

pub mod gather;

use std::io;

// `to` is the runtime, which prints on standard output, or standard error, which prints too.
pub fn text(to: &impl Print, s: &[u8]) -> io::Result<()> {
    to.write_all(s)
}

pub fn decimal(to: &impl Print, n: usize) -> io::Result<()> {
    to.print(n)
}

// A number after a space.
pub fn number(to: &impl Print, n: usize) -> io::Result<()> {
    text(to, b" ")?;
    decimal(to, n)
}
