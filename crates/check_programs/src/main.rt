// Whole programs as QEMU runs them, random ones and compiled ones, compared with the in-order run.
// The files and their layout: tools/programs.py and tools/compiled.py.
// A line that cannot be written is let go, and the next is tried.
#![tactic(auto)]

mod compiled;
mod random;

use std::io;

fn main(rt: HostRuntime) -> io::Result<()> {
    random::test(&rt)?;
    compiled::test(&rt)
}
