// Single steps as QEMU makes them, and steps and runs as the documents have them, compared with the in-order step and run.
// The files and their layout: tools/steps.py and tools/own_steps.py.
// A line that cannot be written is let go, and the next is tried.
#![tactic(auto)]

mod own;
mod qemu;

use std::io;

fn main(rt: HostRuntime) -> io::Result<()> {
    qemu::test(&rt)?;
    own::test(&rt)
}
