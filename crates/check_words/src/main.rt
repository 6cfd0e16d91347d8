// Compares the reader and the encoder with tools that are not ours; tools/README.md says how the three files are made.
// words.bin: words, with the fields that GNU's and LLVM's disassemblers read from them.
// legal.bin: which patterns of the bits 31-25, 14-12 and 6-0 QEMU runs.
// refused.bin: fields that GNU's and LLVM's assemblers, or document 01 itself, refuse.
// A line that cannot be written is let go, and the next is tried.
#![tactic(auto)]

mod operations;
mod patterns;
mod refused;
mod words;

use std::io;

fn main(rt: HostRuntime) -> io::Result<()> {
    words::test(&rt)?;
    patterns::test(&rt)?;
    refused::test(&rt)
}
