// Stored cases of replay: the number, every data byte and every byte of the result, also those that a refusal leaves alone.
// `harness/stored_cases crates/check_replays/data` makes cases.bin, whose layout harness/stored_cases.rs describes, and
// cases.txt, whose line k names case k and what it gives.
#![tactic(auto)]

mod cases;
mod tally;

use std::io;
use tally::Tally;

fn main(rt: HostRuntime) -> io::Result<()> {
    let Some(mut file) = vectors::opened(&rt, "cases.bin")? else {
        return Ok(());
    };
    let mut tally = Tally::default();
    // here and below a line that cannot be written is let go, and those after it are tried
    if !cases::all(&rt, &mut file, &mut tally) {
        let _ = println!(rt; "cases.bin breaks off within a case");
    }
    tally.print(&rt);
    Ok(())
}
