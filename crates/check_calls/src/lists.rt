// Lists of calls from a fresh machine.
use crate::chance;
use crate::chance::draw;
use crate::counting::Counts;
use crate::run::{Run, Until};
use vectors::add;

// A whole list; what was seen in it comes to the counts. Its sum is handed back.
pub fn list(from: u32, k: u32, counts: &mut Counts) -> u64 {
    let seed = draw(from, k).wrapping_add(1);
    let mut run = Run::set_up(k, seed, *counts);
    run.turns(seed, 200, Until::Halt);
    run.end(chance::next(seed));
    add(&mut run.counts.lists, 1);
    *counts = run.counts;
    run.sum.value
}
