// Machines driven call by call, with lists of calls from a seed: after every call the report, the data, the next address and
// the halt are those of the in-order run, a refused call has changed nothing, every register and name is in one place, and the
// machine is as one between calls. Then machines that no list reaches. The second opinion makes the same lists and machines
// (`harness/stored_calls`): the stored output is what it has computed, with a sum over all that every call left.
#![tactic(auto)]

mod accounting;
mod bytes;
mod calls;
mod chance;
mod changes;
mod counting;
mod handed;
mod lists;
mod ordered;
mod programs;
mod resting;
mod run;
mod sums;

use counting::Counts;
use handed::Answers;
use sums::Sum;

// Groups of ten lists, and lists of whose machines some are changed; a line for the sum of each. Scripts write other numbers here, and
// `harness/stored_calls` tells what is to be printed then: fewer where the calls are made wrong, since a run with checks takes
// minutes, and more in `harness/compare_calls`.
const LISTS: u32 = 200;

const MACHINES: u32 = 120;

const SEED: u32 = 0x1234_5678;

// Here and below a line that cannot be written is let go, and those after it are tried.
fn all_lists(rt: &impl Print) {
    let mut counts = Counts::default();
    for group in 0..LISTS {
        let mut sum = Sum::start();
        for k in 0..10 {
            sum.add(lists::list(SEED, 10 * group + k, &mut counts));
        }
        let _ = println!(rt; "lists from {} on: {:016x}", 10 * group, sum.value);
    }
    counts.print(rt);
}

fn all_machines(rt: &impl Print) {
    let mut answers = Answers::default();
    for k in 0..MACHINES {
        let sum = handed::machines(SEED, k, &mut answers);
        let _ = println!(rt; "machines of list {k}: {sum:016x}");
    }
    answers.print(rt);
}

fn main(rt: HostRuntime) {
    all_lists(&rt);
    all_machines(&rt);
}
