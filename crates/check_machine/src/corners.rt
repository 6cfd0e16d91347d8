// The machines that are damaged: every pair of W and N at the ends of their ranges, fresh or with a full window.
use crate::judging::Trial;
use crate::samples;
use renaming::{Core, Dimensions};

const WINDOWS: [u32; 4] = [1, 2, 63, 64];

const REGISTERS: [u32; 4] = [32, 33, 94, 95];

// Damages all machines in one way, and prints what came of it.
pub fn over(rt: &impl Print, name: &str, damage: fn(&mut Trial))
    requires { IsAlwaysCallable damage }
{
    let mut trial = Trial::default();
    for (j, n) in REGISTERS.iter().enumerate() {
        for (i, w) in WINDOWS.iter().enumerate() {
            // the shortest program with the longest data, or the longest program with one data word
            let (program, bytes) = if i % 2 == j % 2 {
                (4, 16_384)
            } else {
                (16_384, 4)
            };
            let sizes = Dimensions {
                window: *w,
                registers: *n,
                program,
                bytes,
            };
            let Ok(fresh) = Core::set_up(sizes) else {
                trial.miss();
                continue;
            };
            for machine in [fresh, samples::filled(&fresh)] {
                trial.machine = machine;
                damage(&mut trial);
            }
        }
    }
    trial.print(rt, name);
}
