// Exported for the benchmark of the in-order run, docs/SPEED.md, and for nothing else.
#![tactic(auto)]

ghost use Rattle.std.specs.Prelude.{◌≡◌, ◌^◌, ◌≤◌, length};
ghost use Rattle.timing.specs.Timing as Timing;

use refusals::Refusal;

// What many calls of the run come to: the steps of all of them, and document 01's cause and refusal, which C takes as
// numbers.
#[repr(C)]
#[derive(Clone, Copy, Debug, PartialEq, Eq, Default)]
pub struct Timed {
    pub steps: u64,
    pub cause: u32,
    pub refusal: u32,
}

// Calls of the run with n = 65,535, the first from zero registers at address 0, each of the others from where the one
// before it ended, until a stop.
#[unsafe(no_mangle)]
pub extern "C" fn timing_run(program: &[u8], data: &mut [u8], calls: u32) -> Timed
    ensures { Timing.timed_of calls program.now «data».old ≡ record { answer = result; memory = «data».new } }
{
    if let Err(refusal) = reference::lengths::check_lent(program, data) {
        return Timed {
            steps: 0,
            cause: 0,
            refusal: u32::from(refusal),
        };
    }
    let mut values = [0u32; 32];
    let mut at: u32 = 0;
    let mut steps: u64 = 0;
    for _ in 0..calls {
        let ran = reference::run(program, data, values, at, 65_535);
        steps += ran.steps as u64;
        let stop = ran.stop;
        if stop.cause != 0 {
            return Timed {
                steps,
                cause: stop.cause as u32,
                refusal: 0,
            };
        }
        values = ran.registers;
        at = ran.address;
    }
    Timed {
        steps,
        cause: 0,
        refusal: 0,
    }
}

// what a word reads as, in one number
#[tactic(auto, using(crate::proofs::Sums::lighter))]
fn weight(word: u32) -> u64
    ensures sum { result ≡ Timing.weight word }
    ensures light { result ≤ 2 ^ 33 }
{
    let i = isa::read(word).unwrap_or_default();
    let fields = i.operation as u64 + i.rd as u64 + i.rs1 as u64 + i.rs2 as u64;
    fields + word::to_word(i.constant) as u64
}

// one round
fn weights(words: &[u32]) -> u64
    requires { length words.now ≤ 4_096 }
    ensures { result ≡ Timing.weights words.now }
{
    words.iter().map(|&word| weight(word)).sum()
}

// The sum of all that the words read as, read anew in each of the rounds; 0 above 4,096 words.
#[unsafe(no_mangle)]
#[tactic(auto, using(crate::proofs::Sums::round_most), unfolding(crate::specs::Timing::read_of_all))]
pub extern "C" fn timing_read(words: &[u32], rounds: u16) -> u64
    ensures { result ≡ Timing.read_of_all rounds words.now }
{
    if 4_096 < words.len() {
        return 0;
    }
    let mut sum: u64 = 0;
    for _ in 0..rounds {
        sum += weights(words);
    }
    sum
}
