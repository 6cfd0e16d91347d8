// The functions that C harnesses call; harness/cirnhogul.h declares them.
#![tactic(auto)]

ghost use Rattle.std.specs.Prelude.{◌≡◌};
ghost use Rattle.isa.specs.Encodes.{encoded_of};
ghost use Rattle.isa.specs.Reads.{instruction};
ghost use Rattle.bench.specs.Replay.{replay_of};
ghost use Rattle.cirnhogul.specs.Exported as Exported;

// Replay: 0 or the refusal.
#[unsafe(no_mangle)]
pub extern "C" fn cirnhogul_replay(
    program: &[u8],
    data: &mut [u8],
    schedule: &[u8],
    res: &mut [u8],
) -> u32
    ensures { Exported.numbered (replay_of program.now «data».old schedule.now res.old) ≡ record { number = result; memory = «data».new; result = res.new } }
{
    refusals::number_of(&bench::replay(program, data, schedule, res)).into()
}

// The word of these fields: refusal × 2^32 + word.
#[unsafe(no_mangle)]
pub extern "C" fn cirnhogul_encode(
    operation: u32,
    rd: u32,
    rs1: u32,
    rs2: u32,
    constant: i32,
) -> u64
    ensures { result ≡ Exported.packed (encoded_of (instruction operation rd rs1 rs2 constant)) }
{
    match isa::encode(operation, rd, rs1, rs2, constant) {
        Ok(word) => u64::from(word),
        Err(refusal) => u64::from(u32::from(refusal)) * 0x1_0000_0000,
    }
}
