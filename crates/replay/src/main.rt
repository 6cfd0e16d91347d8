// Replays the schedule core.sched on the program core.code and the data core.data, files of the working folder, and prints
// what it came to. A missing file is empty; one that cannot be read ends the program with a line on standard error.
#![tactic(auto)]

mod files;
mod lines;

use files::Input;
use formats::schedule;
use reference::lengths;

fn replay(program: &[u8], data: &mut [u8], schedule: &[u8]) {
    let mut result = [0u8; formats::RESULT_LENGTH];
    match bench::replay(program, data, schedule, &mut result) {
        Ok(found) => lines::print(&found),
        Err(refusal) => lines::decimal("refused by ", u8::from(refusal) as u32),
    }
}

// A buffer has one byte more than replay accepts, so that a longer file is refused by its length and not cut to fit. Arrays, and no
// Vec, which can run out of memory.
const PROGRAM: usize = lengths::LONGEST_PROGRAM + 1;

const DATA: usize = lengths::LONGEST_DATA + 1;

const SCHEDULE: usize = schedule::LONGEST + 1;

fn read_and_replay(
    rt: &impl Eprint,
    code: &Input,
    memory: &Input,
    chain: &Input,
) -> std::io::Result<()> {
    let mut program = [0u8; PROGRAM];
    let mut data = [0u8; DATA];
    let mut schedule = [0u8; SCHEDULE];
    let of_program = code.read(&mut program);
    let of_data = memory.read(&mut data);
    let of_schedule = chain.read(&mut schedule);
    // all three are told
    if code.failed(rt)? | memory.failed(rt)? | chain.failed(rt)? {
        return Ok(());
    }
    replay(
        &program[..of_program],
        &mut data[..of_data],
        &schedule[..of_schedule],
    );
    Ok(())
}

fn main(rt: HostRuntime) -> std::io::Result<()> {
    let code = Input::open(&rt, "core.code")?;
    let memory = Input::open(&rt, "core.data")?;
    let chain = Input::open(&rt, "core.sched")?;
    if let (Some(code), Some(memory), Some(chain)) = (code, memory, chain) {
        return read_and_replay(&rt, &code, &memory, &chain);
    }
    Ok(())
}
