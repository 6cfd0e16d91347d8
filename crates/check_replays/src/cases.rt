// The cases of the file, read one after the other, replayed and compared.
use crate::tally::Tally;
use bench::Replayed;
use std::io::Read;

// what stands in a result buffer before the call
const PATTERN: u8 = 0xa5;

// the length of a result buffer: four bytes stand after the result for those that no call may reach
const BUFFER: usize = formats::RESULT_LENGTH + 4;

const HEADER: usize = 32;

// more bytes than replay accepts, so that too many can be lent; a case with a longer part breaks off
const MEMORY: usize = 16_400;

const SCHEDULE: usize = 65_560;

// How many bytes are lent, and the number that replay must answer: a number and no `Refusal`, as in the file, since a test that
// took the numbers from the enum would not see them change.
#[derive(Clone, Copy, Default)]
struct Header {
    program: u32,
    data: u32,
    schedule: u32,
    result: u32,
    number: u32,
}

// What is lent and what the data must be afterwards, each at the start of a buffer, and the result that must come of it.
#[derive(Drop)]
struct Case {
    header: Header,
    program: [u8; MEMORY],
    data: [u8; MEMORY],
    schedule: [u8; SCHEDULE],
    after: [u8; MEMORY],
    want: [u8; BUFFER],
}

// what the file has next
enum Next {
    Case,
    BreaksOff,
    End,
}

// Whether the file has n bytes, and those that fill them up to a multiple of 8, for the buffer's start.
fn part(file: &mut impl Read, n: u32, buffer: &mut [u8]) -> bool {
    let filled = (n as usize).div_ceil(8) * 8;
    buffer
        .get_mut(..filled)
        .is_some_and(|place| vectors::fill(file, place) == filled)
}

// the first n bytes, or all of fewer
fn first(bytes: &[u8], n: u32) -> &[u8] {
    bytes.get(..n as usize).unwrap_or(bytes)
}

impl Header {
    fn of(bytes: &[u8]) -> Self {
        Self {
            program: vectors::word(bytes, 0),
            data: vectors::word(bytes, 4),
            schedule: vectors::word(bytes, 8),
            result: vectors::word(bytes, 12),
            number: vectors::word(bytes, 16),
        }
    }
}

impl Case {
    // Whether the file has all that follows the header, which is read.
    fn read_parts(&mut self, file: &mut impl Read) -> bool {
        let header = self.header;
        part(file, header.program, &mut self.program)
            && part(file, header.data, &mut self.data)
            && part(file, header.schedule, &mut self.schedule)
            && part(file, header.data, &mut self.after)
            && vectors::fill(file, &mut self.want) == BUFFER
    }

    // Reads one case more, if the file has one.
    fn read(&mut self, file: &mut impl Read) -> Next {
        let mut header = [0; HEADER];
        let filled = vectors::fill(file, &mut header);
        self.header = Header::of(&header);
        match filled {
            0 => Next::End,
            HEADER if self.read_parts(file) => Next::Case,
            _ => Next::BreaksOff,
        }
    }
}

// whether what replay hands back is what stands in the result; x0 has no place in it. The order is document 01's, written once
// more: a test that took it from the code would not see it change.
fn shows(found: &Replayed, res: &[u8]) -> bool {
    let counts = found.counts;
    let fields = [
        counts.accepted,
        counts.refused,
        counts.committed,
        counts.steals,
        counts.dropped,
        found.rate,
        found.halt,
        found.next,
    ];
    let mut registers = vectors::registers(res, 28);
    registers[0] = 0;
    let same = fields
        .iter()
        .enumerate()
        .all(|(k, field)| *field == vectors::word(res, 4 * k));
    same && found.registers == registers
}

impl Case {
    // Replayed, and told to the tally.
    fn replay(&mut self, rt: &impl Print, tally: &mut Tally) {
        let header = self.header;
        let mut buffer = [PATTERN; BUFFER];
        let lent = BUFFER.min(header.result as usize);
        let bytes = MEMORY.min(header.data as usize);
        let program = first(&self.program, header.program);
        let schedule = first(&self.schedule, header.schedule);
        let data = &mut self.data[..];
        let found = bench::replay(program, &mut data[..bytes], schedule, &mut buffer[..lent]);
        let (res, past) = buffer.split_at(formats::RESULT_LENGTH);
        // the file's number is 0 where nothing is refused
        let right = u32::from(refusals::number_of(&found)) == header.number
            && self.data[..bytes] == self.after[..bytes]
            && res == &self.want[..formats::RESULT_LENGTH]
            && past == [PATTERN; 4].as_slice()
            && found.is_ok_and(|found| shows(&found, res)) == (header.number == 0);
        tally.told(rt, &found, right);
    }
}

// Replays each case, and answers whether none breaks off. The turns are as many as no file has cases.
pub fn all(rt: &impl Print, file: &mut impl Read, tally: &mut Tally) -> bool {
    let mut case = Case {
        header: Header::default(),
        program: [0; MEMORY],
        data: [0; MEMORY],
        schedule: [0; SCHEDULE],
        after: [0; MEMORY],
        want: [0; BUFFER],
    };
    for _ in 0..u64::MAX {
        match case.read(file) {
            Next::Case => case.replay(rt, tally),
            Next::BreaksOff => return false,
            Next::End => break,
        }
    }
    true
}
