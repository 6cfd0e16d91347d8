// The records of a file, tested one by one, without a heap: what a program holds does not grow with its file.
ghost use Rattle.std.specs.Prelude.{◌≡◌, ◌<◌, length, IfSome};

use crate::{Tally, files};
use std::fs::File;
use std::io;
use std::rt::Files;

// the most bytes that are read at a time
const BLOCK: usize = 16_384;

// A file of records of N bytes, with those that were read and not yet tested.
#[derive(Drop)]
struct Records<const N: usize> {
    file: File,
    block: [u8; BLOCK],
    at: usize,
    end: usize,
}

impl<const N: usize> Records<N> {
    // The next record; none where the file has no whole one more.
    fn next(&mut self) -> Option<&[u8]>
        requires { 0 < N }
        ensures { IfSome result (λ bytes. length bytes.now ≡ N) }
    {
        if self.end <= self.at {
            let block = &mut self.block[..];
            self.end = files::fill(&mut self.file, &mut block[..BLOCK / N * N]);
            self.at = 0;
        }
        let start = self.at;
        self.at = start.saturating_add(N);
        self.block.get(start..self.end)?.get(..N)
    }
}

impl Tally {
    // Each record of a file tested, N bytes each; bytes past the last whole one are let go. None, after a line on standard error,
    // where the file cannot be opened. The closure takes a slice, since its bound may not name N.
    pub fn of_file<const N: usize, R: Files<File = File> + Eprint, F: FnMut(&[u8]) -> bool>(
        rt: &R,
        name: &str,
        mut is_right: F,
    ) -> io::Result<Option<Tally>>
        requires record { 0 < N }
        requires right { F.IsAlwaysCallable is_right }
    {
        let Some(file) = files::opened(rt, name)? else {
            return Ok(None);
        };
        let mut records = Records::<N> {
            file,
            block: [0; BLOCK],
            at: 0,
            end: 0,
        };
        let mut tally = Tally::default();
        for _ in 0..u64::MAX {
            let Some(record) = records.next() else {
                break;
            };
            tally.told(is_right(record));
        }
        Ok(Some(tally))
    }
}
