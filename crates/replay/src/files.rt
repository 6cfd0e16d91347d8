// Files of the working folder, which may be missing.
ghost use Rattle.std.specs.Prelude.{◌≤◌, length};

use std::fs::File;
use std::io;
use std::io::{ErrorKind, Read};
use std::rt::Files;

// What stands under a name: an open file, or no file.
#[derive(Drop)]
pub struct Input {
    name: &'static str,
    file: Option<File>,
}

impl Input {
    // None, after a line on standard error, where the file may not be opened.
    pub fn open(
        rt: &(impl Files<File = File> + Eprint),
        name: &'static str,
    ) -> io::Result<Option<Input>> {
        let file = match File::open(rt, name) {
            Ok(file) => Some(file),
            Err(e) if e.kind() == ErrorKind::NotFound => None,
            Err(e) => {
                eprintln!(rt; "{name}: {e}")?;
                return Ok(None);
            }
        };
        Ok(Some(Input { name, file }))
    }

    // Fills the buffer from its start, and answers how many bytes there were; none in a missing file.
    pub fn read(&self, buffer: &mut [u8]) -> usize
        ensures { result ≤ length buffer.new }
    {
        match &self.file {
            Some(file) => fill(file, buffer),
            None => 0,
        }
    }

    // Whether reading ended at an error and not at the file's end; then a line on standard error says so.
    pub fn failed(&self, rt: &impl Eprint) -> io::Result<bool> {
        let Some(file) = &self.file else {
            return Ok(false);
        };
        let mut file = file;
        let mut further = [0u8; 1];
        match file.read(&mut further) {
            Ok(_) => Ok(false),
            Err(e) => {
                eprintln!(rt; "{}: {e}", self.name)?;
                Ok(true)
            }
        }
    }
}

// up to the end, or to a read that fails
fn fill(mut file: &File, buffer: &mut [u8]) -> usize
    ensures { result ≤ length buffer.new }
{
    let mut done = 0;
    // each read that goes on brings a byte at least
    for _ in 0..buffer.len() {
        match file.read(&mut buffer[done..]) {
            Ok(0) | Err(_) => return done,
            Ok(n) => done += n,
        }
    }
    done
}
