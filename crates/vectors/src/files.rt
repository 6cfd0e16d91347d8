// The files that the test programs read.
ghost use Rattle.std.specs.Prelude.{◌≤◌, length};

use std::fs::File;
use std::io;
use std::io::{ErrorKind, Read};
use std::rt::Files;

// The file, from its start. None, after a line on standard error, where it cannot be opened. Here and below no clause says what
// is read: std says nothing of what a file or standard error answers, so none could be proved.
pub fn opened<R: Files + Eprint>(rt: &R, name: &str) -> io::Result<Option<R::File>> {
    match File::open(rt, name) {
        Ok(file) => Ok(Some(file)),
        Err(e) => {
            eprintln!(rt; "{name}: {e}")?;
            Ok(None)
        }
    }
}

// How many bytes the file had for the buffer's start: fewer than the buffer takes at the file's end, or where a read fails.
pub fn fill(file: &mut impl Read, buffer: &mut [u8]) -> usize
    ensures { result ≤ length buffer.new }
{
    let mut done = 0;
    // each read that goes on brings a byte at least
    for _ in 0..buffer.len() {
        match file.read(&mut buffer[done..]) {
            Ok(0) | Err(_) => return done,
            Ok(n) => done += n,
        }
    }
    done
}

// What the file holds, up to its end or to the first read that fails; where memory runs out, that is the answer. None as above.
pub fn contents<R: Files + Eprint + Alloc>(
    rt: &R,
    name: &str,
) -> io::Result<Option<Vec<u8, R::A>>> {
    let Some(mut file) = opened(rt, name)? else {
        return Ok(None);
    };
    let mut bytes = Vec::new(rt.alloc());
    match file.read_to_end(&mut bytes) {
        Err(e) if e.kind() == ErrorKind::OutOfMemory => Err(e),
        _ => Ok(Some(bytes)),
    }
}
