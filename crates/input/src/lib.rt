// Reading standard input, for the programs: until it ends or a buffer is full. What the system hands over stands in no statement.
#![tactic(auto)]

ghost use Rattle.input.specs.Input.{Within};

use std::io;
use std::io::Read;

// Reads until the input ends or buf is full; answers the number of bytes read, or the read's error.
pub fn read_input<R: Read>(reader: &mut R, buf: &mut [u8]) -> io::Result<usize>
    ensures { Within result buf.new }
{
    let mut done: usize = 0;
    while done < buf.len() {
        match reader.read(&mut buf[done..])? {
            0 => return Ok(done),
            n => done += n,
        }
    }
    Ok(done)
}

// What failed, without the number that the library puts behind the system's words.
fn reason(text: &str) -> &str {
    match text.rsplit_once(" (os error ") {
        Some((front, _)) => front,
        None => text,
    }
}

fn try_fail<R: Eprint + Alloc>(rt: &R, what: &str, error: io::Error) -> io::Result<()> {
    let text = format!(in rt.alloc(); "{error}")?;
    eprintln!(rt; "{what}: {}", reason(text.as_str()))
}

// Says on standard error what failed, and why in the system's words. Where that fails too, there is nowhere left to say so.
pub fn fail<R: Eprint + Alloc>(rt: &R, what: &str, error: io::Error) {
    let _ = try_fail(rt, what, error);
}
