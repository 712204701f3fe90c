// checklist: reads standard input as a command list and prints its verdict (02, ticket 6). Where the list is over 1,048,576 bytes or a read
// fails, it prints nothing on standard output and says so on standard error; a failed write is named there too.
#![tactic(auto)]

use input::{fail, read_input};
use std::io::{Read, Write};

// The longest list that is checked.
const MOST: usize = 1048576;

// Says that the list is too long. Where that fails, there is nowhere left to say so.
fn turn_away(rt: &impl Eprint) {
    let _ = eprintln!(rt; "checklist: the list is over 1048576 bytes");
}

// Reads the list into list, and prints the verdict on it.
fn check<R: Read, W: Write>(
    rt: &(impl Eprint + Alloc),
    reader: &mut R,
    writer: &mut W,
    list: &mut [u8],
    out: &mut [u8],
) {
    let n = match read_input(reader, list) {
        Ok(n) => n,
        Err(e) => return fail(rt, "checklist: standard input", e),
    };
    if n > MOST {
        return turn_away(rt);
    }
    // Never refused from main: its out has room for every line, and its offsets have at most seven digits.
    let Ok(k) = listing::verdict_line(checker::check(&list[..n]), out) else {
        return;
    };
    if let Err(e) = writer.write_all(&out[..k]) {
        fail(rt, "checklist: standard output", e);
    }
}

fn main(rt: HostRuntime) {
    let mut list = [0u8; 1048577];
    let mut out = [0u8; 64];
    check(&rt, &mut rt.stdin(), &mut rt.stdout(), &mut list, &mut out);
}
