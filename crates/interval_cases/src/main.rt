// Choices of an interval, one case for each rule of 02, ticket 11. tools/cases/interval.py writes the cases after this part, and the expected
// output from a model of its own. A line is the first and the last place, or r with a refusal.
#![tactic(auto)]

ghost use Rattle.std.specs.Prelude.{◌<◌};

use std::io;
use std::io::{BufWriter, Write};

fn show<W: Write>(writer: &mut W, index: &[u32], bonus: u32, limit: u32) -> io::Result<()> {
    match interval::choose_interval(index, bonus, limit) {
        Ok(chosen) => writeln!(writer, "{:05} {:05}", chosen.first, chosen.last),
        Err(refusal) => writeln!(writer, "r{:05}", refusal::number(refusal)),
    }
}

// 16,000 criteria of 7, but for one.
fn show_long<W: Write>(
    writer: &mut W,
    place: usize,
    top: u32,
    bonus: u32,
    limit: u32,
) -> io::Result<()>
    requires { place < 16000 }
{
    let mut index = [7u32; 16000];
    index[place] = top;
    show(writer, &index, bonus, limit)
}

fn show_too_long<W: Write>(writer: &mut W, limit: u32) -> io::Result<()> {
    let index = [7u32; 16001];
    show(writer, &index, 0, limit)
}

// ---- cases

fn main(rt: HostRuntime) -> io::Result<()> {
    let mut writer = BufWriter::new(rt.alloc(), io::writer(&rt))?;
    // no neighbour joins
    show(&mut writer, &[5, 9, 3], 0, 3)?;
    // both join, with the bonus exactly
    show(&mut writer, &[5, 9, 5], 4, 3)?;
    // both fail by one
    show(&mut writer, &[5, 9, 5], 3, 3)?;
    // the oldest on a tie
    show(&mut writer, &[9, 1, 9], 0, 3)?;
    // an equal neighbour joins
    show(&mut writer, &[3, 9, 9, 2], 0, 4)?;
    // the older is tried first
    show(&mut writer, &[7, 9, 7], 2, 2)?;
    // in turn, up to each limit
    show(&mut writer, &[8, 8, 9, 8, 8], 1, 1)?;
    // in turn
    show(&mut writer, &[8, 8, 9, 8, 8], 1, 2)?;
    // in turn
    show(&mut writer, &[8, 8, 9, 8, 8], 1, 3)?;
    // in turn
    show(&mut writer, &[8, 8, 9, 8, 8], 1, 4)?;
    // in turn
    show(&mut writer, &[8, 8, 9, 8, 8], 1, 4294967295)?;
    // a side that fails is closed, the other goes on
    show(&mut writer, &[8, 1, 9, 8, 8, 8], 1, 4)?;
    // a side at the end is closed, the other goes on
    show(&mut writer, &[8, 8, 8, 9], 1, 3)?;
    // the newer side fails
    show(&mut writer, &[8, 8, 8, 9, 1, 9], 1, 9)?;
    // sums past 32 bits
    show(&mut writer, &[1, 4294967295, 4294967294], 4294967295, 3)?;
    // a criterion of 0 joins with the bonus
    show(&mut writer, &[0, 0, 2, 0], 2, 3)?;
    // one block
    show(&mut writer, &[1], 0, 1)?;
    // 26: empty, and all 0; 29 comes first
    show(&mut writer, &[], 0, 1)?;
    // 26
    show(&mut writer, &[0, 0], 5, 1)?;
    // 29
    show(&mut writer, &[], 0, 0)?;
    // 29
    show(&mut writer, &[1], 0, 0)?;
    show_long(&mut writer, 8000, 9, 2, 101)?;
    show_long(&mut writer, 8000, 9, 1, 101)?;
    show_long(&mut writer, 8000, 9, 2, 16000)?;
    show_long(&mut writer, 0, 9, 2, 4)?;
    show_long(&mut writer, 15999, 9, 2, 4)?;
    show_long(&mut writer, 0, 7, 0, 100)?;
    show_long(&mut writer, 15999, 4294967295, 4294967295, 4294967295)?;
    show_too_long(&mut writer, 1)?;
    show_too_long(&mut writer, 0)?;
    writer.flush()
}
