// Prints what the board answers for 01's numbers that are not starred, as ticket 5 amends them: a write and a read, and powers through real
// ticks; and for ticket 13 the numbers of reports. tools/cases/vectors.py writes the expected output, from 01 and the tickets. A refusal is
// printed as 1,000,000 and its number.
#![tactic(auto)]

use model::{State, TickAnswer};
use refusal::Refusal;
use std::io;
use std::io::{BufWriter, Write};

fn line<W: Write>(writer: &mut W, label: &[u8], n: u64) -> io::Result<()> {
    writer.write_all(label)?;
    writeln!(writer, "{n}")
}

fn refused(refusal: Refusal) -> u64 {
    1_000_000 + refusal::number(refusal) as u64
}

fn answer_number(answer: Result<u16, Refusal>) -> u64 {
    answer.map_or_else(refused, u64::from)
}

// Idle 0, collected 1, waiting 2, and a report 1,000 and its words.
fn tick_number(answer: Result<TickAnswer, Refusal>) -> u64 {
    match answer {
        Ok(TickAnswer::Idle) => 0,
        Ok(TickAnswer::Collected) => 1,
        Ok(TickAnswer::Waiting) => 2,
        Ok(TickAnswer::Reported(words)) => 1000 + words as u64,
        Err(r) => refused(r),
    }
}

fn value_of(code: u8) -> u64 {
    codes::expand_band(code).unwrap_or_else(refused)
}

// A write to a register at reset, and the read of it.
fn show_write<W: Write>(writer: &mut W, id: u8, information: u16) -> io::Result<()> {
    let mut totals = [0u64; 784];
    let done = board::command(State::reset(), &mut totals, id, information);
    let answer = done.answer;
    let state = done.state;
    line(writer, b"stored ", answer_number(answer))?;
    line(writer, b"read ", answer_number(state.read(id)))
}

// One tick with the power of bin 0, a band of one bin: its answer, and the total of band 0 after it.
fn tick_with<W: Write>(
    writer: &mut W,
    state: State,
    totals: &mut [u64],
    power: u32,
    out: &mut [u8],
) -> io::Result<State> {
    let mut powers = [0u32; 7168];
    powers[0] = power;
    let ticked = board::tick(state, totals, &powers, out);
    let answer = ticked.answer;
    line(writer, b"tick ", tick_number(answer))?;
    if let Some(total) = totals.first() {
        line(writer, b"total ", *total)?;
    }
    Ok(ticked.state)
}

// The first word of an output, and what the code of band 0 in it stands for.
fn show_first_word<W: Write>(writer: &mut W, out: &[u8]) -> io::Result<()> {
    if let Some([apid, upper, lower]) = out.first_chunk::<3>() {
        writeln!(writer, "word {apid:02X}{upper:02X}{lower:02X}")?;
        line(writer, b"value ", value_of(*lower))?;
    }
    Ok(())
}

// Processor 1 at 36 bands with the information of 0x30: two ticks, the first word, and a third tick.
fn show_mean<W: Write>(
    writer: &mut W,
    information: u16,
    first: u32,
    second: u32,
) -> io::Result<()> {
    let mut totals = [0u64; 784];
    let mut out = [0u8; 1176];
    let stored = board::command(State::reset(), &mut totals, 0x30, information);
    let before = stored.state;
    let between = tick_with(writer, before, &mut totals, first, &mut out)?;
    let after = tick_with(writer, between, &mut totals, second, &mut out)?;
    show_first_word(writer, &out)?;
    tick_with(writer, after, &mut totals, second, &mut out)?;
    Ok(())
}

// One tick without powers: its answer, and the number of reports after it.
fn tick_numbered<W: Write>(
    writer: &mut W,
    state: State,
    totals: &mut [u64],
    out: &mut [u8],
) -> io::Result<State> {
    let powers = [0u32; 7168];
    let ticked = board::tick(state, totals, &powers, out);
    let answer = ticked.answer;
    let after = ticked.state;
    line(writer, b"tick ", tick_number(answer))?;
    line(writer, b"number ", after.reports as u64)?;
    Ok(after)
}

// A command: its answer, and the number of reports after it.
fn command_numbered<W: Write>(
    writer: &mut W,
    state: State,
    totals: &mut [u64],
    id: u8,
    information: u16,
) -> io::Result<State> {
    let done = board::command(state, totals, id, information);
    let answer = done.answer;
    let after = done.state;
    line(writer, b"command ", answer_number(answer))?;
    line(writer, b"number ", after.reports as u64)?;
    Ok(after)
}

// So many ticks, and nothing printed.
fn ticks(state: State, totals: &mut [u64], out: &mut [u8], count: u32) -> State {
    let powers = [0u32; 7168];
    let mut now = state;
    for _ in 0..count {
        let ticked = board::tick(now, totals, &powers, out);
        now = ticked.state;
    }
    now
}

// N = C = 1: each tick reports. The 65,534th report, the 65,535th and the 65,536th; a refused command; one that stores the same value.
fn show_numbers<W: Write>(writer: &mut W) -> io::Result<()> {
    let mut totals = [0u64; 784];
    let mut out = [0u8; 1176];
    let idle = tick_numbered(writer, State::reset(), &mut totals, &mut out)?;
    let running = command_numbered(writer, idle, &mut totals, 0x30, 0x0020)?;
    let first = tick_numbered(writer, running, &mut totals, &mut out)?;
    let refused = command_numbered(writer, first, &mut totals, 0x37, 0x0020)?;
    let second = tick_numbered(writer, refused, &mut totals, &mut out)?;
    let many = ticks(second, &mut totals, &mut out, 65_531);
    let before_last = tick_numbered(writer, many, &mut totals, &mut out)?;
    let last = tick_numbered(writer, before_last, &mut totals, &mut out)?;
    let past = tick_numbered(writer, last, &mut totals, &mut out)?;
    let again = command_numbered(writer, past, &mut totals, 0x37, 0x0020)?;
    let same = command_numbered(writer, again, &mut totals, 0x30, 0x0020)?;
    tick_numbered(writer, same, &mut totals, &mut out)?;
    Ok(())
}

// N = 2, C = 4: collected and waiting ticks leave the number. Then the board without its enabled processor, which is not running, and in
// which no number is sound.
fn show_periods<W: Write>(writer: &mut W) -> io::Result<()> {
    let mut totals = [0u64; 784];
    let mut out = [0u8; 1176];
    let running = command_numbered(writer, State::reset(), &mut totals, 0x30, 0x2120)?;
    let collected = tick_numbered(writer, running, &mut totals, &mut out)?;
    let reported = tick_numbered(writer, collected, &mut totals, &mut out)?;
    let waiting = tick_numbered(writer, reported, &mut totals, &mut out)?;
    let waiting_again = tick_numbered(writer, waiting, &mut totals, &mut out)?;
    let collected_again = tick_numbered(writer, waiting_again, &mut totals, &mut out)?;
    let second = tick_numbered(writer, collected_again, &mut totals, &mut out)?;
    let stopped = command_numbered(writer, second, &mut totals, 0x30, 0x2100)?;
    let idle = tick_numbered(writer, stopped, &mut totals, &mut out)?;
    let registers = idle.registers;
    let unsound = State {
        registers,
        phase: 0,
        reports: 1,
    };
    tick_numbered(writer, unsound, &mut totals, &mut out)?;
    command_numbered(writer, unsound, &mut totals, 0x30, 0x2120)?;
    line(writer, b"read ", answer_number(unsound.read(0x30)))
}

fn main(rt: HostRuntime) -> io::Result<()> {
    let mut writer = BufWriter::new(rt.alloc(), io::writer(&rt))?;
    show_write(&mut writer, 0x30, 0x0017)?;
    // N = 2, C = 4: a report at the second tick.
    show_mean(&mut writer, 0x2120, 8, 11)?;
    show_mean(&mut writer, 0x2120, 0, 1)?;
    // The largest powers: a report meets no larger mean.
    show_mean(&mut writer, 0x2120, 4_294_967_295, 4_294_967_295)?;
    // N = C = 4: the total of both ticks is still held.
    show_mean(&mut writer, 0x2220, 8, 11)?;
    show_numbers(&mut writer)?;
    show_periods(&mut writer)?;
    writer.flush()
}
