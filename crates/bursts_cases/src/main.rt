// Calls on burst slots, one case for each rule of 02, tickets 9 and 10. tools/cases/bursts.py writes the cases in main, and the expected output from
// a model of its own. A line is the call, its answer (s with a slot, r with a refusal, n with the slots that an offer looked at) and the slots: free ., sending S, held with a digit or *.
#![tactic(auto)]

use bursts::{Done, OfferRefusal, Placed, Slot, SlotState, Slots};
use refusal::Refusal;
use std::io;
use std::io::{BufWriter, Write};

fn show_refusal<W: Write>(writer: &mut W, refusal: Refusal) -> io::Result<()> {
    write!(writer, "r{:02}", refusal::number(refusal))
}

fn show_answer<W: Write>(writer: &mut W, answer: Result<usize, Refusal>) -> io::Result<()> {
    match answer {
        Ok(slot) => write!(writer, "s{slot:02}"),
        Err(refusal) => show_refusal(writer, refusal),
    }
}

// The slot or the refusal, and the number of slots looked at.
fn show_offer_answer<W: Write>(
    writer: &mut W,
    answer: Result<Placed, OfferRefusal>,
) -> io::Result<()> {
    match answer {
        Ok(Placed { slot, looked }) => write!(writer, "s{slot:02}n{looked:02}"),
        Err(OfferRefusal::TurnedAway { looked }) => {
            show_refusal(writer, Refusal::TurnedAway)?;
            write!(writer, "n{looked:02}")
        }
        Err(OfferRefusal::Refused(refusal)) => show_refusal(writer, refusal),
    }
}

fn show_state<W: Write>(writer: &mut W, state: SlotState) -> io::Result<()> {
    match state {
        SlotState::Free => writer.write_all(b"."),
        SlotState::Held(criterion) if criterion < 10 => write!(writer, "{criterion}"),
        SlotState::Held(_) => writer.write_all(b"*"),
        SlotState::Sending => writer.write_all(b"S"),
    }
}

fn show_slots<W: Write>(writer: &mut W, slots: Slots) -> io::Result<()> {
    for slot in slots.slot.iter().take(slots.count) {
        show_state(writer, slot.state)?;
    }
    writer.write_all(b"\n")
}

fn leave<W: Write>(writer: &mut W, done: Done) -> io::Result<Slots> {
    show_answer(writer, done.answer)?;
    writer.write_all(b" ")?;
    show_slots(writer, done.slots)?;
    Ok(done.slots)
}

fn offer<W: Write>(writer: &mut W, slots: Slots, criterion: u32) -> io::Result<Slots> {
    let offered = bursts::offer(slots, criterion);
    show_offer_answer(writer, offered.answer)?;
    writer.write_all(b" ")?;
    show_slots(writer, offered.slots)?;
    Ok(offered.slots)
}

// A digit is an offer, ! an offer of the greatest criterion, c choose, f finish.
fn step<W: Write>(writer: &mut W, slots: Slots, op: u8) -> io::Result<Slots> {
    writer.write_all(&[op, b' '])?;
    match op {
        b'c' => leave(writer, bursts::choose(slots)),
        b'f' => leave(writer, bursts::finish(slots)),
        b'0'..=b'9' => offer(writer, slots, u32::from(op - b'0')),
        _ => offer(writer, slots, u32::MAX),
    }
}

// Slots of which the first are sending: none, one or two.
fn start(count: usize, sending: usize) -> Slots {
    let free = Slot {
        state: SlotState::Free,
    };
    let mut slot = [free; 32];
    for busy in slot.iter_mut().take(sending) {
        busy.state = SlotState::Sending;
    }
    Slots { slot, count }
}

fn run<W: Write>(writer: &mut W, count: usize, sending: usize, ops: &[u8]) -> io::Result<()> {
    let mut slots = start(count, sending);
    for op in ops {
        slots = step(writer, slots, *op)?;
    }
    writer.write_all(b"\n")
}

fn main(rt: HostRuntime) -> io::Result<()> {
    let mut writer = BufWriter::new(rt.alloc(), io::writer(&rt))?;
    // the lowest free slot; an equal criterion is turned away, a greater one replaces the lowest of the smallest
    run(&mut writer, 4, 0, b"3121122")?;
    // the greatest is chosen, one at a time, and is never replaced; a finished slot is used again
    run(&mut writer, 4, 0, b"3121cc923cff0cfc")?;
    // a tie for the greatest goes to the lowest slot; until nothing is held
    run(&mut writer, 3, 0, b"575cfcfcfc")?;
    // 27 comes before 26
    run(&mut writer, 2, 1, b"cfc")?;
    // criterion 0 is held and chosen; the greatest criterion is not replaced by its equal
    run(&mut writer, 2, 0, b"00c!!f!!cf")?;
    // no slots
    run(&mut writer, 0, 0, b"0cf")?;
    // one slot, sending
    run(&mut writer, 1, 1, b"9cf9")?;
    // 32 slots
    run(
        &mut writer,
        32,
        0,
        b"01234567890123456789012345678901!0!00cf5",
    )?;
    // 33 slots are refused by 3
    run(&mut writer, 33, 0, b"5cf")?;
    // two sending are refused by 3
    run(&mut writer, 4, 2, b"5cf")?;
    writer.flush()
}
