// The C interface of burst slots (02, tickets 9 and 10). Slots are two lists of as many entries.
#![tactic(auto)]

ghost use Rattle.std.specs.Prelude.{◌≡◌, ◌+◌, ◌*◌, ◌^◌, ◌≤◌, ◌<◌, ◌&&◌, leb, length, MatchResult};
ghost use Rattle.std.specs.List.{list_all};
ghost use Rattle.refusal.specs.Number.{number_of};
ghost use Rattle.dfb_refusals.specs.Numbers.{above16};
ghost use Rattle.refusal.specs.Outcome.{answer_outcome};
ghost use Rattle.bursts.specs.Slots.{done_outcome, offered_outcome, offer_answer_outcome};
ghost use Rattle.dfb_bursts.specs.Bursts.{slot_from, status_of, criterion_of, lists_refused, slots_of, statuses, criteria_of};
ghost use Rattle.dfb_bursts.specs.Bursts.{burst_left, done_call, offer_call, burst_offer, burst_choose, burst_finish};

use bursts::{Done, MOST_SLOTS, OfferRefusal, Offered, Placed, Slot, SlotState, Slots};
use refusal::Refusal;

// The statuses of a slot.
const FREE: u8 = 0;

const HELD: u8 = 1;

const SENDING: u8 = 2;

// The slot of a status and a criterion.
fn slot_from(status: u8, criterion: u32) -> Slot
    ensures { result ≡ slot_from status criterion }
{
    Slot {
        state: match status {
            FREE => SlotState::Free,
            HELD => SlotState::Held(criterion),
            _ => SlotState::Sending,
        },
    }
}

fn status_of(state: SlotState) -> u8
    ensures { result ≡ status_of state }
{
    match state {
        SlotState::Free => FREE,
        SlotState::Held(_) => HELD,
        SlotState::Sending => SENDING,
    }
}

fn criterion_of(state: SlotState) -> u32
    ensures { result ≡ criterion_of state }
{
    match state {
        SlotState::Free => 0,
        SlotState::Held(criterion) => criterion,
        SlotState::Sending => 0,
    }
}

// Whether a list has the statuses of at most 32 slots.
fn are_slots(status: &[u8]) -> bool
    ensures { result ≡ (leb (length status.now) 32 && list_all (λ entry. leb entry 2) status.now) }
{
    status.len() <= MOST_SLOTS && status.iter().all(|entry| *entry <= SENDING)
}

// The slots of two lists.
fn load_slots(status: &[u8], criteria: &[u32]) -> Result<Slots, Refusal>
    ensures { MatchResult result
        (λ slots. (lists_refused status.now criteria.now ≡ 0) × (slots ≡ slots_of status.now criteria.now))
        (λ refusal. lists_refused status.now criteria.now ≡ above16 + number_of refusal) }
{
    if status.len() != criteria.len() {
        return Err(Refusal::WrongLength);
    }
    if !are_slots(status) {
        return Err(Refusal::UnsoundState);
    }
    let free = Slot {
        state: SlotState::Free,
    };
    let mut slot = [free; MOST_SLOTS];
    for (i, entry) in status.iter().enumerate() {
        slot[i] = slot_from(*entry, criteria[i]);
    }
    Ok(Slots {
        slot,
        count: status.len(),
    })
}

// The two lists of slots.
fn store_slots(status: &mut [u8], criteria: &mut [u32], slots: Slots)
    requires status_len_bound { length status.old ≤ 32 }
    requires status_len { length status.old ≡ length criteria.old }
    ensures { (status.new ≡ statuses (length status.old) slots) × (criteria.new ≡ criteria_of (length status.old) slots) }
{
    for (i, slot) in slots.slot[..status.len()].iter().enumerate() {
        status[i] = status_of(slot.state);
        criteria[i] = criterion_of(slot.state);
    }
}

// What choose and finish answer; an accepted call writes the slots afterwards.
fn write_done(status: &mut [u8], criteria: &mut [u32], done: Done) -> u32
    requires status_len_bound { length status.old ≤ 32 }
    requires status_len { length status.old ≡ length criteria.old }
    requires slots_bound { (done_call status.old criteria.old (answer_outcome done.answer) done.slots).answer < 2 ^ 32 }
    ensures { burst_left result status.new criteria.new ≡ done_call status.old criteria.old (answer_outcome done.answer) done.slots }
{
    match done.answer {
        Ok(slot) => {
            store_slots(status, criteria, done.slots);
            slot as u32
        }
        Err(refusal) => dfb_refusals::above_16(refusal),
    }
}

// What an offer answers; an accepted offer writes the slots afterwards.
fn write_offered(status: &mut [u8], criteria: &mut [u32], offered: Offered) -> u32
    requires status_len_bound { length status.old ≤ 32 }
    requires status_len { length status.old ≡ length criteria.old }
    requires slots_bound { (offer_call status.old criteria.old (offer_answer_outcome offered.answer) offered.slots).answer < 2 ^ 32 }
    ensures { burst_left result status.new criteria.new ≡ offer_call status.old criteria.old (offer_answer_outcome offered.answer) offered.slots }
{
    match offered.answer {
        Ok(Placed { slot, looked }) => {
            store_slots(status, criteria, offered.slots);
            slot as u32 + 0x100000 * looked as u32
        }
        Err(OfferRefusal::TurnedAway { looked }) => {
            dfb_refusals::above_16(Refusal::TurnedAway) + 0x100000 * looked as u32
        }
        Err(OfferRefusal::Refused(refusal)) => dfb_refusals::above_16(refusal),
    }
}

// Offers a block; answers the slot that takes it. Refused by 2, then 3, then 25.
#[unsafe(no_mangle)]
pub extern "C" fn dfb_burst_offer(status: &mut [u8], criteria: &mut [u32], criterion: u32) -> u32
    ensures { burst_left result status.new criteria.new ≡ burst_offer status.old criteria.old criterion }
{
    match load_slots(status, criteria) {
        Ok(slots) => write_offered(status, criteria, bursts::offer(slots, criterion)),
        Err(refusal) => dfb_refusals::above_16(refusal),
    }
}

// Chooses the block to send; answers its slot. Refused by 2, then 3, then 27, then 26.
#[unsafe(no_mangle)]
pub extern "C" fn dfb_burst_choose(status: &mut [u8], criteria: &mut [u32]) -> u32
    ensures { burst_left result status.new criteria.new ≡ burst_choose status.old criteria.old }
{
    match load_slots(status, criteria) {
        Ok(slots) => write_done(status, criteria, bursts::choose(slots)),
        Err(refusal) => dfb_refusals::above_16(refusal),
    }
}

// Frees the slot that was sent; answers it. Refused by 2, then 3, then 28.
#[unsafe(no_mangle)]
pub extern "C" fn dfb_burst_finish(status: &mut [u8], criteria: &mut [u32]) -> u32
    ensures { burst_left result status.new criteria.new ≡ burst_finish status.old criteria.old }
{
    match load_slots(status, criteria) {
        Ok(slots) => write_done(status, criteria, bursts::finish(slots)),
        Err(refusal) => dfb_refusals::above_16(refusal),
    }
}
