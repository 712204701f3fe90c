// Burst slots (02, tickets 9 and 10; source document 004, sections 1.2 and 2.3): blocks are held with a criterion until one is sent.
#![tactic(auto)]

ghost use Rattle.std.specs.Prelude.{◌≡◌, ◌≤◌, ◌<◌, true, false, take, count_by, position, IfOk, MatchResult};
ghost use Rattle.refusal.specs.Outcome.{answer_outcome};
ghost use Rattle.bursts.specs.Slots.{is_sending, greatest_held, sound, changed, done_outcome, offer_answer_outcome, offered_outcome, offer_outcome, choose_outcome, finish_outcome};
ghost use Rattle.bursts.specs.Searches.{listed, same_state, slot_found, smallest_below, place_answer, settled};

use refusal::Refusal;

// The greatest number of slots.
pub const MOST_SLOTS: usize = 32;

// The greatest number of slots that are sending.
const MOST_SENDING: usize = 1;

#[derive(Clone, Copy, PartialEq, Eq)]
pub enum SlotState {
    Free,
    // a block with its criterion
    Held(u32),
    Sending,
}

#[derive(Clone, Copy, PartialEq, Eq)]
pub struct Slot {
    pub state: SlotState,
}

// The first slots, as many as count says; the others are not looked at.
#[derive(Clone, Copy)]
pub struct Slots {
    pub slot: [Slot; 32],
    pub count: usize,
}

// What a call leaves: its answer, and the slots afterwards.
#[derive(Clone, Copy)]
pub struct Done {
    pub answer: Result<usize, Refusal>,
    pub slots: Slots,
}

// The slot that takes an offered block, and the number of slots looked at.
#[derive(Clone, Copy)]
pub struct Placed {
    pub slot: usize,
    pub looked: usize,
}

// An offer is turned away (25), with the number of slots looked at; or another refusal.
#[derive(Clone, Copy)]
pub enum OfferRefusal {
    TurnedAway { looked: usize },
    Refused(Refusal),
}

impl From<Refusal> for OfferRefusal {
    ghost use Rattle.bursts.specs.declared.OfferRefusal.{OfferRefusal};

    ghost from_gives = { λ r e. e ≡ OfferRefusal.Refused r };

    fn from(refusal: Refusal) -> OfferRefusal {
        OfferRefusal::Refused(refusal)
    }
}

// What an offer leaves: its answer, and the slots afterwards.
#[derive(Clone, Copy)]
pub struct Offered {
    pub answer: Result<Placed, OfferRefusal>,
    pub slots: Slots,
}

// How many slots are sending.
fn count_sending(slots: &[Slot]) -> usize
    ensures { result ≡ count_by (λ slot. is_sending slot.state) slots.now }
{
    slots
        .iter()
        .filter(|slot| slot.state == SlotState::Sending)
        .count()
}

// The slots that are looked at, if their state is sound.
fn sound_slots(slots: &Slots) -> Result<&[Slot], Refusal>
    ensures { MatchResult result
        (λ l. (sound slots.now ≡ true) × (l.now ≡ take slots.now.count slots.now.slot))
        (λ refusal. (sound slots.now ≡ false) × (refusal ≡ Refusal.UnsoundState)) }
{
    if slots.count <= MOST_SLOTS {
        let looked_at = &slots.slot[..slots.count];
        if count_sending(looked_at) <= MOST_SENDING {
            return Ok(looked_at);
        }
    }
    Err(Refusal::UnsoundState)
}

// The lowest slot of a state.
fn slot_in(slots: &[Slot], state: SlotState) -> Option<usize>
    ensures { result ≡ position (λ slot. same_state state slot.state) slots.now }
{
    slots.iter().position(|slot| slot.state == state)
}

// The held slot with the smallest criterion, the lowest on a tie, if that criterion is below a limit.
fn smallest_below(slots: &[Slot], limit: u32) -> Option<usize>
    ensures { result ≡ smallest_below (listed slots.now) limit }
{
    let mut place = None;
    let mut least = limit;
    for (i, slot) in slots.iter().enumerate() {
        if let SlotState::Held(criterion) = slot.state {
            if criterion < least {
                place = Some(i);
                least = criterion;
            }
        }
    }
    place
}

// The held slot with the greatest criterion, the lowest on a tie.
fn greatest_held(slots: &[Slot]) -> Option<usize>
    ensures { result ≡ slot_found (listed slots.now) (greatest_held (listed slots.now)) }
{
    let mut greatest = None;
    for (i, slot) in slots.iter().enumerate() {
        if let SlotState::Held(criterion) = slot.state {
            match greatest {
                Some((_, most)) if criterion <= most => {}
                _ => greatest = Some((i, criterion)),
            }
        }
    }
    greatest.map(|(i, _)| i)
}

// The slot that takes an offered block: the lowest free slot, or the held slot with the smallest criterion.
fn place(slots: &[Slot], criterion: u32) -> Result<Placed, OfferRefusal>
    ensures { offer_answer_outcome result ≡ place_answer (listed slots.now) criterion }
{
    if let Some(free) = slot_in(slots, SlotState::Free) {
        return Ok(Placed {
            slot: free,
            looked: free + 1,
        });
    }
    let looked = slots.len();
    match smallest_below(slots, criterion) {
        Some(slot) => Ok(Placed { slot, looked }),
        None => Err(OfferRefusal::TurnedAway { looked }),
    }
}

fn offer_answer(slots: &Slots, criterion: u32) -> Result<Placed, OfferRefusal>
    ensures { offer_answer_outcome result ≡ (offer_outcome slots.now criterion).answer }
{
    place(sound_slots(slots)?, criterion)
}

fn choose_answer(slots: &Slots) -> Result<usize, Refusal>
    ensures { answer_outcome result ≡ (choose_outcome slots.now).answer }
{
    let looked_at = sound_slots(slots)?;
    if slot_in(looked_at, SlotState::Sending).is_some() {
        return Err(Refusal::AlreadySending);
    }
    greatest_held(looked_at).ok_or(Refusal::NothingToSend)
}

fn finish_answer(slots: &Slots) -> Result<usize, Refusal>
    ensures { answer_outcome result ≡ (finish_outcome slots.now).answer }
{
    slot_in(sound_slots(slots)?, SlotState::Sending).ok_or(Refusal::NoneSending)
}

fn change(slots: Slots, place: usize, state: SlotState) -> Slots
    requires { place < 32 }
    ensures { result ≡ changed slots place state }
{
    let mut after = slots;
    after.slot[place] = Slot { state };
    after
}

// A slot that is the answer has a new state.
fn settle(slots: Slots, answer: Result<usize, Refusal>, state: SlotState) -> Done
    requires { IfOk answer (λ place. place < 32) }
    ensures { done_outcome result ≡ settled slots (answer_outcome answer) state }
{
    Done {
        answer,
        slots: match answer {
            Ok(place) => change(slots, place, state),
            Err(_) => slots,
        },
    }
}

// A block is offered. Refusals in the order 3, 25.
pub fn offer(slots: Slots, criterion: u32) -> Offered
    ensures { offered_outcome result ≡ offer_outcome slots criterion }
{
    let answer = offer_answer(&slots, criterion);
    Offered {
        answer,
        slots: match answer {
            Ok(placed) => change(slots, placed.slot, SlotState::Held(criterion)),
            Err(_) => slots,
        },
    }
}

// A block is chosen to be sent. Refusals in the order 3, 27, 26.
pub fn choose(slots: Slots) -> Done
    ensures { done_outcome result ≡ choose_outcome slots }
{
    settle(slots, choose_answer(&slots), SlotState::Sending)
}

// The block has been sent. Refusals in the order 3, 28.
pub fn finish(slots: Slots) -> Done
    ensures { done_outcome result ≡ finish_outcome slots }
{
    settle(slots, finish_answer(&slots), SlotState::Free)
}
