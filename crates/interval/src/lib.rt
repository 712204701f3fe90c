// The interval of Burst 1 blocks to send next (02, ticket 11; source document 004, section 3.3).
#![tactic(auto)]

ghost use Rattle.std.specs.Prelude.{◌≡◌, cond, ◌&&◌, ◌+◌, ◌≤◌, ◌<◌, length, leb, ltb, Some, None};
ghost use Rattle.refusal.specs.Outcome.{answer_outcome};
ghost use Rattle.interval.specs.Interval.{criterion, all_zero, start_of, joins, blocks, growing, try_older, try_newer, grown, interval_outcome};

use refusal::Refusal;

// The greatest number of criteria in an index.
pub const MOST_BLOCKS: usize = 16000;

// The first and the last block, numbered from 0, the oldest first.
#[derive(Clone, Copy)]
pub struct Interval {
    pub first: usize,
    pub last: usize,
}

// An interval, and which of its sides are open.
#[derive(Clone, Copy)]
struct Growing {
    first: usize,
    last: usize,
    older: bool,
    newer: bool,
}

// What an interval grows by: the criteria, the start among them, the bonus and the limit.
#[derive(Clone, Copy)]
struct Course<'a> {
    index: &'a [u32],
    start: usize,
    bonus: u32,
    limit: u32,
    ghost start_in_bounds: { start < length index.now },
    ghost index_len_bound: { length index.now ≤ 16000 },
}

impl Course<'_> {
    // A criterion passes: with the bonus it is at least that of the start.
    fn passes(&self, neighbour: u32) -> bool
        ensures { result ≡ leb (criterion self.now.index.now self.now.start) (neighbour + self.now.bonus) }
    {
        u64::from(self.index[self.start]) <= u64::from(neighbour) + u64::from(self.bonus)
    }

    // Block i joins, if there is one: its criterion passes.
    fn joins(&self, i: usize) -> bool
        ensures { result ≡ (ltb i (length self.now.index.now) && joins self.now.index.now self.now.bonus self.now.start i) }
    {
        match self.index.get(i) {
            Some(criterion) => self.passes(*criterion),
            None => false,
        }
    }

    // The interval has less than the limit of blocks.
    fn is_below(&self, g: Growing) -> bool
        requires first_le_last { g.first ≤ g.last }
        requires last_bound { g.last < 16000 }
        ensures { result ≡ ltb (blocks g) self.now.limit }
    {
        g.last - g.first + 1 < self.limit as usize
    }

    // The older side is asked first: after `older || newer` the compiler tests each of them again.
    fn is_growing(&self, g: Growing) -> bool
        requires first_le_last { g.first ≤ g.last }
        requires last_bound { g.last < 16000 }
        ensures { result ≡ growing self.now.limit g }
    {
        if g.older {
            self.is_below(g)
        } else {
            g.newer && self.is_below(g)
        }
    }

    fn try_older(&self, g: &mut Growing)
        requires first_le_last { g.old.first ≤ g.old.last }
        requires last_bound { g.old.last < length self.now.index.now }
        ensures { g.new ≡ try_older self.now.index.now self.now.bonus self.now.limit self.now.start g.old }
    {
        if !g.older || !self.is_below(*g) {
            return;
        }
        match g.first.checked_sub(1) {
            Some(first) if self.passes(self.index[first]) => g.first = first,
            _ => g.older = false,
        }
    }

    fn try_newer(&self, g: &mut Growing)
        requires first_le_last { g.old.first ≤ g.old.last }
        requires last_bound { g.old.last < length self.now.index.now }
        ensures { g.new ≡ try_newer self.now.index.now self.now.bonus self.now.limit self.now.start g.old }
    {
        if !g.newer || !self.is_below(*g) {
            return;
        }
        if self.joins(g.last + 1) {
            g.last += 1;
        } else {
            g.newer = false;
        }
    }

    // From the start alone, one turn of both sides after the other while some side is open below the limit.
    fn grow(&self) -> Growing
        requires limit_nonzero { 0 < self.now.limit }
        ensures { result ≡ grown self.now.index.now self.now.bonus self.now.limit self.now.start (length self.now.index.now) }
    {
        let mut g = Growing {
            first: self.start,
            last: self.start,
            older: true,
            newer: true,
        };
        for turn in 0..self.index.len() {
            if !self.is_growing(g) {
                break;
            }
            self.try_older(&mut g);
            self.try_newer(&mut g);
        }
        g
    }
}

// The place of the greatest criterion, the oldest on a tie; none if all criteria are 0.
fn greatest(index: &[u32]) -> Option<usize>
    ensures { result ≡ cond (all_zero index.now) None (Some (start_of index.now)) }
{
    let mut place = 0;
    let mut most = 0;
    for (i, criterion) in index.iter().enumerate() {
        if most < *criterion {
            place = i;
            most = *criterion;
        }
    }
    if most == 0 { None } else { Some(place) }
}

// Chooses the interval. Refusals in the order 2, 29, 26.
pub fn choose_interval(index: &[u32], bonus: u32, limit: u32) -> Result<Interval, Refusal>
    ensures { answer_outcome result ≡ interval_outcome index.now bonus limit }
{
    if MOST_BLOCKS < index.len() {
        return Err(Refusal::WrongLength);
    }
    if limit == 0 {
        return Err(Refusal::ZeroLimit);
    }
    let start = greatest(index).ok_or(Refusal::NothingToSend)?;
    let course = Course {
        index,
        start,
        bonus,
        limit,
    };
    let g = course.grow();
    Ok(Interval {
        first: g.first,
        last: g.last,
    })
}
