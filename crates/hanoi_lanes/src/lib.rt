// The value of a formula in 64 lanes at once, told from left to right: bit s of each word is lane s. How many parentheses deeper a lane is than where its passing by began is counted in
// binary over planes: bit s of plane k is binary digit k of lane s.
#![tactic(auto)]

ghost use Rattle.std.specs.Prelude.{◌≡◌, ◌&&◌, ℕ, ◌<◌, ltb, fold, bit_or};
ghost use Rattle.masks.specs.Masks.{has};
ghost use Rattle.hanoi_lanes.specs.Lanes.{count_at, CountsUp, CountsDown, Starts, TellsOperand, TellsAnd, TellsOr, TellsOpens, TellsCloses};

// The value so far; the lanes in which what is read counts; and of the others those that pass by the rest of a conjunction, where the others pass by that of a disjunction.
#[derive(Clone, Copy)]
pub struct Lanes {
    pub value: u64,
    pub reading: u64,
    pub ands: u64,
}

// ---- the counts
// One more in these lanes. Not one function with `count_down`: only a flag could say which of the two contracts it meets.
fn count_up(planes: &mut [u64], lanes: u64)
    ensures { CountsUp planes.old lanes planes.new }
{
    let mut carry = lanes;
    for p in planes.iter_mut() {
        if carry == 0 {
            return;
        }
        let both = *p & carry;
        *p = masks::without(*p | carry, both);
        carry = both;
    }
}

// One less in these lanes.
fn count_down(planes: &mut [u64], lanes: u64)
    ensures { CountsDown planes.old lanes planes.new }
{
    let mut borrow = lanes;
    for p in planes.iter_mut() {
        if borrow == 0 {
            return;
        }
        let lent = masks::without(borrow, *p);
        *p = masks::without(*p | borrow, *p & borrow);
        borrow = lent;
    }
}

// Those of these lanes whose count is not 0.
fn counting(planes: &[u64], lanes: u64) -> u64
    ensures { (s : ℕ) → has result s ≡ has lanes s && ltb 0 (count_at planes.now s) }
{
    if lanes == 0 {
        return 0;
    }
    lanes & joined(planes)
}

// The lanes of all planes.
fn joined(planes: &[u64]) -> u64
    ensures { result ≡ fold bit_or 0 planes.now }
{
    planes.iter().fold(0, |some, p| some | *p)
}

// ---- the value so far
// Nothing is read yet in these lanes.
pub fn start(all: u64) -> Lanes
    ensures { Starts all result }
{
    Lanes {
        value: all,
        reading: all,
        ands: 0,
    }
}

// An operand that holds in the lanes of b.
pub fn tell_operand(t: Lanes, b: u64) -> Lanes
    ensures { TellsOperand t b result }
{
    Lanes {
        value: (t.reading & b) | masks::without(t.value, t.reading),
        reading: t.reading,
        ands: t.ands,
    }
}

pub fn tell_and(t: Lanes) -> Lanes
    ensures { TellsAnd t result }
{
    Lanes {
        value: t.value,
        reading: t.reading & t.value,
        ands: t.ands | masks::without(t.reading, t.value),
    }
}

pub fn tell_or(t: Lanes, planes: &[u64]) -> Lanes
    ensures { TellsOr t planes.now result }
{
    let deeper = counting(planes, t.ands);
    let ended = masks::without(t.ands, deeper);
    Lanes {
        value: t.value,
        reading: masks::without(t.reading, t.value) | ended,
        ands: deeper,
    }
}

pub fn tell_opens(t: Lanes, all: u64, planes: &mut [u64])
    ensures { TellsOpens t all planes.old planes.new }
{
    count_up(planes, masks::without(all, t.reading));
}

pub fn tell_closes(t: Lanes, all: u64, planes: &mut [u64]) -> Lanes
    ensures { TellsCloses t all planes.old result planes.new }
{
    let past = masks::without(all, t.reading);
    let deeper = counting(planes, past);
    count_down(planes, deeper);
    let ended = masks::without(past, deeper);
    Lanes {
        value: t.value,
        reading: t.reading | ended,
        ands: masks::without(t.ands, ended),
    }
}
