// The search in an ascending run of a table: steps of doubling width from a hint, then halving. Inner layer: the run ascends.
#![tactic(auto)]

ghost use Rattle.std.specs.Prelude.{◌≤◌, length};
ghost use Rattle.search.specs.LowerBound.{AscendsIn, LowerBound, Narrowed};

use std::ops::Range;

// The first place from low up to high whose entry is x or more, by halving; high where there is none.
fn halve(entries: &[u16], low: usize, high: usize, x: usize) -> usize
    requires { (low ≤ high) × (high ≤ length entries.now) × AscendsIn entries.now low high }
    ensures { LowerBound entries.now low high x result }
{
    let mut from = low;
    let mut to = high;
    while from < to {
        let middle = from + (to - from) / 2;
        if (entries[middle] as usize) < x {
            from = middle + 1;
        } else {
            to = middle;
        }
    }
    from
}

// From one end of the run in steps of doubling width, up from low or down from high, until a step goes past what is sought.
fn stride<const UP: bool>(entries: &[u16], low: usize, high: usize, x: usize) -> Range<usize>
    requires { (low ≤ high) × (high ≤ length entries.now) × AscendsIn entries.now low high }
    ensures { Narrowed entries.now low high x result.start result.end }
{
    let mut from = low;
    let mut to = high;
    let mut step: usize = 1;
    while step < to - from {
        let next = if UP { from + step } else { to - step };
        if (entries[next] as usize) < x {
            from = next + 1;
        } else {
            to = next;
        }
        step = step + step;
    }
    from..to
}

// The first place from `from` up to `to` whose entry is x or more; `to` where there is none. A hint near it, whatever number it is, makes it quicker.
pub fn lower_bound(entries: &[u16], from: usize, to: usize, x: usize, hint: usize) -> usize
    requires run { (from ≤ to) × (to ≤ length entries.now) × AscendsIn entries.now from to }
    ensures { LowerBound entries.now from to x result }
{
    if (hint < from) | (to <= hint) {
        return halve(entries, from, to, x);
    }
    if (entries[hint] as usize) < x {
        let above = stride::<true>(entries, hint + 1, to, x);
        return halve(entries, above.start, above.end, x);
    }
    let below = stride::<false>(entries, from, hint, x);
    halve(entries, below.start, below.end, x)
}
