// Sets of states as the first places of a table of their numbers, and the marks of states.
#![tactic(auto)]

ghost use Rattle.std.specs.Prelude.{◌≡◌, ℕ, ◌+◌, ◌≤◌, ◌<◌, length, get_or};
ghost use Rattle.orders.specs.Orders.{Kept, Gathered, Painted, Numbered};

// One entry more in front: the entry at i, if it is wanted, changes places with the one at w, and the front ends past it.
pub fn keep(wanted: bool, w: usize, i: usize, order: &mut [u16]) -> usize
    requires { (w ≤ i) × (i < length order.old) }
    ensures { Kept wanted w i order.old result order.new }
{
    if wanted {
        // not order.swap(w, i), which would branch on whether w ≤ i
        let s = order[i];
        order[i] = order[w];
        order[w] = s;
        return w + 1;
    }
    w
}

// Of the first n states those that are marked a or b, in front; how many there are.
pub fn gather(a: u8, b: u8, n: usize, order: &mut [u16], marks: &[u8]) -> usize
    requires { (n ≤ length order.old) × ((i : ℕ) → i < n → get_or order.old i 0 < length marks.now) }
    ensures { Gathered a b n marks.now order.old result order.new }
{
    let mut w = 0;
    // By index: the order is rearranged as it is walked.
    for i in 0..n {
        let mark = marks[usize::from(order[i])];
        w = keep((mark == a) | (mark == b), w, i, order);
    }
    w
}

// The first n states are marked b.
pub fn paint(b: u8, n: usize, order: &[u16], marks: &mut [u8])
    requires { (n ≤ length order.now) × ((i : ℕ) → i < n → get_or order.now i 0 < length marks.old) }
    ensures { Painted b n order.now marks.old marks.new }
{
    for &s in &order[..n] {
        marks[usize::from(s)] = b;
    }
}

// Each place holds its own number.
pub fn number(n: usize, order: &mut [u16])
    requires { (n ≤ length order.old) × (n ≤ 65536) }
    ensures { Numbered n order.old order.new }
{
    for i in 0..n {
        order[i] = i as u16;
    }
}
