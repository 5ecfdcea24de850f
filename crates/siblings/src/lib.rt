// Siblings among the masks of a list that need not be in order: the next root, and the children of a node, by their positions in the list. No mask is 0, so 0
// stands for none. This is an inner layer: its callers lend lists without a mask twice.
#![tactic(auto)]

ghost use Rattle.std.specs.Prelude.{◌≡◌, ◌≢◌, ℕ, ◌<◌, ◌≤◌, length, get_or};
ghost use mathlib.Core.List.{Memᴰ};
ghost use Rattle.lists.specs.Lists.{Distinct};
ghost use Rattle.tables.specs.Tables.{Stored};
ghost use Rattle.forest.specs.Forest.{before, in_order};
ghost use Rattle.candidates.specs.Candidates.{LargerFirst};
ghost use Rattle.siblings.specs.NextRoot.{root_better, next_in};
ghost use Rattle.siblings.specs.Positions.{child_positions, Positions, carried, outside, kept};

// Whether m stands after the sibling `after`, and before the best one so far.
fn is_better_root(after: u64, best: u64, m: u64) -> bool
    ensures { result ≡ root_better after best m }
{
    (after == 0 || after < m) && (best == 0 || m < best)
}

// The first root in the list that stands after `after`; the first of all where `after` is 0; 0 where there is none.
pub fn next_root(list: &[u64], after: u64) -> u64
    requires { Distinct list.now × ((x : ℕ) → Memᴰ x list.now → x ≢ 0) }
    ensures { result ≡ next_in after (in_order list.now) }
{
    // No Option: it would be a second word in the loop.
    let mut best: u64 = 0;
    for &m in list {
        if is_better_root(after, best, m) {
            best = m;
        }
    }
    best
}

// Whether the mask at position a stands before that at position b.
fn is_before(list: &[u64], a: u16, b: u16) -> bool
    requires { (a < length list.now) × (b < length list.now) }
    ensures { result ≡ before (get_or list.now a 0) (get_or list.now b 0) }
{
    list[a as usize] < list[b as usize]
}

// Position i, put in its place among the first `count`.
pub fn insert(list: &[u64], kids: &mut [u16], count: usize, i: usize)
    requires { Positions list.now kids.old count × (count < length kids.old) × (i < length list.now) × (length list.now ≤ 65536) }
    ensures { kids.new ≡ carried list.now count i kids.old }
{
    let mut carry = i as u16;
    // By index: what stands in a place is carried on to the next.
    for j in 0..count {
        let k = kids[j];
        if is_before(list, carry, k) {
            kids[j] = carry;
            carry = k;
        }
    }
    kids[count] = carry;
}

// Whether m lies inside no mask at the first `count` positions.
pub fn is_outside(list: &[u64], kids: &[u16], count: usize, m: u64) -> bool
    requires { Positions list.now kids.now count }
    ensures { result ≡ outside list.now kids.now count m }
{
    for &k in &kids[..count] {
        if masks::inside(m, list[k as usize]) {
            return false;
        }
    }
    true
}

fn is_kept(list: &[u64], kids: &[u16], count: usize, n: u64, m: u64) -> bool
    requires { Positions list.now kids.now count }
    ensures { result ≡ kept list.now kids.now count n m }
{
    masks::properly_inside(m, n) && is_outside(list, kids, count, m)
}

// The positions of the children of n in a list that has larger masks first: how many there are. The places past them stay.
pub fn fill_children(list: &[u64], n: u64, kids: &mut [u16]) -> usize
    requires { Distinct list.now × LargerFirst list.now × (length list.now ≤ length kids.old) × (length list.now ≤ 65536) }
    ensures { Stored kids.old kids.new 0 result (child_positions list.now n) }
{
    let mut count: usize = 0;
    for (i, &m) in list.iter().enumerate() {
        if is_kept(list, kids, count, n, m) {
            insert(list, kids, count, i);
            count += 1;
        }
    }
    count
}
