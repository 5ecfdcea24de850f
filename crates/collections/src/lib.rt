// Collections: sets of colour sets, as four words of 64 bits, so that many colour sets are looked at together.
#![tactic(auto)]

ghost use Rattle.std.specs.Prelude.{◌≡◌, ◌⊎◌, ◌≢◌, true, false, not, ◌&&◌, ◌||◌, ℕ, ◌+◌, ◌-◌, ◌*◌, ◌^◌, ◌≤◌, ◌<◌, min, eqb, length, get_or};
ghost use Rattle.masks.specs.Masks.{has, minus, inside};
ghost use Rattle.collections.specs.Collections.{has_set, WordEnd, End, Fewer, Smaller, Raised, Over, AroundSets};

// Whether t has s.
fn has(t: &[u64; 4], s: u8) -> bool
    ensures { result ≡ has_set t.now s }
{
    let e = s as usize;
    masks::has(t[e / 64], e % 64)
}

// t, with s where b holds; without a branch.
pub fn add_if(t: &mut [u64; 4], s: u8, b: bool)
    requires { length t.old ≡ 4 }
    ensures { (length t.new ≡ 4) × ((d : ℕ) → d < 256 → has_set t.new d ≡ (has_set t.old d || (b && eqb d s))) }
{
    let e = s as usize;
    let k = e / 64;
    t[k] = masks::with_if(t[k], e % 64, b);
}

// t without s.
pub fn remove(t: &mut [u64; 4], s: u8)
    requires { length t.old ≡ 4 }
    ensures { (length t.new ≡ 4) × ((d : ℕ) → d < 256 → has_set t.new d ≡ (has_set t.old d && not (eqb d s))) }
{
    let e = s as usize;
    let k = e / 64;
    t[k] = masks::without(t[k], masks::with(0, e % 64));
}

// ---- the greatest set
// One past the highest bit of w; 0 where it has none.
fn word_end(w: u64) -> usize
    ensures { WordEnd w result }
{
    64 - u64::leading_zeros(w) as usize
}

// One past the greatest colour set in t; 0 where it is empty.
pub fn end(t: &[u64; 4]) -> usize
    ensures { End t.now result }
{
    for k in (0..4).rev() {
        let w = t[k];
        if w != 0 {
            return 64 * k + word_end(w);
        }
    }
    0
}

// ---- the sets with one colour fewer
// The colour set s without colour i.
fn set_without(s: u8, i: u8) -> u8
    requires { i < 8 }
    ensures { result ≡ minus s (2 ^ i) }
{
    s ^ (s & (1 << i))
}

// The sets that are l without one of its colours, as bits; without a branch.
fn smaller_here(l: u8) -> u64
    requires { l < 64 }
    ensures { Fewer l 6 result }
{
    let mut w: u64 = 0;
    for i in 0..6u8 {
        let s = set_without(l, i);
        let b = masks::has(l, i as usize);
        w = masks::with_if(w, s as usize, b);
    }
    w
}

// t, with h without colour i, if h has it and `within` has that set.
fn add_without(within: &[u64; 4], h: u8, i: u8, t: &mut [u64; 4])
    requires { (i < 8) × (length t.old ≡ 4) }
    ensures { (length t.new ≡ 4) × ((d : ℕ) → d < 256 → has_set t.new d ≡ (has_set t.old d || ((has h i && has_set within.now (minus h (2 ^ i))) && eqb d (minus h (2 ^ i))))) }
{
    let s = set_without(h, i);
    let b = masks::has(h, i as usize) & has(within, s);
    add_if(t, s, b);
}

// t, with each set that is h without one of its colours, if `within` has it. Without one of the first six colours it stands in the same word. Which sets properly inside h are added
// besides is undecided, and where sets between are missing from `within`, whether any is.
pub fn add_smaller(within: &[u64; 4], h: u8, t: &mut [u64; 4])
    requires { length t.old ≡ 4 }
    ensures { Smaller within.now t.old h t.new }
{
    let k = h as usize / 64;
    let w = smaller_here(h % 64);
    t[k] = t[k] | (w & within[k]);
    if h < 64 {
        return;
    }
    add_without(within, h, 6, t);
    add_without(within, h, 7, t);
}

// ---- the sets around those with a verdict
// The bits of w one place higher, and b as bit 0.
fn pushed(w: u64, b: bool) -> u64
    ensures { (has result 0 ≡ b) × ((e : ℕ) → e + 1 < 64 → has result (e + 1) ≡ has w e) }
{
    (w << 1) | (b as u64)
}

// The accepted ones of the first n sets, as bits. From the last one down: to double is faster than to shift by a count.
fn accepted_word(family: &[bool; 256], n: usize) -> u64
    requires { n ≤ 64 }
    ensures { (d : ℕ) → d < n → has result d ≡ get_or family.now d false }
{
    let mut w: u64 = 0;
    for j in (0..n).rev() {
        w = pushed(w, family[j]);
    }
    w
}

// The accepted sets. Four words side by side: none of them waits for another.
fn accepted_words(family: &[bool; 256]) -> [u64; 4]
    ensures { (d : ℕ) → d < 256 → has_set result d ≡ get_or family.now d false }
{
    let mut a: u64 = 0;
    let mut b: u64 = 0;
    let mut c: u64 = 0;
    let mut d: u64 = 0;
    for j in (0..64).rev() {
        a = pushed(a, family[j]);
        b = pushed(b, family[64 + j]);
        c = pushed(c, family[128 + j]);
        d = pushed(d, family[192 + j]);
    }
    [a, b, c, d]
}

// The accepted ones of the sets below `sets`; which of the others are in it is undecided.
fn accepted(family: &[bool; 256], sets: usize) -> [u64; 4]
    requires { sets ≤ 256 }
    ensures { (d : ℕ) → d < sets → has_set result d ≡ get_or family.now d false }
{
    if sets <= 64 {
        return [accepted_word(family, sets), 0, 0, 0];
    }
    accepted_words(family)
}

// The bits that w lacks.
fn lacked(w: u64) -> u64
    ensures { (e : ℕ) → e < 64 → has result e ≡ not (has w e) }
{
    masks::without(0xffff_ffff_ffff_ffff, w)
}

// The sets that t lacks.
fn others(t: &[u64; 4]) -> [u64; 4]
    ensures { (d : ℕ) → d < 256 → has_set result d ≡ not (has_set t.now d) }
{
    [lacked(t[0]), lacked(t[1]), lacked(t[2]), lacked(t[3])]
}

// The bits of w, and those of m among them `by` places higher.
fn raised(w: u64, m: u64, by: u32) -> u64
    requires { by < 64 }
    ensures { Raised w m by result }
{
    w | ((w & m) << by)
}

// The bits of w, and each that has one of them inside it, as a set of six colours. A step for each colour: the mask has the sets without it.
fn closed(w: u64) -> u64
    ensures { (a b : ℕ) → a < 64 → b < 64 → inside a b ≡ true → has w a ≡ true → has result b ≡ true }
{
    let w1 = raised(w, 0x5555_5555_5555_5555, 1);
    let w2 = raised(w1, 0x3333_3333_3333_3333, 2);
    let w3 = raised(w2, 0x0f0f_0f0f_0f0f_0f0f, 4);
    let w4 = raised(w3, 0x00ff_00ff_00ff_00ff, 8);
    let w5 = raised(w4, 0x0000_ffff_0000_ffff, 16);
    raised(w5, 0x0000_0000_ffff_ffff, 32)
}

// w, with bit 0 only where b holds.
fn first_if(w: u64, b: bool) -> u64
    ensures { (e : ℕ) → has w e ≡ true → (e ≢ 0) ⊎ (b ≡ true) → has result e ≡ true }
{
    masks::without(w, !b as u64)
}

// How many of n places from one on count, at most 64.
fn part(n: usize, from: usize) -> usize
    ensures { result ≡ min (n - from) 64 }
{
    n.saturating_sub(from).min(64)
}

// w, as word k, without the sets from `sets` on.
fn cut(w: u64, sets: usize, k: usize) -> u64
    requires { k < 4 }
    ensures { (j : ℕ) → j < 64 → 64 * k + j < sets → has w j ≡ true → has result j ≡ true }
{
    masks::both(w, masks::full(part(sets, 64 * k)))
}

// The colour sets below `sets` that t has, or that have one of them inside them; set 0 does not count as one of them where `quiet` is false.
fn over(t: &[u64; 4], quiet: bool, sets: usize) -> [u64; 4]
    requires { sets ≤ 256 }
    ensures { Over (has_set t.now) true quiet sets result }
{
    let a = closed(first_if(t[0], quiet));
    if sets <= 64 {
        return [cut(a, sets, 0), 0, 0, 0];
    }
    let b = closed(t[1]);
    let c = closed(t[2]);
    let d = closed(t[3]);
    let ab = a | b;
    let ac = a | c;
    let abcd = ab | (c | d);
    [a, cut(ab, sets, 1), cut(ac, sets, 2), cut(abcd, sets, 3)]
}

// The colour sets around the accepted ones, and around the rejected ones.
#[derive(Clone, Copy)]
pub struct Around {
    pub accepted: [u64; 4],
    pub rejected: [u64; 4],
}

// The colour sets below `sets` that have a verdict, or a set with it inside them, for each of the two verdicts; set 0 does not count as such a set where `quiet` is false. Which sets
// are in it besides is undecided: more of them would only cost time.
pub fn sides(family: &[bool; 256], quiet: bool, sets: usize) -> Around
    requires { sets ≤ 256 }
    ensures { AroundSets family.now true quiet sets result.accepted × AroundSets family.now false quiet sets result.rejected }
{
    let t = accepted(family, sets);
    let u = others(&t);
    Around {
        accepted: over(&t, quiet, sets),
        rejected: over(&u, quiet, sets),
    }
}
