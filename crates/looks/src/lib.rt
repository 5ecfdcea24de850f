// Looks at the lists of a root, and at a set of its colours: whether anything with these colours can be listed, and among which edges it is looked for. Inner layer: beside a list of
// masks stand their colours. What only saves searches is undecided: where an answer leaves sets out, what holds of them is promised, and to leave out fewer would do.
#![tactic(auto)]

ghost use Rattle.std.specs.Prelude.{◌≡◌, ◌⊎◌, true, false, cond, ℕ, ◌≤◌, ◌<◌, length, get_or};
ghost use mathlib.Core.List.{Memᴰ};
ghost use Rattle.lists.specs.Lists.{any};
ghost use Rattle.masks.specs.Masks.{inside};
ghost use Rattle.policy.specs.declared.Policy.{Policy};
ghost use Rattle.policy.specs.Policies.{legal};
ghost use Rattle.policy.specs.ByColour.{by_colour, edges_in, table_colours};
ghost use Rattle.candidates.specs.Candidates.{covers, may_hold, are_long, wanted, is_open, Live};
ghost use Rattle.looks.specs.Spans.{lowest, upper};

// ---- what is wanted
// Whether e lies inside a mask of the list that itself lies inside y.
fn is_covered(same: &[u64], e: u64, y: u64) -> bool
    ensures { result ≡ any (covers e y) same.now }
{
    for &k in same {
        if masks::inside(e, k) & masks::inside(k, y) {
            return true;
        }
    }
    false
}

// Whether a cycle inside m with exactly the colours c may be a child of y, whose colours are h. `same` has the listed masks of the verdict of c.
fn may_hold(c: u8, m: u64, same: &[u64], h: u8, y: u64) -> bool
    ensures { result ≡ may_hold c m same.now h y }
{
    let e = masks::both(m, y);
    if masks::inside(c, h) & (e != 0) {
        return !is_covered(same, e, y);
    }
    false
}

// Whether lists of so many masks are long: then a look at them costs more than it saves.
pub fn are_long(a: usize, b: usize) -> bool
    ensures { result ≡ are_long a b }
{
    ((16 < a) & (16 < b)) | (64 < a) | (64 < b)
}

// Whether it may be a child of a listed mask. `other` has the masks of the other verdict and `hues` their colours. In long lists the answer is yes.
pub fn is_wanted(c: u8, m: u64, other: &[u64], hues: &[u8], same: &[u64]) -> bool
    requires { length other.now ≤ length hues.now }
    ensures { result ≡ wanted c m other.now hues.now same.now }
{
    if are_long(other.len(), same.len()) {
        return true;
    }
    // By index: two lists are read side by side.
    for i in 0..other.len() {
        if may_hold(c, m, same, hues[i], other[i]) {
            return true;
        }
    }
    false
}

// Whether a listed mask of the other verdict has all the colours c. `hues` are their colours, and `same` masks of the verdict of c are listed. Where the answer is no, nothing with
// these colours is wanted.
fn is_open(c: u8, hues: &[u8], same: usize) -> bool
    ensures { result ≡ is_open c hues.now same }
{
    if are_long(hues.len(), same) {
        return true;
    }
    for &hue in hues {
        if masks::inside(c, hue) {
            return true;
        }
    }
    false
}

// The same by the colours of both lists, where c has the verdict v.
pub fn is_open_for(v: bool, c: u8, accepted: &[u8], rejected: &[u8]) -> bool
    ensures { result ≡ is_open c (cond v rejected.now accepted.now) (length (cond v accepted.now rejected.now)) }
{
    if v {
        return is_open(c, rejected, accepted.len());
    }
    is_open(c, accepted, rejected.len())
}

// ---- live edges
// Of the colours `used`: c, with colour i where it is one of these.
fn with_colour(used: u8, c: u8, i: u8) -> u8
    requires { (i < 8) × (inside c used ≡ true) }
    ensures { (inside c result ≡ true) × (inside result used ≡ true) }
{
    masks::with_if(c, i as usize, masks::has(used, i as usize))
}

// The live edges that the set c and those with one colour more have in common. Which edges these are is undecided; they are live for c.
fn live_in(live: &[u64], used: u8, c: u8) -> u64
    requires { (inside c used ≡ true) × (used < length live.now) }
    ensures { (p : Policy) (root : ℕ) → legal p ≡ true → ((d : ℕ) → d < length live.now → Live p root d (get_or live.now d 0)) → Live p root c result }
{
    let mut m = live[c as usize];
    for i in 0..8u8 {
        m = masks::both(m, live[with_colour(used, c, i) as usize]);
    }
    m
}

// Those of them with colours in c; as undecided, and live for c.
pub fn edges_of(by: &[u64; 9], live: &[u64], used: u8, c: u8) -> u64
    requires { (inside c used ≡ true) × (used < length live.now) }
    ensures { (p : Policy) (root : ℕ) → legal p ≡ true → by.now ≡ by_colour p → ((d : ℕ) → d < length live.now → Live p root d (get_or live.now d 0)) → Live p root c result × (inside result (edges_in p c) ≡ true) }
{
    masks::both(policy::edges_in(by, c), live_in(live, used, c))
}

// ---- the span of a set
// The lowest of the colours `used` that c lacks, as a set.
fn lowest(used: u8, c: u8) -> u8
    requires { c < used }
    ensures { (result ≡ lowest used c) × (0 < result) }
{
    let lacks = used - c;
    lacks & (255 - lacks + 1)
}

// c, without the colours below that one.
pub fn upper(used: u8, c: u8) -> u8
    requires { c < used }
    ensures { result ≡ upper used c }
{
    c & (255 - lowest(used, c) + 1)
}

// If yes, all sets inside c, from one on, have the verdict v; no is undecided. Without a branch, so that many are looked at together.
pub fn is_uniform(family: &[bool; 256], from: u8, c: u8, v: bool) -> bool
    ensures { result ≡ true → (s : ℕ) → from ≤ s → s < c → inside s c ≡ true → get_or family.now s false ≡ v }
{
    let mut same = true;
    for s in from..c {
        same = same & ((family[s as usize] == v) | !masks::inside(s, c));
    }
    same
}

// A set from `up` on, and no cycle has the colours of a lower one: past the empty set where no edge is quiet.
pub fn first_from(by: &[u64; 9], up: u8) -> u8
    ensures { (up ≤ result) × (up < result → (up ≡ 0) × (result ≡ 1) × (get_or by.now 8 0 ≡ 0)) }
{
    if (up == 0) & (by[8] == 0) {
        return 1;
    }
    up
}

// If yes, nothing is listed at any set from `up` up to c, where c has the verdict v: they have this verdict and nothing is open for them, or no cycle has their colours. No is
// undecided; few sets are not looked at.
pub fn is_passed(
    by: &[u64; 9],
    family: &[bool; 256],
    v: bool,
    up: u8,
    c: u8,
    accepted: &[u8],
    rejected: &[u8],
) -> bool
    requires { up ≤ c }
    ensures { result ≡ true → (s : ℕ) → up ≤ s → s < c → inside up s ≡ true → inside s c ≡ true → ((s ≡ 0) × (get_or by.now 8 0 ≡ 0)) ⊎ ((get_or family.now s false ≡ v) × (is_open s (cond v rejected.now accepted.now) (length (cond v accepted.now rejected.now)) ≡ false)) }
{
    if c - up < 3 {
        return false;
    }
    if is_open_for(v, up, accepted, rejected) {
        return false;
    }
    is_uniform(family, first_from(by, up), c, v)
}

// ---- what a search settles of it
// If yes, every listed mask of the other verdict with the colours `up` has the colours c too; no is undecided. `hues` are their colours.
pub fn are_above(up: u8, c: u8, hues: &[u8]) -> bool
    ensures { result ≡ true → (h : ℕ) → Memᴰ h hues.now → inside up h ≡ true → inside c h ≡ true }
{
    for &hue in hues {
        if masks::inside(up, hue) & !masks::inside(c, hue) {
            return false;
        }
    }
    true
}

// Sets from `left` up to c that are settled by the cycle x begin at the answer: above the colours of x where x may be a child of a listed mask, and else at `left`. Where they
// begin is undecided; c settles none.
fn past_wanted(
    by: &[u64; 9],
    x: u64,
    other: &[u64],
    hues: &[u8],
    same: &[u64],
    left: u8,
    c: u8,
) -> u8
    requires { (length other.now ≤ length hues.now) × (left ≤ c) }
    ensures { (left ≤ result) × (result ≤ c) × (result < c → (table_colours by.now x < result) ⊎ (wanted (table_colours by.now x) x other.now hues.now same.now ≡ false)) }
{
    let hue = policy::colours_in(by, x);
    if is_wanted(hue, x, other, hues, same) {
        if c <= hue {
            return c;
        }
        if left <= hue {
            return hue + 1;
        }
    }
    left
}

// The same for some cycles in turn.
pub fn past_all(
    by: &[u64; 9],
    cycles: &[u64],
    other: &[u64],
    hues: &[u8],
    same: &[u64],
    up: u8,
    c: u8,
) -> u8
    requires { (length other.now ≤ length hues.now) × (up ≤ c) }
    ensures { (up ≤ result) × (result ≤ c) × (result < c → (i : ℕ) → i < length cycles.now → (table_colours by.now (get_or cycles.now i 0) < result) ⊎ (wanted (table_colours by.now (get_or cycles.now i 0)) (get_or cycles.now i 0) other.now hues.now same.now ≡ false)) }
{
    let mut left = up;
    for &x in cycles {
        left = past_wanted(by, x, other, hues, same, left, c);
    }
    left
}
