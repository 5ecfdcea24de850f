// The family of a text: for each non-empty set of the colours whether its formula holds of the union of their mark sets. The formula is read once for each 64 sets.
#![tactic(auto)]

ghost use Rattle.std.specs.Prelude.{ℕ, ◌+◌, ◌*◌, ◌≤◌, ◌<◌, ◌^◌, ◌≡◌, length, get_or};
ghost use Rattle.masks.specs.Masks.{has};
ghost use Rattle.mark_sets.specs.MarkSets.{union_at};
ghost use Rattle.hanoi_family.specs.Family.{IsWord, IsFamily};

// Of each 64 colour sets, counted from 0, those that have a colour below 6: bit s of the entry at place c says whether set s has colour c.
const COLOURED: [u64; 6] = [
    0xAAAA_AAAA_AAAA_AAAA,
    0xCCCC_CCCC_CCCC_CCCC,
    0xF0F0_F0F0_F0F0_F0F0,
    0xFF00_FF00_FF00_FF00,
    0xFFFF_0000_FFFF_0000,
    0xFFFF_FFFF_0000_0000,
];

// How many colour sets there are.
fn sets_of(colours: u8) -> usize
    requires { colours ≤ 8 }
    ensures { (result ≡ 2 ^ colours) × (0 < result) × (result ≤ 256) }
{
    1 << colours
}

// The colour sets of word w, that is from 64 * w on, that have colour c. Colour 6 is in all sets of a word or in none, and so is colour 7.
fn coloured(w: usize, c: usize) -> u64
    requires { (w < 4) × (c < 8) }
    ensures { (s : ℕ) → s < 64 → has result s ≡ has (64 * w + s) c }
{
    if c < 6 {
        return COLOURED[c];
    }
    if masks::has(w as u64, c - 6) {
        return u64::MAX;
    }
    0
}

// The colour sets of word w whose union of mark sets has a mark.
fn sets_with(sets: &[u32; 8], w: usize, mark: usize) -> u64
    requires { (w < 4) × (mark < 32) }
    ensures { (s : ℕ) → s < 64 → has result s ≡ has (union_at sets.now (64 * w + s) 8) mark }
{
    let mut r = 0;
    // By index: of eight turns the compiler makes no loop.
    for c in 0..8 {
        if masks::has(u64::from(sets[c]), mark) {
            r = r | coloured(w, c);
        }
    }
    r
}

// The same for each mark.
fn lanes_of(sets: &[u32; 8], w: usize, marks: usize) -> [u64; 32]
    requires { (w < 4) × (marks ≤ 32) }
    ensures { (m s : ℕ) → m < marks → s < 64 → has (get_or result m 0) s ≡ has (union_at sets.now (64 * w + s) 8) m }
{
    let mut lanes = [0; 32];
    for m in 0..marks {
        lanes[m] = sets_with(sets, w, m);
    }
    lanes
}

// The colour sets of word w of which the formula holds; none if the text stops in it. `marks` is how many marks there are, and colour c has the mark set at place c of `sets`.
fn word_of(text: &[u8], at: usize, marks: u32, sets: &[u32; 8], w: usize) -> u64
    requires { (at ≤ length text.now) × (marks ≤ 32) × (w < 4) }
    ensures { IsWord text.now at marks sets.now w result }
{
    let lanes = lanes_of(sets, w, marks as usize);
    match hanoi_formula::read_formula(text, at, marks, u64::MAX, &lanes) {
        Ok(formula) => formula.value,
        Err(_) => 0,
    }
}

// For each colour set whether it is in the family.
pub fn family_of(text: &[u8], at: usize, marks: u32, sets: &[u32; 8], colours: u8) -> [bool; 256]
    requires { (at ≤ length text.now) × (marks ≤ 32) × (colours ≤ 8) }
    ensures { IsFamily text.now at marks sets.now (2 ^ colours) result }
{
    let mut family = [false; 256];
    let mut word = word_of(text, at, marks, sets, 0);
    for s in 1..sets_of(colours) {
        if s % 64 == 0 {
            word = word_of(text, at, marks, sets, s / 64);
        }
        family[s] = masks::has(word, s % 64);
    }
    family
}
