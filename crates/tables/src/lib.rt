// Lent tables: how many places count; every place of one set to 0, or those past a beginning; a part of one copied to a later place.
#![tactic(auto)]

ghost use Rattle.std.specs.Prelude.{◌≡◌, ℕ, ◌+◌, ◌-◌, ◌<◌, ◌≤◌, min, List, ◌++◌, length, take, replicate};
ghost use mathlib.Core.List.{Memᴰ};
ghost use Rattle.std.proofs.lemmas.List.Edits.{sets};
ghost use Rattle.tables.specs.Tables.{zeros, padded, zeros-is, padded-is};
ghost use Rattle.tables.specs.Copies.{part, moved};

// How many places of a table of n places count.
pub fn places(n: usize) -> usize
    ensures { result ≡ min n 65535 }
{
    if n < 65535 {
        return n;
    }
    65535
}

// A number that tables hold. `zeros` and `padded` are those of lists of numbers.
pub trait Entry: Copy {
    const ZERO: Self;

    ghost ZERO: { Self };

    ghost zeros: { List Self → List Self };

    ghost padded: { ℕ → List Self → List Self };

    ghost zeros_is: { (t : List Self) → zeros t ≡ replicate (length t) ZERO };

    ghost padded_is: { (n : ℕ) (l : List Self) → padded n l ≡ l ++ replicate (n - length l) ZERO };
}

impl Entry for u8 {
    const ZERO: u8 = 0;

    ghost ZERO = { 0 };

    ghost zeros = { zeros };

    ghost padded = { padded };

    ghost zeros_is = { zeros-is };

    ghost padded_is = { padded-is };
}

impl Entry for u16 {
    const ZERO: u16 = 0;

    ghost ZERO = { 0 };

    ghost zeros = { zeros };

    ghost padded = { padded };

    ghost zeros_is = { zeros-is };

    ghost padded_is = { padded-is };
}

impl Entry for u64 {
    const ZERO: u64 = 0;

    ghost ZERO = { 0 };

    ghost zeros = { zeros };

    ghost padded = { padded };

    ghost zeros_is = { zeros-is };

    ghost padded_is = { padded-is };
}

pub fn clear<T: Entry>(t: &mut [T])
    ensures { t.new ≡ T.zeros t.old }
{
    for x in t.iter_mut() {
        *x = T::ZERO;
    }
}

// 0 in every place from place `from` on.
pub fn clear_past<T: Entry>(t: &mut [T], from: usize)
    ensures { t.new ≡ T.padded (length t.old) (take from t.old) }
{
    let from = from.min(t.len());
    clear(&mut t[from..]);
}

// `size` places from place `from` on, copied to place `at`, which stands past them. This is an inner layer: its callers see that there are so many places.
pub fn copy64(t: &mut [u64], from: usize, at: usize, size: usize)
    requires { (from + size ≤ at) × (at + size ≤ length t.old) }
    ensures { t.new ≡ sets t.old at (part size from t.old) }
{
    t.copy_within(from..from + size, at);
}

// The same of numbers that count places: each is moved on with the copy.
pub fn copy_moved16(t: &mut [u16], from: usize, at: usize, size: usize)
    requires { (from + size ≤ at) × (at + size ≤ length t.old) × (at < 65536) × ((x : ℕ) → Memᴰ x (part size from t.old) → x + (at - from) < 65536) }
    ensures { t.new ≡ sets t.old at (moved (at - from) (part size from t.old)) }
{
    // By index, since both places are in one slice: two parts of it would be no plainer.
    let shift = (at - from) as u16;
    for j in 0..size {
        t[at + j] = t[from + j] + shift;
    }
}
