// Sets as bit masks: edge sets in 64 bits, colour sets in 8.
#![tactic(auto)]

ghost use Rattle.std.specs.Prelude.{ℕ, ◌≡◌, ◌≢◌, true, false, cond, ◌-◌, ◌<◌, ◌≤◌, ◌^◌};
ghost use Rattle.std.proofs.Common.{rules};
ghost use Rattle.std.specs.Int.Bits.{bit_and, bit_or};
ghost use Rattle.masks.specs.Masks.{has, insert, minus, inside, properly};

// A set as a number of `width` bits.
pub trait Mask: Copy {
    ghost width: { ℕ };

    ghost number: { Self → ℕ };

    fn wide(self) -> u64
        ensures { (result ≡ number self) × (number self < 2 ^ width) };

    fn narrow(m: u64) -> Self
        requires { m < 2 ^ width }
        ensures { number result ≡ m };

    ghost width_fits: { width ≤ 64 };
}

impl Mask for u64 {
    ghost width = { 64 };

    ghost number = { λ m. m };

    fn wide(self) -> u64 {
        self
    }

    fn narrow(m: u64) -> u64 {
        m
    }

    ghost width_fits = { Prim.search rules };
}

impl Mask for u8 {
    ghost width = { 8 };

    ghost number = { λ m. m };

    fn wide(self) -> u64 {
        self as u64
    }

    fn narrow(m: u64) -> u8 {
        m as u8
    }

    ghost width_fits = { Prim.search rules };
}

// Whether m has member e.
pub fn has<M: Mask>(m: M, e: usize) -> bool
    requires { e < M.width }
    ensures { result ≡ has (M.number m) e }
{
    (m.wide() >> e) % 2 == 1
}

// m with member e.
pub fn with<M: Mask>(m: M, e: usize) -> M
    requires { e < M.width }
    ensures { M.number result ≡ insert (M.number m) e }
{
    M::narrow(m.wide() | (1 << e))
}

// m, with member e where b holds; without a branch, which would often be foretold wrongly.
pub fn with_if<M: Mask>(m: M, e: usize, b: bool) -> M
    requires { e < M.width }
    ensures { M.number result ≡ cond b (insert (M.number m) e) (M.number m) }
{
    M::narrow(m.wide() | ((b as u64) << e))
}

// What is in a and in b.
pub fn both(a: u64, b: u64) -> u64
    ensures { result ≡ bit_and a b }
{
    a & b
}

// What is in a or in b.
pub fn either(a: u64, b: u64) -> u64
    ensures { result ≡ bit_or a b }
{
    a | b
}

// What a has and b lacks.
pub fn without(a: u64, b: u64) -> u64
    ensures { result ≡ minus a b }
{
    a ^ (a & b)
}

// Whether every member of a is one of b.
pub fn inside<M: Mask>(a: M, b: M) -> bool
    ensures { result ≡ inside (M.number a) (M.number b) }
{
    let a = a.wide();
    a & b.wide() == a
}

// Whether a is inside b and not equal to it.
pub fn properly_inside(a: u64, b: u64) -> bool
    ensures { result ≡ properly a b }
{
    a & b == a && a != b
}

// The set of the edges below n.
pub fn full(n: usize) -> u64
    requires { n ≤ 64 }
    ensures { result ≡ 2 ^ n - 1 }
{
    if n == 64 {
        return 18446744073709551615;
    }
    (1 << n) - 1
}

// The lowest member of a set that has one.
pub fn lowest(m: u64) -> usize
    requires { m ≢ 0 }
    ensures { (has m result ≡ true) × (result < 64) × ((e : ℕ) → e < result → has m e ≡ false) }
{
    m.trailing_zeros() as usize
}
