// The fixed order of the 256 colour sets: falling number of members, then ascending mask. No table: a set is found by counting.
#![tactic(auto)]

ghost use Rattle.std.specs.Prelude.{◌≡◌, ◌-◌, ◌≤◌, length, get_or};
ghost use Rattle.colour_sets.specs.Order.{size, sized, set_at};

fn members(s: u8) -> u32
    ensures { result ≡ size s }
{
    u8::count_ones(s)
}

// How many sets have one member fewer than `c`, where `n` have `c`.
fn one_fewer(n: u32, c: u32) -> u32
    requires { (1 ≤ c) × (c ≤ 8) × (n ≡ length (sized c)) }
    ensures { result ≡ length (sized (c - 1)) }
{
    n * c / (9 - c)
}

// Of the sets with `c` members, the one at a rank, counted from 1.
fn ranked(c: u32, rank: u32) -> u8
    requires { (1 ≤ rank) × (rank ≤ length (sized c)) }
    ensures { result ≡ get_or (sized c) (rank - 1) 0 }
{
    let mut left = rank;
    for s in 0..256u32 {
        if members(s as u8) == c {
            if left <= 1 {
                return s as u8;
            }
            left -= 1;
        }
    }
    0
}

// The colour set at a position of the order. It has rank `rank` among the sets of at most `c` members, and `n` of these have `c`.
pub fn set_at(position: u8) -> u8
    ensures { result ≡ set_at position }
{
    let mut c: u32 = 8;
    let mut n: u32 = 1;
    let mut rank = position as u32 + 1;
    while n < rank {
        rank -= n;
        n = one_fewer(n, c);
        c -= 1;
    }
    ranked(c, rank)
}
