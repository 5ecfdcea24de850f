// What a player still holds of the states that it won, after some were lost: a state is let go where the player's letter, or a row of the other player's,
// leads out of those that are held. What is held need not be solved again.
#![tactic(auto)]

ghost use Rattle.std.specs.Prelude.{◌≡◌, ℕ, ◌+◌, ◌*◌, ◌≤◌, ◌<◌, false, length, get_or};
ghost use Rattle.holding.specs.Holding.{Shut, Firm, Sifted, Released};

use attracting::Game;

// Who holds: at a level, a player (the plant is true), the states with this mark, a byte of the table of winners.
#[derive(Clone, Copy, Debug, PartialEq, Eq)]
pub struct Hold {
    pub level: u8,
    pub plant: bool,
    pub held: u8,
}

// Whether a row of a state leads to a live state.
fn leads_out(k: Hold, g: &Game<'_>, s: usize, marks: &[u8]) -> bool
    requires { (s < length g.now.sources.now) × (length g.now.sources.now ≤ length marks.now) }
    ensures { result ≡ false → Shut k g.now.targets.now g.now.priorities.now marks.now (s * g.now.letters) g.now.letters }
{
    let row = s * g.letters;
    // By index: two tables are read at one row.
    for a in 0..g.letters {
        let target = usize::from(g.targets[row + a]);
        let live = marks[target] == 255;
        if (k.level <= g.priorities[row + a]) & live {
            return true;
        }
    }
    false
}

// Whether a state has to be let go.
fn escapes(k: Hold, g: &Game<'_>, s: usize, marks: &[u8], choices: &[u8]) -> bool
    requires { (s < length g.now.sources.now) × (length g.now.sources.now ≤ length marks.now) × (length g.now.sources.now ≤ length choices.now) }
    ensures { result ≡ false → Firm g.now.owners.now g.now.sources.now g.now.targets.now g.now.priorities.now g.now.letters k marks.now choices.now s }
{
    if g.is_owned(k.plant, s) {
        let a = usize::from(choices[s]);
        if a < g.letters {
            let target = usize::from(g.targets[s * g.letters + a]);
            return marks[target] != k.held;
        }
        return true;
    }
    leads_out(k, g, s, marks)
}

// One sweep over the first n states, of which the first `freed` are live: how many are live now.
fn sift(
    k: Hold,
    g: &Game<'_>,
    freed: usize,
    n: usize,
    order: &mut [u16],
    marks: &mut [u8],
    choices: &[u8],
) -> usize
    requires long { (length g.now.sources.now ≤ length marks.old) × (length g.now.sources.now ≤ length choices.now) }
    requires order { (freed ≤ n) × (n ≤ length order.old) × ((i : ℕ) → i < n → get_or order.old i 0 < length g.now.sources.now) }
    ensures { Sifted g.now.owners.now g.now.sources.now g.now.targets.now g.now.priorities.now g.now.letters k freed n order.old marks.old choices.now result order.new marks.new }
{
    let mut w = freed;
    // By index: the order is rearranged as it is walked.
    for i in freed..n {
        let s = usize::from(order[i]);
        let out = escapes(k, g, s, marks, choices);
        if out {
            marks[s] = 255;
        }
        w = orders::keep(out, w, i, order);
    }
    w
}

// Of the first n states, all held, those that have to be let go are live again and stand in front: how many there are.
pub fn release(
    k: Hold,
    g: &Game<'_>,
    n: usize,
    order: &mut [u16],
    marks: &mut [u8],
    choices: &[u8],
) -> usize
    requires long { (length g.now.sources.now ≤ length marks.old) × (length g.now.sources.now ≤ length choices.now) }
    requires order { (n ≤ length order.old) × ((i : ℕ) → i < n → get_or order.old i 0 < length g.now.sources.now) }
    ensures { Released g.now.owners.now g.now.sources.now g.now.targets.now g.now.priorities.now g.now.letters k n order.old marks.old choices.now result order.new marks.new }
{
    let mut freed = 0;
    let mut again = true;
    while again {
        let r = sift(k, g, freed, n, order, marks, choices);
        again = freed < r;
        freed = r;
    }
    freed
}
