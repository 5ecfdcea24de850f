// The game of row tables, solved: the winner of each state, and letters that win. Scratch for the order of the states comes in three sizes, since memory is fixed: no
// heap. A call that calls itself keeps the longest table out of its own frame, so that few states take little space.
#![tactic(auto)]

ghost use Rattle.std.specs.Prelude.{◌≡◌, ℕ, ◌+◌, ◌*◌, ◌≤◌, ◌<◌, length, get_or};
ghost use Rattle.solver.specs.Answers.{Finished, Answers};

use attracting::Game;
use recursion::Level;

// The marks of level 0 as winners, and 255 for the letters that are not wanted.
fn finish(g: &Game<'_>, marks: &mut [u8], choices: &mut [u8])
    requires { (length g.now.sources.now ≤ length marks.old) × (length g.now.sources.now ≤ length choices.old) × ((s : ℕ) → s < length g.now.sources.now → 1 ≤ get_or marks.old s 0) }
    ensures { Finished g.now.owners.now g.now.sources.now (length g.now.sources.now) marks.old choices.old marks.new choices.new }
{
    // By index: two tables are written, and the owner is asked by the number of the state.
    for s in 0..g.sources.len() {
        let winner = marks[s] - 1;
        let own = g.is_owned(winner == 1, s);
        let letter = if own { choices[s] } else { 255 };
        choices[s] = letter;
        marks[s] = winner;
    }
}

// The whole game, with an order that has a place for each state. That priorities are below 10 is no ghost field of Game: what attracts and what holds do not ask it.
fn solve_all(g: &Game<'_>, order: &mut [u16], winners: &mut [u8], choices: &mut [u8])
    requires levels { (0 < g.now.letters) × ((s a : ℕ) → s < length g.now.sources.now → a < g.now.letters → get_or g.now.priorities.now (s * g.now.letters + a) 0 < 10) }
    requires long { (length g.now.sources.now ≤ length winners.old) × (length g.now.sources.now ≤ length choices.old) }
    requires sources_in_bounds { length g.now.sources.now ≤ length order.old }
    ensures { Answers g.now.owners.now g.now.sources.now g.now.targets.now g.now.priorities.now g.now.letters (length g.now.sources.now) winners.old choices.old winners.new choices.new }
{
    let states = g.sources.len();
    winners[..states].fill(255);
    orders::number(states, order);
    let l = Level { at: 0 };
    recursion::solve(l, g, states, order, winners, choices);
    finish(g, winners, choices);
}

// The same with the order that is lent, where it has a place for each state, and otherwise with a longer one.
#[cycle(solve_large_solve_within)]
fn solve_within(g: &Game<'_>, order: &mut [u16], winners: &mut [u8], choices: &mut [u8])
    requires levels { (0 < g.now.letters) × ((s a : ℕ) → s < length g.now.sources.now → a < g.now.letters → get_or g.now.priorities.now (s * g.now.letters + a) 0 < 10) }
    requires sources_in_bounds { (length g.now.sources.now ≤ length winners.old) × (length g.now.sources.now ≤ length choices.old) }
    ensures { Answers g.now.owners.now g.now.sources.now g.now.targets.now g.now.priorities.now g.now.letters (length g.now.sources.now) winners.old choices.old winners.new choices.new }
{
    if g.sources.len() <= order.len() {
        solve_all(g, order, winners, choices);
        return;
    }
    if g.sources.len() <= 1024 {
        let mut more = [0u16; 1024];
        solve_within(g, &mut more, winners, choices);
        return;
    }
    solve_large(g, winners, choices);
}

// The same with an order of as many states as there can be.
#[cycle(solve_large_solve_within)]
fn solve_large(g: &Game<'_>, winners: &mut [u8], choices: &mut [u8])
    requires levels { (0 < g.now.letters) × ((s a : ℕ) → s < length g.now.sources.now → a < g.now.letters → get_or g.now.priorities.now (s * g.now.letters + a) 0 < 10) }
    requires sources_in_bounds { (length g.now.sources.now ≤ length winners.old) × (length g.now.sources.now ≤ length choices.old) }
    ensures { Answers g.now.owners.now g.now.sources.now g.now.targets.now g.now.priorities.now g.now.letters (length g.now.sources.now) winners.old choices.old winners.new choices.new }
{
    let mut order = [0u16; 65535];
    solve_within(g, &mut order, winners, choices);
}

// The winner of each state, 0 the supervisor and 1 the plant, and at each state that its owner wins a letter, 255 at the others.
pub fn solve_rows(g: &Game<'_>, winners: &mut [u8], choices: &mut [u8])
    requires levels { (0 < g.now.letters) × ((s a : ℕ) → s < length g.now.sources.now → a < g.now.letters → get_or g.now.priorities.now (s * g.now.letters + a) 0 < 10) }
    requires sources_in_bounds { (length g.now.sources.now ≤ length winners.old) × (length g.now.sources.now ≤ length choices.old) }
    ensures { Answers g.now.owners.now g.now.sources.now g.now.targets.now g.now.priorities.now g.now.letters (length g.now.sources.now) winners.old choices.old winners.new choices.new }
{
    let mut order = [0u16; 64];
    solve_within(g, &mut order, winners, choices);
}
