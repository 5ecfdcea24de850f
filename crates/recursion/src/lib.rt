// The winners of the game of row tables, and letters that win: Zielonka's recursion over the priorities, in place. The table of winners holds marks on the way,
// and an order of the states has those of the arena in front.
#![tactic(auto)]

ghost use Rattle.std.specs.Prelude.{◌≡◌, ◌≢◌, ℕ, ◌+◌, ◌*◌, ◌≤◌, ◌<◌, length, get_or};
ghost use Rattle.games.specs.Games.{serves};
ghost use Rattle.games.proofs.Regions.{Arena};
ghost use Rattle.orders.specs.Orders.{Lists, Rearranged};
ghost use Rattle.attracting.specs.Attracting.{table_game, from_of};
ghost use Rattle.levels.specs.Levels.{won_mark, live, Headed, rows_task, lost_task, hold_of, held_task, SolvedAt, Turning, Loses, Holds, Turns};

use attracting::{Game, Task};
use holding::Hold;

// A level of the recursion.
#[derive(Clone, Copy, Debug, PartialEq, Eq)]
pub struct Level {
    pub at: u8,
    pub ghost small: { at ≤ 32 },
}

// The mark of the states that a player has won at a level. Marks are bytes of the table of winners, which the C caller lends: so they are numbers.
fn won_mark(level: u8, plant: bool) -> u8
    requires { level ≤ 33 }
    ensures { result ≡ won_mark level plant }
{
    4 * level + 1 + u8::from(plant)
}

impl Level {
    // Whether it serves the plant.
    fn is_odd(self) -> bool
        ensures { result ≡ serves self.at }
    {
        self.at % 2 == 1
    }

    // What is attracted to its rows.
    fn rows_task(self) -> Task
        ensures { result ≡ rows_task self.at }
    {
        let taken = 4 * self.at + 3;
        Task {
            level: self.at,
            plant: self.is_odd(),
            floor: taken,
            live: 255,
            also: 255,
            to: taken,
            rows: true,
        }
    }

    // What is attracted to the states that the other player has won above it.
    fn lost_task(self) -> Task
        ensures { result ≡ lost_task self.at }
    {
        let plant = self.is_odd();
        let taken = 4 * self.at + 3;
        Task {
            level: self.at,
            plant: !plant,
            floor: taken,
            live: taken,
            also: won_mark(self.at + 1, plant),
            to: won_mark(self.at + 1, !plant),
            rows: false,
        }
    }

    // What is attracted to the states that are held.
    fn held_task(self) -> Task
        ensures { result ≡ held_task self.at }
    {
        Task {
            rows: false,
            ..self.rows_task()
        }
    }

    // Who holds.
    fn hold_of(self) -> Hold
        ensures { result ≡ hold_of self.at }
    {
        Hold {
            level: self.at,
            plant: self.is_odd(),
            held: 4 * self.at + 3,
        }
    }
}

// The other player takes what it has won above the level, and attracts to that. Of the first n states, the arena, the first `kept` are not its own yet: how many
// are left.
fn lose(
    l: Level,
    g: &Game<'_>,
    n: usize,
    kept: usize,
    order: &mut [u16],
    marks: &mut [u8],
    choices: &mut [u8],
) -> usize
    requires long { (length g.now.sources.now ≤ length marks.old) × (length g.now.sources.now ≤ length choices.old) }
    requires arena { (kept ≤ n) × (n ≤ length order.old) × ((i : ℕ) → i < n → get_or order.old i 0 < length g.now.sources.now) }
    requires lists { Lists (from_of g.now.owners.now g.now.sources.now g.now.targets.now g.now.priorities.now g.now.letters (length g.now.sources.now) (lost_task l.at) marks.old) kept order.old }
    ensures { Loses g.now.owners.now g.now.sources.now g.now.targets.now g.now.priorities.now g.now.letters (length g.now.sources.now) l.at n kept order.old marks.old choices.old result order.new marks.new choices.new }
{
    let k = l.lost_task();
    let rest = attracting::attract(k, g, kept, order, marks, choices);
    let theirs = won_mark(l.at, k.plant);
    orders::paint(theirs, n, order, marks);
    orders::paint(k.live, rest, order, marks);
    rest
}

// What the player whom the level serves still holds of the first `rest` states, and attracts to that, is its own: how many remain.
fn hold(
    l: Level,
    g: &Game<'_>,
    rest: usize,
    order: &mut [u16],
    marks: &mut [u8],
    choices: &mut [u8],
) -> usize
    requires long { (length g.now.sources.now ≤ length marks.old) × (length g.now.sources.now ≤ length choices.old) }
    requires arena { (rest ≤ length order.old) × ((i : ℕ) → i < rest → get_or order.old i 0 < length g.now.sources.now) }
    requires by_index { (s : ℕ) → s < length g.now.sources.now → get_or marks.old s 0 ≢ 255 }
    ensures { Holds g.now.owners.now g.now.sources.now g.now.targets.now g.now.priorities.now g.now.letters (length g.now.sources.now) l.at rest order.old marks.old choices.old result order.new marks.new choices.new }
{
    let freed = holding::release(l.hold_of(), g, rest, order, marks, choices);
    let k = l.held_task();
    let again = attracting::attract(k, g, freed, order, marks, choices);
    let own = won_mark(l.at, k.plant);
    orders::paint(own, rest, order, marks);
    orders::paint(255, again, order, marks);
    again
}

// A turn, after what is left of the first n states, the arena, was solved one level up: how many are live again. Where the other player has won nothing there,
// all is the player's whom the level serves.
fn turn(
    l: Level,
    g: &Game<'_>,
    n: usize,
    order: &mut [u16],
    marks: &mut [u8],
    choices: &mut [u8],
) -> usize
    requires long { (length g.now.sources.now ≤ length marks.old) × (length g.now.sources.now ≤ length choices.old) }
    requires turning { Turning g.now.owners.now g.now.sources.now g.now.targets.now g.now.priorities.now g.now.letters (length g.now.sources.now) l.at n order.old marks.old }
    ensures { Turns g.now.owners.now g.now.sources.now g.now.targets.now g.now.priorities.now g.now.letters (length g.now.sources.now) l.at n order.old marks.old choices.old result order.new marks.new choices.new }
{
    let k = l.lost_task();
    let kept = orders::gather(k.live, k.also, n, order, marks);
    if kept == n {
        let own = won_mark(l.at, !k.plant);
        orders::paint(own, n, order, marks);
        return 0;
    }
    let rest = lose(l, g, n, kept, order, marks, choices);
    hold(l, g, rest, order, marks, choices)
}

// The first n states, which are those that are live, solved on rows of the level and above: each is marked by its winner at this level, and has a letter where its
// owner wins.
pub fn solve(
    l: Level,
    g: &Game<'_>,
    n: usize,
    order: &mut [u16],
    marks: &mut [u8],
    choices: &mut [u8],
)
    requires levels { (l.at ≤ 10) × ((s a : ℕ) → s < length g.now.sources.now → a < g.now.letters → get_or g.now.priorities.now (s * g.now.letters + a) 0 < 10) }
    requires long { (length g.now.sources.now ≤ length marks.old) × (length g.now.sources.now ≤ length choices.old) }
    requires arena { Headed (length g.now.sources.now) l.at marks.old × Arena (table_game g.now.owners.now g.now.sources.now g.now.targets.now g.now.priorities.now g.now.letters (length g.now.sources.now)) l.at (live (length g.now.sources.now) marks.old) }
    requires lists { Lists (live (length g.now.sources.now) marks.old) n order.old }
    ensures { SolvedAt g.now.owners.now g.now.sources.now g.now.targets.now g.now.priorities.now g.now.letters (length g.now.sources.now) l.at marks.old choices.old marks.new choices.new × Rearranged n order.old order.new }
{
    let mut left = n;
    while 0 < left {
        let rest = attracting::attract(l.rows_task(), g, left, order, marks, choices);
        let above = Level { at: l.at + 1 };
        solve(above, g, rest, order, marks, choices);
        left = turn(l, g, left, order, marks, choices);
    }
}
