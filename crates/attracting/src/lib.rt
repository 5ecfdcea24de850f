// What a player attracts in the game of row tables, in place: the mark of a state says what set it is in, and the letter that attracted it is kept beside it.
#![tactic(auto)]

ghost use Rattle.std.specs.Prelude.{◌≡◌, ℕ, ◌+◌, ◌*◌, ◌≤◌, ◌<◌, length, get_or};
ghost use Rattle.orders.specs.Orders.{Lists};
ghost use Rattle.attracting.specs.Attracting.{is_in, Apart, passing, First, owns, Rows, from_of, Visited, Swept, Attracts, Waits};

// A game of row tables: the owner of each policy state, 1 for the plant; the policy state under each state of the game; and for each state a row for each letter,
// with its target and its priority.
#[derive(Clone, Copy, Debug, PartialEq, Eq)]
pub struct Game<'a> {
    pub letters: usize,
    pub owners: &'a [u8],
    pub sources: &'a [u8],
    pub targets: &'a [u16],
    pub priorities: &'a [u8],
    pub ghost rows: { Rows owners.now sources.now targets.now priorities.now letters (length sources.now) },
}

// What is attracted: at a level, for a player (the plant is true), states marked live or also, to those marked to; and, if rows, to rows of that level too. The
// arena are the states with a mark of at least floor.
// The marks are bytes of the table of winners, which the C caller lends: so they are numbers.
#[derive(Clone, Copy, Debug, PartialEq, Eq)]
pub struct Task {
    pub level: u8,
    pub plant: bool,
    pub floor: u8,
    pub live: u8,
    pub also: u8,
    pub to: u8,
    pub rows: bool,
}

impl Task {
    // Whether a mark is in the arena.
    fn is_in(self, mark: u8) -> bool
        ensures { result ≡ is_in self mark }
    {
        self.floor <= mark
    }

    // Whether a row of the arena leads nearer (own), or does not (else).
    fn passes(self, own: bool, priority: u8, mark: u8) -> bool
        ensures { result ≡ passing self own priority mark }
    {
        let open = (self.level <= priority) & self.is_in(mark);
        let near = (mark == self.to) | (self.rows & (priority == self.level));
        open & (near == own)
    }
}

// Whether an owner is the player.
pub fn is_own(plant: bool, owner: u8) -> bool
    ensures { result ≡ owns plant owner }
{
    (owner == 1) == plant
}

// Whether the owner of a state is the player.
pub fn owns_state(plant: bool, owners: &[u8], sources: &[u8], s: usize) -> bool
    requires { (s < length sources.now) × (get_or sources.now s 0 < length owners.now) }
    ensures { result ≡ owns plant (get_or owners.now (get_or sources.now s 0) 0) }
{
    is_own(plant, owners[usize::from(sources[s])])
}

impl Game<'_> {
    // The same in a game.
    pub fn is_owned(&self, plant: bool, s: usize) -> bool
        requires { s < length self.now.sources.now }
        ensures { result ≡ owns plant (get_or self.now.owners.now (get_or self.now.sources.now s 0) 0) }
    {
        owns_state(plant, self.owners, self.sources, s)
    }

    // The first letter whose row from a state passes; their number where none does.
    fn first_letter(&self, k: Task, own: bool, s: usize, marks: &[u8]) -> usize
        requires { (s < length self.now.sources.now) × (length self.now.sources.now ≤ length marks.now) }
        ensures { First k own self.now.targets.now self.now.priorities.now marks.now (s * self.now.letters) self.now.letters result }
    {
        let row = s * self.letters;
        // By index: two tables are read at one row.
        for a in 0..self.letters {
            let target = usize::from(self.targets[row + a]);
            if k.passes(own, self.priorities[row + a], marks[target]) {
                return a;
            }
        }
        self.letters
    }
}

// One state: whether it no longer waits.
fn visit(k: Task, g: &Game<'_>, s: usize, marks: &mut [u8], choices: &mut [u8]) -> bool
    requires { (s < length g.now.sources.now) × (length g.now.sources.now ≤ length marks.old) × (length g.now.sources.now ≤ length choices.old) }
    ensures { Visited g.now.owners.now g.now.sources.now g.now.targets.now g.now.priorities.now g.now.letters (length g.now.sources.now) k s marks.old choices.old result marks.new choices.new }
{
    let mark = marks[s];
    if (mark == k.live) | (mark == k.also) {
        let own = g.is_owned(k.plant, s);
        let a = g.first_letter(k, own, s, marks);
        if a < g.letters {
            if own {
                choices[s] = a as u8;
                marks[s] = k.to;
            }
            return own;
        }
        if own {
            return false;
        }
        marks[s] = k.to;
    }
    true
}

// One sweep over the first n states: how many still wait. They stand in front.
fn sweep(
    k: Task,
    g: &Game<'_>,
    n: usize,
    order: &mut [u16],
    marks: &mut [u8],
    choices: &mut [u8],
) -> usize
    requires apart { Apart k }
    requires long { (length g.now.sources.now ≤ length marks.old) × (length g.now.sources.now ≤ length choices.old) }
    requires order { (n ≤ length order.old) × ((i : ℕ) → i < n → get_or order.old i 0 < length g.now.sources.now) }
    ensures { Swept g.now.owners.now g.now.sources.now g.now.targets.now g.now.priorities.now g.now.letters (length g.now.sources.now) k n order.old marks.old choices.old result order.new marks.new choices.new }
{
    let mut w = 0;
    // By index: the order is rearranged as it is walked.
    for i in 0..n {
        let s = usize::from(order[i]);
        let gone = visit(k, g, s, marks, choices);
        w = orders::keep(!gone, w, i, order);
    }
    w
}

// All states from which the player can force a row to the states marked `to`, or a row of the level, get that mark, and its own of them a letter. Of the
// first n states, which are those that wait, those that still do stand in front: how many there are.
// The order, the marks and the letters are lent one by one: with a struct of the three each contract would also have to say that its references stay.
pub fn attract(
    k: Task,
    g: &Game<'_>,
    n: usize,
    order: &mut [u16],
    marks: &mut [u8],
    choices: &mut [u8],
) -> usize
    requires apart { Apart k }
    requires long { (length g.now.sources.now ≤ length marks.old) × (length g.now.sources.now ≤ length choices.old) }
    requires order { Lists (from_of g.now.owners.now g.now.sources.now g.now.targets.now g.now.priorities.now g.now.letters (length g.now.sources.now) k marks.old) n order.old }
    ensures { Attracts g.now.owners.now g.now.sources.now g.now.targets.now g.now.priorities.now g.now.letters (length g.now.sources.now) k marks.old choices.old marks.new choices.new × Waits g.now.owners.now g.now.sources.now g.now.targets.now g.now.priorities.now g.now.letters (length g.now.sources.now) k n order.old result order.new marks.new }
{
    let mut left = n;
    let mut again = true;
    while again {
        let r = sweep(k, g, left, order, marks, choices);
        again = r < left;
        left = r;
    }
    left
}
