// The trees of the roots, one after the other: the candidates of each root are listed and its tree is grown, as far as the space that is lent does. So there are many parameters: the
// graph, the space and the tables.
#![tactic(auto)]

ghost use Rattle.std.specs.Prelude.{◌≡◌, ℕ, ◌≤◌, length};
ghost use mathlib.Core.List.{List, Memᴰ};
ghost use Rattle.tables.specs.Tables.{places};
ghost use Rattle.policy.specs.declared.Policy.{Policy};
ghost use Rattle.forest.specs.Forest.{roots};
ghost use Rattle.candidates.specs.Candidates.{root_candidates};
ghost use Rattle.listing.specs.Listing.{PartsOf};
ghost use Rattle.roots.specs.Roots.{Space, TreeGrown, RootsWritten, TreesGrown};

use graph::Graph;
use trees::Lists;

// How far the trees are: the number after them, and the root of the last one.
#[derive(Clone, Copy)]
pub struct Progress {
    pub next: usize,
    pub after: u64,
}

// The tree of the root m, whose number is `at`, if the space is enough for listing its candidates, and the number after it; else nothing is written.
fn grow_tree(
    g: &Graph<'_>,
    m: u64,
    at: usize,
    accepting: &mut [u64],
    accepted: &mut [u8],
    rejecting: &mut [u64],
    rejected: &mut [u8],
    scratch: &mut [u16],
    masks: &mut [u64],
    parents: &mut [u16],
) -> Option<usize>
    requires policy { (p : Policy) × PartsOf p g.now.policy.now.states g.now.policy.now.letters g.now.policy.now.target g.now.out g.now.into g.now.by × (g.now.policy.now.family ≡ p.family) × Memᴰ m (roots p) }
    requires space { Space accepting.old accepted.old rejecting.old rejected.old scratch.old }
    requires tables { (length parents.old ≡ length masks.old) × (at ≤ places masks.old) }
    ensures { (p : Policy) → PartsOf p g.now.policy.now.states g.now.policy.now.letters g.now.policy.now.target g.now.out g.now.into g.now.by → g.now.policy.now.family ≡ p.family → Memᴰ m (roots p) → TreeGrown p m at (length accepting.old) masks.old parents.old masks.new parents.new result }
{
    let listing = listing::fill_candidates(g, m, accepting, accepted, rejecting, rejected);
    if listing.whole {
        let a = listing.counts.accepting;
        let b = listing.counts.rejecting;
        let verdict = g.policy.family[policy::colours_in(&g.by, m) as usize];
        let lists = Lists {
            accepting: &accepting[..a],
            rejecting: &rejecting[..b],
        };
        let next = trees::grow_root(&lists, m, verdict, at, masks, parents, scratch);
        return Some(next);
    }
    None
}

// The trees of the roots that stand after the last one written, and the number after them; or how far they are, where the space does no further. Where one does not fit, every place
// of both tables is 0. This is an inner layer: its callers lend the roots, tables that are written so far, and space. What is promised holds of every policy with the parts of g.
pub fn grow_trees(
    g: &Graph<'_>,
    roots: &[u64],
    from: Progress,
    accepting: &mut [u64],
    accepted: &mut [u8],
    rejecting: &mut [u64],
    rejected: &mut [u8],
    scratch: &mut [u16],
    masks: &mut [u64],
    parents: &mut [u16],
) -> Result<usize, Progress>
    requires policy { (p : Policy) × (m₀ : List ℕ) × (r₀ : List ℕ) × PartsOf p g.now.policy.now.states g.now.policy.now.letters g.now.policy.now.target g.now.out g.now.into g.now.by × (g.now.policy.now.family ≡ p.family) × (roots.now ≡ root_candidates p) × RootsWritten p m₀ r₀ masks.old parents.old from.next from.after }
    requires space { Space accepting.old accepted.old rejecting.old rejected.old scratch.old }
    ensures { ((p : Policy) (m₀ r₀ : List ℕ) → PartsOf p g.now.policy.now.states g.now.policy.now.letters g.now.policy.now.target g.now.out g.now.into g.now.by → g.now.policy.now.family ≡ p.family → roots.now ≡ root_candidates p → RootsWritten p m₀ r₀ masks.old parents.old from.next from.after → TreesGrown p (length accepting.old) m₀ r₀ masks.new parents.new result) }
{
    let places = tables::places(masks.len());
    let mut next = from.next;
    let mut after = from.after;
    loop {
        let m = siblings::next_root(roots, after);
        if m == 0 {
            return Ok(next);
        }
        match grow_tree(
            g, m, next, accepting, accepted, rejecting, rejected, scratch, masks, parents,
        ) {
            Some(number) => next = number,
            None => {
                return Err(Progress { next, after });
            }
        }
        if places < next {
            tables::clear(masks);
            tables::clear(parents);
            return Ok(next);
        }
        after = m;
    }
}
