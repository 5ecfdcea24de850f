// The columns of masks and parents: the trees of the forest, grown with space of the size that a policy needs.
#![tactic(auto)]

ghost use Rattle.std.specs.Prelude.{◌≡◌, List, ℕ, length};
ghost use Rattle.candidates.specs.Candidates.{root_candidates};
ghost use Rattle.roots.specs.Roots.{Space, RootsWritten, ForestWritten};

use graph::Graph;
use roots::Progress;

// With the space that is lent where it is enough, and otherwise with more. A call that has much space is slow to begin, so it is made only for a policy that needs it; that this
// function calls itself keeps the compiler from laying out the space of the larger policies for every one.
#[cycle(fill_large_fill_within)]
fn fill_within(
    g: &Graph<'_>,
    roots: &[u64],
    from: Progress,
    accepting: &mut [u64],
    accepted: &mut [u8],
    rejecting: &mut [u64],
    rejected: &mut [u8],
    scratch: &mut [u16],
    masks: &mut [u64],
    parents: &mut [u16],
) -> usize
    requires roots { roots.now ≡ root_candidates g.now.policy.now }
    requires begun { (m₀ : List ℕ) × (r₀ : List ℕ) × RootsWritten g.now.policy.now m₀ r₀ masks.old parents.old from.next from.after }
    requires space { Space accepting.old accepted.old rejecting.old rejected.old scratch.old }
    ensures { ((m₀ r₀ : List ℕ) → RootsWritten g.now.policy.now m₀ r₀ masks.old parents.old from.next from.after → ForestWritten g.now.policy.now m₀ r₀ masks.new parents.new result) }
{
    let grown = match roots::grow_trees(
        g, roots, from, accepting, accepted, rejecting, rejected, scratch, masks, parents,
    ) {
        Ok(count) => return count,
        Err(grown) => grown,
    };
    if accepting.len() < 256 {
        let mut more_accepting = [0u64; 256];
        let mut more_accepted = [0u8; 256];
        let mut more_rejecting = [0u64; 256];
        let mut more_rejected = [0u8; 256];
        let mut more_scratch = [0u16; 3328];
        return fill_within(
            g,
            roots,
            grown,
            &mut more_accepting,
            &mut more_accepted,
            &mut more_rejecting,
            &mut more_rejected,
            &mut more_scratch,
            masks,
            parents,
        );
    }
    fill_large(g, roots, grown, masks, parents)
}

// With space for any policy.
#[cycle(fill_large_fill_within)]
fn fill_large(
    g: &Graph<'_>,
    roots: &[u64],
    from: Progress,
    masks: &mut [u64],
    parents: &mut [u16],
) -> usize
    requires roots { roots.now ≡ root_candidates g.now.policy.now }
    requires begun { (m₀ : List ℕ) × (r₀ : List ℕ) × RootsWritten g.now.policy.now m₀ r₀ masks.old parents.old from.next from.after }
    ensures { ((m₀ r₀ : List ℕ) → RootsWritten g.now.policy.now m₀ r₀ masks.old parents.old from.next from.after → ForestWritten g.now.policy.now m₀ r₀ masks.new parents.new result) }
{
    let mut accepting = [0u64; 4096];
    let mut accepted = [0u8; 4096];
    let mut rejecting = [0u64; 4096];
    let mut rejected = [0u8; 4096];
    let mut scratch = [0u16; 45056];
    fill_within(
        g,
        roots,
        from,
        &mut accepting,
        &mut accepted,
        &mut rejecting,
        &mut rejected,
        &mut scratch,
        masks,
        parents,
    )
}

// The masks and parents of the forest, in tables of one length: how many nodes there are, or one more than fit. Where they do not fit, every place of both tables is 0.
pub fn fill_columns(g: &Graph<'_>, masks: &mut [u64], parents: &mut [u16]) -> usize
    requires { length parents.old ≡ length masks.old }
    ensures { ForestWritten g.now.policy.now masks.old parents.old masks.new parents.new result }
{
    let n = policy::edges(g.policy);
    let mut rows = [0u16; 16];
    let mut roots = [0u64; 16];
    let rooted = components::fill_cycles(
        g.policy,
        &g.out,
        &g.into,
        masks::full(n),
        &mut rows,
        &mut roots,
    );
    let none = Progress { next: 0, after: 0 };
    if (g.policy.states <= 4) & (g.policy.colours <= 3) {
        let mut accepting = [0u64; 24];
        let mut accepted = [0u8; 24];
        let mut rejecting = [0u64; 24];
        let mut rejected = [0u8; 24];
        let mut scratch = [0u16; 312];
        return fill_within(
            g,
            &roots[..rooted],
            none,
            &mut accepting,
            &mut accepted,
            &mut rejecting,
            &mut rejected,
            &mut scratch,
            masks,
            parents,
        );
    }
    let mut accepting = [0u64; 64];
    let mut accepted = [0u8; 64];
    let mut rejecting = [0u64; 64];
    let mut rejected = [0u8; 64];
    let mut scratch = [0u16; 832];
    fill_within(
        g,
        &roots[..rooted],
        none,
        &mut accepting,
        &mut accepted,
        &mut rejecting,
        &mut rejected,
        &mut scratch,
        masks,
        parents,
    )
}
