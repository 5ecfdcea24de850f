// The trees of the forest, grown in the node tables. The children of a mask are looked for once: where its tree stands in the tables already, it is copied.
#![tactic(auto)]

ghost use Rattle.std.specs.Prelude.{◌≡◌, cond, ℕ, ◌+◌, ◌-◌, ◌*◌, ◌<◌, ◌≤◌, length, get_or, set};
ghost use mathlib.Core.List.{◌++◌, Memᴰ};
ghost use Rattle.std.proofs.lemmas.List.Edits.{sets};
ghost use Rattle.lists.specs.Lists.{Distinct};
ghost use Rattle.tables.specs.Tables.{Stored, Undecided};
ghost use Rattle.tables.specs.Copies.{part, moved};
ghost use Rattle.policy.specs.declared.Policy.{Policy};
ghost use Rattle.candidates.specs.Candidates.{LargerFirst};
ghost use Rattle.siblings.specs.Positions.{child_positions};
ghost use Rattle.trees.specs.Growing.{TreeToWrite, TreeWritten, Kept, RootToWrite, RootWritten};

// The candidates below a root by their verdict, with larger masks first.
#[derive(Clone, Copy)]
pub struct Lists<'a> {
    pub accepting: &'a [u64],
    pub rejecting: &'a [u64],
}

// A tree copied from its number `from` to `at`; its root has a parent of its own.
fn copy_tree(
    masks: &mut [u64],
    parents: &mut [u16],
    from: usize,
    at: usize,
    size: usize,
    parent: u16,
)
    requires places { (from + size ≤ at) × (at + size ≤ length masks.old) × (at + size ≤ length parents.old) × (0 < size) × (at < 65536) }
    requires fits { (x : ℕ) → Memᴰ x (part size from parents.old) → x + (at - from) < 65536 }
    ensures { (masks.new ≡ sets masks.old at (part size from masks.old)) × (parents.new ≡ set (sets parents.old at (moved (at - from) (part size from parents.old))) at parent) }
{
    tables::copy64(masks, from, at, size);
    tables::copy_moved16(parents, from, at, size);
    parents[at] = parent;
}

// The mask at position i of the two lists, one after the other.
fn mask_at(lists: &Lists<'_>, i: usize) -> u64
    requires { i < length lists.now.accepting.now + length lists.now.rejecting.now }
    ensures { result ≡ get_or (lists.now.accepting.now ++ lists.now.rejecting.now) i 0 }
{
    let accepting = lists.accepting;
    if i < accepting.len() {
        return accepting[i];
    }
    lists.rejecting[i - accepting.len()]
}

// The positions of the children of a node n with that verdict, in the list of the other one.
fn find_children(lists: &Lists<'_>, n: u64, verdict: bool, kids: &mut [u16]) -> usize
    requires lists { (Distinct lists.now.accepting.now × LargerFirst lists.now.accepting.now) × (Distinct lists.now.rejecting.now × LargerFirst lists.now.rejecting.now) }
    requires places { (length lists.now.accepting.now ≤ length kids.old) × (length lists.now.rejecting.now ≤ length kids.old) × (length lists.now.accepting.now ≤ 4096) × (length lists.now.rejecting.now ≤ 4096) }
    ensures { Stored kids.old kids.new 0 result (child_positions (cond verdict lists.now.rejecting.now lists.now.accepting.now) n) }
{
    if verdict {
        return siblings::fill_children(lists.rejecting, n, kids);
    }
    siblings::fill_children(lists.accepting, n, kids)
}

// The position of the first mask of the other verdict.
fn first_other(accepting: usize, verdict: bool) -> usize
    ensures { result ≡ cond verdict accepting 0 }
{
    if verdict { accepting } else { 0 }
}

// The tree of the mask at position i is recorded: its number is `at`, and `next` comes after it.
fn record_tree(scratch: &mut [u16], i: usize, at: usize, next: usize)
    requires { (2 * i + 1 < length scratch.old) × (at ≤ next) × (next ≤ 65535) }
    ensures { scratch.new ≡ set (set scratch.old (2 * i) at) (2 * i + 1) (next - at) }
{
    scratch[2 * i] = at as u16;
    scratch[2 * i + 1] = (next - at) as u16;
}

// The tree of the mask at position i: copied where it is recorded, and otherwise grown. It goes by the lists alone: whatever policy they are the candidates of, its tree is
// written. It and `grow` have many parameters: the lists, the root, the tables and the scratch.
#[cycle(grow_plant)]
fn plant(
    lists: &Lists<'_>,
    i: usize,
    verdict: bool,
    parent: u16,
    at: usize,
    places: usize,
    masks: &mut [u64],
    parents: &mut [u16],
    scratch: &mut [u16],
    free: usize,
) -> usize
    requires position { i < length (lists.now.accepting.now ++ lists.now.rejecting.now) }
    requires below { parent < at }
    requires tree { (p : Policy) × TreeToWrite p lists.now.accepting.now lists.now.rejecting.now (get_or (lists.now.accepting.now ++ lists.now.rejecting.now) i 0) verdict places at masks.old parents.old scratch.old free }
    ensures tree { (p : Policy) → TreeToWrite p lists.now.accepting.now lists.now.rejecting.now (get_or (lists.now.accepting.now ++ lists.now.rejecting.now) i 0) verdict places at masks.old parents.old scratch.old free → TreeWritten p (lists.now.accepting.now ++ lists.now.rejecting.now) places (get_or (lists.now.accepting.now ++ lists.now.rejecting.now) i 0) parent at result masks.old parents.old masks.new parents.new scratch.new }
    ensures kept { Kept (2 * length (lists.now.accepting.now ++ lists.now.rejecting.now)) free scratch.old scratch.new }
{
    let size = scratch[2 * i + 1] as usize;
    if size == 0 {
        let m = mask_at(lists, i);
        let next = grow(
            lists, m, verdict, parent, at, places, masks, parents, scratch, free,
        );
        if places < next {
            return next;
        }
        record_tree(scratch, i, at, next);
        return next;
    }
    if places < at + size {
        return places + 1;
    }
    let from = scratch[2 * i] as usize;
    copy_tree(masks, parents, from, at, size, parent);
    at + size
}

// The tree of m, whose root is numbered `at`: the number after it, or one past the places where it does not fit.
#[cycle(grow_plant)]
fn grow(
    lists: &Lists<'_>,
    m: u64,
    verdict: bool,
    parent: u16,
    at: usize,
    places: usize,
    masks: &mut [u64],
    parents: &mut [u16],
    scratch: &mut [u16],
    free: usize,
) -> usize
    requires { (p : Policy) × TreeToWrite p lists.now.accepting.now lists.now.rejecting.now m verdict places at masks.old parents.old scratch.old free }
    ensures tree { (p : Policy) → TreeToWrite p lists.now.accepting.now lists.now.rejecting.now m verdict places at masks.old parents.old scratch.old free → TreeWritten p (lists.now.accepting.now ++ lists.now.rejecting.now) places m parent at result masks.old parents.old masks.new parents.new scratch.new }
    ensures kept { Kept (2 * length (lists.now.accepting.now ++ lists.now.rejecting.now)) free scratch.old scratch.new }
{
    if places <= at {
        return places + 1;
    }
    masks[at] = m;
    parents[at] = parent;
    let count = find_children(lists, m, verdict, &mut scratch[free..]);
    let first = first_other(lists.accepting.len(), verdict);
    let mut next = at + 1;
    // By index: the rest of the scratch is lent in between.
    for j in 0..count {
        let i = first + scratch[free + j] as usize;
        next = plant(
            lists,
            i,
            !verdict,
            at as u16,
            next,
            places,
            masks,
            parents,
            scratch,
            free + count,
        );
        if places < next {
            return next;
        }
    }
    next
}

// The tree of a root, whose number is `at`: the number after it, or one past the places where it does not fit. The records of earlier trees are of other lists, and are cleared.
// This is an inner layer: its callers lend the candidates of the root, and enough scratch.
pub fn grow_root(
    lists: &Lists<'_>,
    m: u64,
    verdict: bool,
    at: usize,
    masks: &mut [u64],
    parents: &mut [u16],
    scratch: &mut [u16],
) -> usize
    requires { (p : Policy) × RootToWrite p lists.now.accepting.now lists.now.rejecting.now m verdict at masks.old parents.old scratch.old }
    ensures tree { (p : Policy) → RootToWrite p lists.now.accepting.now lists.now.rejecting.now m verdict at masks.old parents.old scratch.old → RootWritten p m at result masks.old parents.old masks.new parents.new }
    ensures space { Undecided scratch.old scratch.new }
{
    let places = tables::places(masks.len());
    let free = 2 * (lists.accepting.len() + lists.rejecting.len());
    tables::clear(&mut scratch[..free]);
    grow(
        lists, m, verdict, 65535, at, places, masks, parents, scratch, free,
    )
}
