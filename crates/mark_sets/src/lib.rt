// Colours for mark sets (document 02, S-4): each different mark set of the edges is a colour, numbered by first appearance.
#![tactic(auto)]

ghost use Rattle.std.specs.Prelude.{ℕ, ◌≤◌, ◌<◌, ◌≡◌, List, [], ◌∷◌, ◌++◌, ◌==◌, length, take, position};
ghost use Rattle.mark_sets.specs.MarkSets.{Coloured, Colours};

// The colour of each edge, and the mark set of each colour.
// Arrays with a count beside them, as in a policy: no heap, fixed memory.
#[derive(Clone, Copy)]
pub struct Colouring {
    pub colour: [u8; 64],
    pub sets: [u32; 8],
    pub count: u8,
}

// The first place that holds x.
fn place_of(sets: &[u32], x: u32) -> Option<usize>
    ensures { result ≡ position (λ s. s == x) sets.now }
{
    sets.iter().position(|s| *s == x)
}

// One edge more, whose mark set is x; None if that is a ninth mark set.
fn with_edge(seen: Colouring, e: usize, x: u32) -> Option<Colouring>
    requires { (e < 64) × (seen.count ≤ 8) }
    ensures { (l : List ℕ) → length l ≡ e → Coloured l seen → Colours (l ++ (x ∷ [])) result }
{
    let mut r = seen;
    let count = usize::from(r.count);
    let c = match place_of(&seen.sets[..count], x) {
        Some(c) => c,
        None if count == 8 => return None,
        None => {
            r.sets[count] = x;
            r.count = r.count + 1;
            count
        }
    };
    r.colour[e] = c as u8;
    Some(r)
}

// The colours of the edges by their mark sets; None if there are more than 8 different ones.
pub fn colours_of(marks: &[u32; 64], edges: usize) -> Option<Colouring>
    requires { edges ≤ 64 }
    ensures { Colours (take edges marks.now) result }
{
    let mut seen = Colouring {
        colour: [0; 64],
        sets: [0; 8],
        count: 0,
    };
    for (e, x) in marks[..edges].iter().enumerate() {
        seen = with_edge(seen, e, *x)?;
    }
    Some(seen)
}
