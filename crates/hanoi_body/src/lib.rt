// Reading what stands behind --BODY-- (document 02, S-4): for each state its number and an edge for each letter, a target and optionally marks in braces, and the end. What a function promises is
// promised of whatever place the reader of documents is at.
#![tactic(auto)]

ghost use Rattle.std.specs.Prelude.{◌≡◌, true, ◌+◌, ◌*◌, ◌≤◌, ◌<◌, length};
ghost use Rattle.hanoi_body.specs.Edges.{ReadsMarks, ReadsEdge};
ghost use Rattle.hanoi_body.specs.Rows.{ReadsState, WithEdge, ReadsRow, ReadsEnd};
ghost use Rattle.hanoi_body.specs.Body.{ReadsBody};

use hanoi_tokens::{Stop, Wanted};

// The set of the marks in braces, read up to a place.
#[derive(Clone, Copy, Debug, PartialEq, Eq)]
struct Marks {
    pub at: usize,
    pub marks: u32,
}

// An edge, read up to a place: its target, and the set of its marks.
#[derive(Clone, Copy, Debug, PartialEq, Eq)]
struct Step {
    pub at: usize,
    pub target: u32,
    pub marks: u32,
}

// Edges by number, and 0 past them, read up to a place.
#[derive(Clone, Copy)]
pub struct Body {
    pub at: usize,
    pub target: [u8; 64],
    pub marks: [u32; 64],
}

// ---- edges
// Text, place and counts are passed one by one: a struct of them would be made anew at each place.

// The marks behind an opening brace, with the closing one.
fn read_marks(text: &[u8], at: usize, sets: u32) -> Result<Marks, Stop>
    requires { (at ≤ length text.now) × (sets ≤ 32) }
    ensures { ReadsMarks text.now at sets result }
{
    let mut marks: u32 = 0;
    let mut i = at;
    loop {
        let first = hanoi_tokens::next(text, i, false)?;
        if first.byte == b'}' {
            return Ok(Marks {
                at: first.at + 1,
                marks,
            });
        }
        let mark = hanoi_tokens::read_digits(text, first.at, Wanted::Below(sets))?;
        marks |= 1 << mark.value;
        i = mark.at;
    }
}

// An edge from its first byte on, up to the first byte of what follows it: something does in every text of the subset.
fn read_edge(text: &[u8], at: usize, states: u32, sets: u32) -> Result<Step, Stop>
    requires { (at < length text.now) × (states < 2147483648) × (sets ≤ 32) }
    ensures { ReadsEdge text.now at states sets result }
{
    let target = hanoi_tokens::read_digits(text, at, Wanted::Below(states))?;
    let first = hanoi_tokens::next(text, target.at, false)?;
    if first.byte != b'{' {
        return Ok(Step {
            at: first.at,
            target: target.value,
            marks: 0,
        });
    }
    let braces = read_marks(text, first.at + 1, sets)?;
    let behind = hanoi_tokens::next(text, braces.at, false)?;
    Ok(Step {
        at: behind.at,
        target: target.value,
        marks: braces.marks,
    })
}

// ---- states
// The number of a state, up to the first byte of its first edge.
fn read_state(text: &[u8], at: usize, row: u32) -> Result<usize, Stop>
    requires { (at ≤ length text.now) × (row < 2147483648) }
    ensures { ReadsState text.now at row result }
{
    let word = hanoi_tokens::read_word(text, at, false, b"State:")?;
    let number = hanoi_tokens::read_number(text, word, Wanted::Exactly(row))?;
    let first = hanoi_tokens::next(text, number.at, false)?;
    Ok(first.at)
}

// The edge of letter a of a state, stored if the tables have room for every edge.
fn with_edge(body: Body, e: Step, row: u32, letters: usize, a: usize, fits: bool) -> Body
    requires { fits ≡ true → (row * letters + a < 64) × (e.target < 256) }
    ensures { WithEdge body e (row * letters + a) fits result }
{
    let mut r = body;
    if fits {
        let i = row as usize * letters + a;
        r.target[i] = e.target as u8;
        r.marks[i] = e.marks;
    }
    r
}

// A state with its edges.
fn read_row(
    text: &[u8],
    body: Body,
    row: u32,
    states: u32,
    letters: usize,
    sets: u32,
    fits: bool,
) -> Result<Body, Stop>
    requires { (body.at ≤ length text.now) × (row < states) × (states < 2147483648) × (sets ≤ 32)
        × (fits ≡ true → (states ≤ 16) × (states * letters ≤ 64)) }
    ensures { ReadsRow text.now states letters sets fits row body result }
{
    let mut b = body;
    let mut at = read_state(text, b.at, row)?;
    for a in 0..letters {
        let e = read_edge(text, at, states, sets)?;
        b = with_edge(b, e, row, letters, a, fits);
        at = e.at;
    }
    b.at = at;
    Ok(b)
}

// The end, and only white space behind it.
fn read_end(text: &[u8], at: usize) -> Result<usize, Stop>
    requires { at ≤ length text.now }
    ensures { ReadsEnd text.now at result }
{
    let word = hanoi_tokens::read_word(text, at, false, b"--END--")?;
    let end = hanoi_tokens::skip_white(text, word);
    if end < text.len() {
        return Err(Stop { at: end });
    }
    Ok(end)
}

// The states of a document and its end, behind --BODY--. The tables are filled if they have room for every edge.
// By itself, so that its copies of the tables stand in no frame but its own.
#[inline(never)]
pub fn read_body(
    text: &[u8],
    at: usize,
    states: u32,
    letters: usize,
    sets: u32,
    fits: bool,
) -> Result<Body, Stop>
    requires { (at ≤ length text.now) × (0 < states) × (states < 2147483648) × (sets ≤ 32)
        × (fits ≡ true → (states ≤ 16) × (states * letters ≤ 64)) }
    ensures { ReadsBody text.now at states letters sets fits result }
{
    let mut body = Body {
        at,
        target: [0; 64],
        marks: [0; 64],
    };
    for i in 0..states {
        body = read_row(text, body, i, states, letters, sets, fits)?;
    }
    body.at = read_end(text, body.at)?;
    Ok(body)
}
