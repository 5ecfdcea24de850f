// Reading the acceptance formula of a text, and its value for 64 sets of marks at once, a lane for each, where the marks of the set recur and no others: one pass from left to right, with
// no stack.
#![tactic(auto)]

ghost use Rattle.std.specs.Prelude.{◌≡◌, ◌≤◌, ◌<◌, length};
ghost use Rattle.hanoi_formula.specs.Formula.{mark_lanes, ReadsMark, ReadsMarked, ReadsOperand, ReadsSign, ReadsFormula};

use hanoi_tokens::{Stop, Wanted};

// A mark in its parentheses, read up to a place.
#[derive(Clone, Copy, Debug, PartialEq, Eq)]
pub struct Mark {
    pub at: usize,
    pub mark: u32,
}

// Where an operand ends, with the lanes in which it holds and whether it bars bytes of names; or a parenthesis that opens.
#[derive(Clone, Copy, Debug, PartialEq, Eq)]
pub enum Operand {
    Opens(usize),
    Value(usize, u64, bool),
}

// What follows an operand.
#[derive(Clone, Copy, Debug, PartialEq, Eq)]
pub enum Sign {
    And(usize),
    Or(usize),
    Closes(usize),
    Body(usize),
}

// The lanes in which the formula holds, which was read up to a place.
#[derive(Clone, Copy, Debug, PartialEq, Eq)]
pub struct Valued {
    pub at: usize,
    pub value: u64,
}

// ---- the text
// Text, place and number of sets are passed one by one: a struct of them would be made anew at each place.

// A mark in its parentheses, behind `Inf` or `Fin`.
fn read_mark(text: &[u8], at: usize, sets: u32) -> Result<Mark, Stop>
    requires { (at ≤ length text.now) × (sets ≤ 32) }
    ensures { ReadsMark text.now at sets result }
{
    let opened = hanoi_tokens::read_word(text, at, true, b"(")?;
    let number = hanoi_tokens::read_number(text, opened, Wanted::Below(sets))?;
    let closed = hanoi_tokens::read_word(text, number.at, false, b")")?;
    Ok(Mark {
        at: closed,
        mark: number.value,
    })
}

// The rest of `Inf` or `Fin` behind its first letter, and the mark. Put into its two callers, so that the answer is not handed on through memory.
#[inline(always)]
fn read_marked(text: &[u8], at: usize, rest: &[u8], sets: u32) -> Result<Mark, Stop>
    requires { (at ≤ length text.now) × (sets ≤ 32) }
    ensures { ReadsMarked text.now at rest.now sets result }
{
    let behind = hanoi_tokens::spelled(text, at, rest)?;
    read_mark(text, behind, sets)
}

// The lanes in which Inf or Fin with a mark holds.
fn mark_lanes(all: u64, lanes: &[u64; 32], inf: bool, mark: u32) -> u64
    requires { mark < 32 }
    ensures { result ≡ mark_lanes all lanes.now inf mark }
{
    let recurs = lanes[mark as usize];
    if inf {
        recurs
    } else {
        masks::without(all, recurs)
    }
}

// An operand, or a parenthesis that opens.
fn read_operand(
    text: &[u8],
    at: usize,
    sets: u32,
    all: u64,
    lanes: &[u64; 32],
) -> Result<Operand, Stop>
    requires { (at ≤ length text.now) × (sets ≤ 32) }
    ensures { ReadsOperand text.now at sets all lanes.now result }
{
    let first = hanoi_tokens::next(text, at, false)?;
    let behind = first.at + 1;
    match first.byte {
        b'(' => Ok(Operand::Opens(behind)),
        b't' => Ok(Operand::Value(behind, all, true)),
        b'f' => Ok(Operand::Value(behind, 0, true)),
        b'I' if 0 < sets => {
            let m = read_marked(text, behind, b"nf", sets)?;
            Ok(Operand::Value(m.at, mark_lanes(all, lanes, true, m.mark), false))
        }
        b'F' if 0 < sets => {
            let m = read_marked(text, behind, b"in", sets)?;
            Ok(Operand::Value(m.at, mark_lanes(all, lanes, false, m.mark), false))
        }
        _ => Err(Stop { at: first.at }),
    }
}

// What follows an operand; `deep` says that a parenthesis is open.
fn read_sign(text: &[u8], at: usize, bar: bool, deep: bool) -> Result<Sign, Stop>
    requires { at ≤ length text.now }
    ensures { ReadsSign text.now at bar deep result }
{
    let first = hanoi_tokens::next(text, at, bar)?;
    let behind = first.at + 1;
    match first.byte {
        b'&' => Ok(Sign::And(behind)),
        b'|' => Ok(Sign::Or(behind)),
        b')' if deep => Ok(Sign::Closes(behind)),
        b'-' if !deep => {
            let end = hanoi_tokens::spelled(text, behind, b"-BODY--")?;
            Ok(Sign::Body(end))
        }
        _ => Err(Stop { at: first.at }),
    }
}

// The formula up to the words behind it, and the lanes of `all` in which it holds: `lanes` has for each mark the lanes in which it recurs.
pub fn read_formula(
    text: &[u8],
    at: usize,
    sets: u32,
    all: u64,
    lanes: &[u64; 32],
) -> Result<Valued, Stop>
    requires { (at ≤ length text.now) × (sets ≤ 32) }
    ensures { ReadsFormula text.now at sets all lanes.now result }
{
    let mut t = hanoi_lanes::start(all);
    let mut planes = [0; 64];
    let mut depth: usize = 0;
    let mut operand_next = true;
    let mut bar = false;
    let mut i = at;
    loop {
        if operand_next {
            match read_operand(text, i, sets, all, lanes)? {
                Operand::Opens(n) => {
                    hanoi_lanes::tell_opens(t, all, &mut planes);
                    depth += 1;
                    i = n;
                }
                Operand::Value(n, value, bars) => {
                    t = hanoi_lanes::tell_operand(t, value);
                    operand_next = false;
                    bar = bars;
                    i = n;
                }
            }
        } else {
            match read_sign(text, i, bar, 0 < depth)? {
                Sign::And(n) => {
                    t = hanoi_lanes::tell_and(t);
                    operand_next = true;
                    i = n;
                }
                Sign::Or(n) => {
                    t = hanoi_lanes::tell_or(t, &planes);
                    operand_next = true;
                    i = n;
                }
                Sign::Closes(n) => {
                    t = hanoi_lanes::tell_closes(t, all, &mut planes);
                    depth -= 1;
                    bar = false;
                    i = n;
                }
                Sign::Body(n) => {
                    return Ok(Valued {
                        at: n,
                        value: t.value,
                    });
                }
            }
        }
    }
}
