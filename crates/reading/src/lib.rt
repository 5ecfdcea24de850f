// Reading a policy from command bytes: each command is asked document 01's questions in order, and then taken into the draft.
#![tactic(auto)]

ghost use Rattle.std.specs.Prelude.{◌≡◌, true, ◌+◌, ◌-◌, ◌*◌, ◌<◌, ◌≤◌, ◌^◌, length};
ghost use Rattle.policy.specs.Policies.{edge_of};
ghost use Rattle.policy.specs.Making.{counted};
ghost use Rattle.reading.specs.Reading.{Bounded, HandsBack, ReadsPolicy, all_given, command_at, command_known, complete_at_end, first_time, in_place, operand_count, operands_there, taken_at, within_limits};

use refusals::Refusal;

// A command with its operands.
#[derive(Clone, Copy)]
pub enum Command {
    End,
    // states, letters, colours, initial state
    Shape(u8, u8, u8, u8),
    // state, letter, target, colour
    Edge(u8, u8, u8, u8),
    // colour set
    Accept(u8),
    // state, letter, target
    Quiet(u8, u8, u8),
}

// The policy so far, and the set of the edges given so far.
#[derive(Clone, Copy)]
pub struct Draft {
    pub policy: policy::Policy,
    pub given: u64,
}

// A policy that was read, and the offset just past its end command.
#[derive(Clone, Copy)]
pub struct Found {
    pub policy: policy::Policy,
    pub end: usize,
}

// A refusal, and the offset of the refused command.
#[derive(Clone, Copy, Debug, PartialEq, Eq)]
pub struct Refused {
    pub refusal: Refusal,
    pub at: usize,
}

// ---- commands
fn is_known(code: u8) -> bool
    ensures { result ≡ command_known code }
{
    code <= 4
}

fn operand_count(code: u8) -> usize
    ensures { result ≡ operand_count code }
{
    match code {
        1 => 4,
        2 => 4,
        3 => 1,
        4 => 3,
        _ => 0,
    }
}

// The command at an offset. In two halves, so that the compiler makes comparisons of it and no table of jumps, which are guessed less well.
fn command_at(bytes: &[u8], at: usize) -> Command
    requires { (at < length bytes.now) × (operands_there bytes.now at ≡ true) }
    ensures { result ≡ command_at bytes.now at }
{
    let code = bytes[at];
    if code < 3 {
        if code == 1 {
            return Command::Shape(bytes[at + 1], bytes[at + 2], bytes[at + 3], bytes[at + 4]);
        }
        if code == 2 {
            return Command::Edge(bytes[at + 1], bytes[at + 2], bytes[at + 3], bytes[at + 4]);
        }
        return Command::End;
    }
    if code == 3 {
        return Command::Accept(bytes[at + 1]);
    }
    if code == 4 {
        return Command::Quiet(bytes[at + 1], bytes[at + 2], bytes[at + 3]);
    }
    Command::End
}

// ---- the questions
fn is_in_place(at: usize, c: Command) -> bool
    ensures { result ≡ in_place at c }
{
    match c {
        Command::End => at != 0,
        Command::Shape(_, _, _, _) => at == 0,
        Command::Edge(_, _, _, _) => at != 0,
        Command::Accept(_) => at != 0,
        Command::Quiet(_, _, _) => at != 0,
    }
}

// How many colour sets there are.
fn sets_of(colours: u8) -> usize
    requires { colours ≤ 8 }
    ensures { result ≡ 2 ^ colours }
{
    1 << colours
}

fn is_within_limits(p: &policy::Policy, c: Command) -> bool
    requires { Bounded p.now }
    ensures { result ≡ within_limits p.now c }
{
    match c {
        Command::End => true,
        Command::Shape(states, letters, colours, initial) => {
            policy::counts_fit(states, letters, colours, initial)
        }
        Command::Edge(state, letter, target, colour) => {
            (state < p.states) & (letter < p.letters) & (target < p.states) & (colour < p.colours)
        }
        Command::Accept(set) => (set as usize) < sets_of(p.colours),
        Command::Quiet(state, letter, target) => {
            (state < p.states) & (letter < p.letters) & (target < p.states)
        }
    }
}

fn edge_of(p: &policy::Policy, state: u8, letter: u8) -> usize
    ensures { result ≡ edge_of p.now state letter }
{
    state as usize * p.letters as usize + letter as usize
}

fn is_first_time(p: &policy::Policy, given: u64, c: Command) -> bool
    requires { (Bounded p.now) × (within_limits p.now c ≡ true) }
    ensures { result ≡ first_time (record { policy = p.now; given = given }) c }
{
    match c {
        Command::End => true,
        Command::Shape(_, _, _, _) => true,
        Command::Edge(state, letter, _, _) => !masks::has(given, edge_of(p, state, letter)),
        Command::Accept(set) => !p.family[set as usize],
        Command::Quiet(state, letter, _) => !masks::has(given, edge_of(p, state, letter)),
    }
}

fn all_given(given: u64, edges: usize) -> bool
    requires { edges ≤ 64 }
    ensures { result ≡ all_given given edges }
{
    masks::inside(masks::full(edges), given)
}

fn is_complete_at_end(p: &policy::Policy, given: u64, c: Command) -> bool
    requires { Bounded p.now }
    ensures { result ≡ complete_at_end (record { policy = p.now; given = given }) c }
{
    match c {
        Command::End => all_given(given, policy::edges(p)),
        Command::Shape(_, _, _, _) => true,
        Command::Edge(_, _, _, _) => true,
        Command::Accept(_) => true,
        Command::Quiet(_, _, _) => true,
    }
}

// The command at an offset; the refusal of the first question that is answered no. The draft's two parts are lent one by one: so the set of edges given stays in a register.
fn taken_at(bytes: &[u8], at: usize, p: &policy::Policy, given: u64) -> Result<Command, Refusal>
    requires { Bounded p.now }
    ensures { result ≡ taken_at bytes.now at (record { policy = p.now; given = given }) }
{
    if bytes.len() <= at {
        return Err(Refusal::Truncated);
    }
    let code = bytes[at];
    if !is_known(code) {
        return Err(Refusal::UnknownCommand);
    }
    if bytes.len() - (at + 1) < operand_count(code) {
        return Err(Refusal::Truncated);
    }
    let c = command_at(bytes, at);
    if !is_in_place(at, c) {
        return Err(Refusal::Misplaced);
    }
    if !is_within_limits(p, c) {
        return Err(Refusal::OutOfRange);
    }
    if !is_first_time(p, given, c) {
        return Err(Refusal::Repeated);
    }
    if !is_complete_at_end(p, given, c) {
        return Err(Refusal::Incomplete);
    }
    Ok(c)
}

// ---- reading
// The policy of the commands up to the end command, or the first refusal. The draft's policy is written in place; it is all zero where the shape is given, at the first byte.
pub fn read(bytes: &[u8]) -> Result<Found, Refused>
    ensures { ReadsPolicy bytes.now result }
{
    let mut p = policy::counted(0, 0, 0, 0);
    let mut given = 0;
    let mut at = 0;
    loop {
        let c = match taken_at(bytes, at, &p, given) {
            Ok(c) => c,
            Err(refusal) => return Err(Refused { refusal, at }),
        };
        match c {
            Command::End => {
                return Ok(Found {
                    policy: p,
                    end: at + 1,
                });
            }
            Command::Shape(states, letters, colours, initial) => {
                p.states = states;
                p.letters = letters;
                p.colours = colours;
                p.initial = initial;
                given = 0;
            }
            Command::Edge(state, letter, target, colour) => {
                let e = edge_of(&p, state, letter);
                p.target[e] = target;
                p.colour[e] = colour;
                given = masks::with(given, e);
            }
            Command::Accept(set) => {
                p.family[set as usize] = true;
            }
            Command::Quiet(state, letter, target) => {
                let e = edge_of(&p, state, letter);
                p.target[e] = target;
                p.colour[e] = 0;
                p.quiet = masks::with(p.quiet, e);
                given = masks::with(given, e);
            }
        }
        at = at + 1 + operand_count(bytes[at]);
    }
}

// What follows the end command, as a part of the caller's bytes; empty after a refusal.
pub fn rest(bytes: &[u8]) -> &[u8]
    ensures { HandsBack bytes.now result.now }
{
    match read(bytes) {
        Ok(found) => &bytes[found.end..],
        Err(_) => &bytes[bytes.len()..],
    }
}
