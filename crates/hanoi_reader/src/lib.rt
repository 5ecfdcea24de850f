// Reading a policy from a text of the Hanoi Omega-Automata format, version 1 (document 02, S-4): one pass over the text, and one over its formula for each 64 sets of the colours.
#![tactic(auto)]

ghost use Rattle.std.specs.Prelude.{◌≡◌, ◌&&◌, ◌*◌, ◌≤◌, ◌^◌, leb};
ghost use Rattle.hanoi.specs.Answers.{Answers};
ghost use Rattle.hanoi.specs.Reading.{hanoi_of};
ghost use Rattle.hanoi_reader.specs.Answering.{answer_for};

use hanoi::TextRefused;
use hanoi_tokens::Stop;
use policy::Policy;
use refusals::Refusal;

// How many letters there are: one for each valuation of the names.
fn letters_of(names: u32) -> usize
    requires { names ≤ 3 }
    ensures { (result ≡ 2 ^ names) × (result ≤ 8) }
{
    1 << names
}

// Question 4: states and edges within the limits.
fn is_within_limits(states: u32, letters: usize) -> bool
    requires { letters ≤ 8 }
    ensures { result ≡ leb states 16 && leb (states * letters) 64 }
{
    states <= 16 && states as usize * letters <= 64
}

// The policy of a text of the subset, or why it has none; or where the text stops being one of the subset.
fn read_policy(text: &[u8]) -> Result<Result<Policy, Refusal>, Stop>
    ensures { answer_for result ≡ hanoi_of text.now }
{
    let header = hanoi_header::read_header(text)?;
    // Its values are asked for when the colours are known.
    let no_lanes = [0u64; 32];
    let formula = hanoi_formula::read_formula(text, header.at, header.sets, 0, &no_lanes)?;
    let letters = letters_of(header.names);
    let fits = is_within_limits(header.states, letters);
    let body = hanoi_body::read_body(text, formula.at, header.states, letters, header.sets, fits)?;
    if !fits {
        return Ok(Err(Refusal::OutOfRange));
    }
    let Some(colouring) = mark_sets::colours_of(&body.marks, header.states as usize * letters)
    else {
        return Ok(Err(Refusal::TooManyMarkSets));
    };
    let family = hanoi_family::family_of(
        text,
        header.at,
        header.sets,
        &colouring.sets,
        colouring.count,
    );
    let target = body.target;
    let colour = colouring.colour;
    Ok(Ok(Policy {
        states: header.states as u8,
        letters: letters as u8,
        colours: colouring.count,
        initial: header.start as u8,
        target,
        colour,
        family,
        quiet: 0,
    }))
}

// The policy of a text; or NotHanoi, with the length of the longest beginning that some text of the subset shares, OutOfRange or TooManyMarkSets.
pub fn read(text: &[u8]) -> Result<Policy, TextRefused>
    ensures answer { result ≡ hanoi_of text.now }
    ensures meaning { Answers text.now result }
{
    match read_policy(text) {
        Ok(Ok(policy)) => Ok(policy),
        Ok(Err(refusal)) => Err(TextRefused { refusal, shared: 0 }),
        Err(stop) => Err(TextRefused {
            refusal: Refusal::NotHanoi,
            shared: stop.at,
        }),
    }
}
