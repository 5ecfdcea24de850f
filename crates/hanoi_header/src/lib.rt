// Reading the header of a text (document 02, S-4): all that stands before the formula.
#![tactic(auto)]

ghost use Rattle.std.specs.Prelude.{◌≡◌, not, ◌≤◌, length, All};
ghost use Rattle.lists.specs.Lists.{any};
ghost use Rattle.hanoi.specs.Documents.{same_bytes};
ghost use Rattle.hanoi_tokens.specs.Tokens.{Within};
ghost use Rattle.hanoi_header.specs.Names.{InText, name_in, names_in, ReadsNames};
ghost use Rattle.hanoi_header.specs.Header.{Offered, ReadsField, ReadsVersion, ReadsCounts, ReadsHeader};

use hanoi_tokens::{Name, Number, Stop, Wanted};

// What the header says, read up to the formula.
#[derive(Clone, Copy, Debug, PartialEq, Eq)]
pub struct Header {
    pub at: usize,
    pub states: u32,
    pub start: u32,
    pub names: u32,
    pub sets: u32,
}

// The header up to the number of names.
#[derive(Clone, Copy)]
struct Counts {
    at: usize,
    states: u32,
    start: u32,
    names: u32,
}

// ---- names
fn same_bytes(text: &[u8], a: Name, b: Name) -> bool
    requires { InText text.now a × InText text.now b }
    ensures { result ≡ same_bytes (name_in text.now a) (name_in text.now b) }
{
    text[a.at..a.end] == text[b.at..b.end]
}

// None of the names has the bytes of this one.
// A loop: with any, the proof does not find what the closure answers, since its call asks something of each name.
fn is_new(text: &[u8], names: &[Name], name: Name) -> bool
    requires { All (InText text.now) names.now × InText text.now name }
    ensures { result ≡ not (any (same_bytes (name_in text.now name)) (names_in text.now names.now)) }
{
    for &old in names {
        if same_bytes(text, name, old) {
            return false;
        }
    }
    true
}

// As many names, each new.
fn read_names(text: &[u8], at: usize, count: usize) -> Result<usize, Stop>
    requires { (at ≤ length text.now) × (count ≤ 3) }
    ensures { ReadsNames text.now at count result }
{
    let mut names = [Name { at: 0, end: 0 }; 3];
    let mut i = at;
    for n in 0..count {
        let name = hanoi_tokens::read_name(text, i)?;
        if !is_new(text, &names[..n], name) {
            return Err(Stop { at: name.end });
        }
        names[n] = name;
        i = name.end + 1;
    }
    Ok(i)
}

// ---- the header
// A word, and the number behind it.
fn read_field(
    text: &[u8],
    at: usize,
    bar: bool,
    bytes: &[u8],
    wanted: Wanted,
) -> Result<Number, Stop>
    requires { (at ≤ length text.now) × Within wanted × Offered bytes.now }
    ensures { ReadsField text.now at bar bytes.now wanted result }
{
    let i = hanoi_tokens::read_word(text, at, bar, bytes)?;
    hanoi_tokens::read_number(text, i, wanted)
}

// HOA: v1
fn read_version(text: &[u8]) -> Result<usize, Stop>
    ensures { ReadsVersion text.now result }
{
    let i = hanoi_tokens::read_word(text, 0, false, b"HOA:")?;
    hanoi_tokens::read_word(text, i, false, b"v1")
}

// The header up to the number of names. Nothing of a name may touch v1.
fn read_counts(text: &[u8]) -> Result<Counts, Stop>
    ensures { ReadsCounts text.now result }
{
    let at = read_version(text)?;
    let states = read_field(text, at, true, b"States:", Wanted::Positive)?;
    let start = read_field(
        text,
        states.at,
        false,
        b"Start:",
        Wanted::Below(states.value),
    )?;
    let names = read_field(text, start.at, false, b"AP:", Wanted::Below(4))?;
    Ok(Counts {
        at: names.at,
        states: states.value,
        start: start.value,
        names: names.value,
    })
}

// The header of a text.
pub fn read_header(text: &[u8]) -> Result<Header, Stop>
    ensures { ReadsHeader text.now result }
{
    let counts = read_counts(text)?;
    let at = read_names(text, counts.at, counts.names as usize)?;
    let sets = read_field(text, at, false, b"Acceptance:", Wanted::Below(33))?;
    Ok(Header {
        at: sets.at,
        states: counts.states,
        start: counts.start,
        names: counts.names,
        sets: sets.value,
    })
}
