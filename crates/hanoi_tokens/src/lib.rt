// Reading the tokens of a text (document 02, S-4), each from a place in the text on. What a function promises is promised of whatever place the reader of documents is at.
// A text and a place are two parameters: each call has a place of its own, and a struct of both would be made anew for each.
#![tactic(auto)]

ghost use Rattle.std.specs.Prelude.{◌≡◌, true, ◌-◌, ◌≤◌, ◌<◌, length};
ghost use Rattle.hanoi.specs.Texts.{white, digit, goes_on};
ghost use Rattle.hanoi.specs.Prefixes.{prefix_of};
ghost use Rattle.hanoi_tokens.specs.Tokens.{Skips, Begins, Spells, ReadsWord, Within, takes_by, ends_by, ReadsDigits, ReadsNumber, ReadsName};

// Where the text stops being one of the subset.
#[derive(Clone, Copy, Debug, PartialEq, Eq)]
pub struct Stop {
    pub at: usize,
}

// The first byte of a token.
#[derive(Clone, Copy, Debug, PartialEq, Eq)]
pub struct Begun {
    pub at: usize,
    pub byte: u8,
}

// A number below another, one from 1 to 2^31 - 1, or one alone.
// The bound on its number is asked where it is passed: a variant has no ghost field, and a struct around the enum would be longer at each call.
#[derive(Clone, Copy, Debug, PartialEq, Eq)]
pub enum Wanted {
    Below(u32),
    Positive,
    Exactly(u32),
}

// A number, read up to a place.
#[derive(Clone, Copy, Debug, PartialEq, Eq)]
pub struct Number {
    pub at: usize,
    pub value: u32,
}

// The bytes of a name, from `at` on and before `end`, where its closing quote is.
#[derive(Clone, Copy, Debug, PartialEq, Eq)]
pub struct Name {
    pub at: usize,
    pub end: usize,
}

// ---- bytes
// Without a branch: of a `match` the compiler makes one for each byte.
#[tactic(auto, unfolding(hanoi::specs::Texts::white))]
fn is_white(b: u8) -> bool
    ensures { result ≡ white b }
{
    (b == b' ') | (b == b'\t') | (b == b'\n') | (b == b'\r')
}

#[tactic(auto, unfolding(hanoi::specs::Texts::goes_on))]
fn goes_on(b: u8) -> bool
    ensures { result ≡ goes_on b }
{
    ((b'a' <= b) & (b <= b'z'))
        | ((b'A' <= b) & (b <= b'Z'))
        | ((b'0' <= b) & (b <= b'9'))
        | (b == b'_')
        | (b == b'-')
}

// ---- white space
pub fn skip_white(text: &[u8], at: usize) -> usize
    requires { at ≤ length text.now }
    ensures { Skips text.now at result }
{
    for i in at..text.len() {
        if !is_white(text[i]) {
            return i;
        }
    }
    text.len()
}

// The first byte of the next token, behind one that bars bytes of names or not.
pub fn next(text: &[u8], at: usize, bar: bool) -> Result<Begun, Stop>
    requires { at ≤ length text.now }
    ensures { Begins text.now at bar result }
{
    let i = skip_white(text, at);
    if text.len() <= i {
        return Err(Stop { at: i });
    }
    let byte = text[i];
    if bar && i == at && goes_on(byte) {
        return Err(Stop { at: i });
    }
    Ok(Begun { at: i, byte })
}

// ---- words
// The bytes of a word that are still to come.
pub fn spelled(text: &[u8], at: usize, rest: &[u8]) -> Result<usize, Stop>
    requires { at ≤ length text.now }
    ensures { Spells text.now at rest.now result }
{
    for (i, &b) in rest.iter().enumerate() {
        let n = at + i;
        if text.len() <= n || text[n] != b {
            return Err(Stop { at: n });
        }
    }
    Ok(at + rest.len())
}

// The only word that may come.
pub fn read_word(text: &[u8], at: usize, bar: bool, bytes: &[u8]) -> Result<usize, Stop>
    requires { at ≤ length text.now }
    ensures { ReadsWord text.now at bar bytes.now result }
{
    let first = next(text, at, bar)?;
    spelled(text, first.at, bytes)
}

// ---- numbers
// The digits of n begin those of k.
fn is_prefix(n: u32, k: u32) -> bool
    requires { (n < 2147483648) × (k < 2147483648) }
    ensures { result ≡ prefix_of n k }
{
    if n == 0 {
        return k == 0;
    }
    let mut rest = k;
    while n < rest {
        rest /= 10;
    }
    n == rest
}

impl Wanted {
    // A number of this kind may begin with n.
    fn takes(self, n: u64) -> bool
        requires { Within self }
        ensures { result ≡ takes_by self n }
    {
        match self {
            Wanted::Below(k) => n < u64::from(k),
            Wanted::Positive => 0 < n && n < 2147483648,
            Wanted::Exactly(k) => n < 2147483648 && is_prefix(n as u32, k),
        }
    }

    // And end with it.
    fn ends(self, n: u32) -> bool
        ensures { result ≡ ends_by self n }
    {
        match self {
            Wanted::Below(_) | Wanted::Positive => true,
            Wanted::Exactly(k) => n == k,
        }
    }
}

// What a digit stands for.
fn value_of(b: u8) -> u64
    requires { digit b ≡ true }
    ensures { (result ≡ b - 48) × (result < 10) }
{
    u64::from(b - b'0')
}

// A number from its first byte on. Its digits go on up to a byte that is none: there is one behind every number of a text of the subset.
// Put into each caller: there the kind of number is known, and the answer is not handed on through memory.
#[inline(always)]
pub fn read_digits(text: &[u8], at: usize, wanted: Wanted) -> Result<Number, Stop>
    requires { (at < length text.now) × Within wanted }
    ensures { ReadsDigits text.now at wanted result }
{
    if !text[at].is_ascii_digit() {
        return Err(Stop { at });
    }
    let mut n = value_of(text[at]);
    if !wanted.takes(n) {
        return Err(Stop { at });
    }
    for i in at + 1..text.len() {
        if !text[i].is_ascii_digit() {
            let value = n as u32;
            if !wanted.ends(value) {
                return Err(Stop { at: i });
            }
            return Ok(Number { at: i, value });
        }
        if n == 0 {
            return Err(Stop { at: i });
        }
        let more = n * 10 + value_of(text[i]);
        if !wanted.takes(more) {
            return Err(Stop { at: i });
        }
        n = more;
    }
    Err(Stop { at: text.len() })
}

// A number, where nothing else may come.
pub fn read_number(text: &[u8], at: usize, wanted: Wanted) -> Result<Number, Stop>
    requires { (at ≤ length text.now) × Within wanted }
    ensures { ReadsNumber text.now at wanted result }
{
    let first = next(text, at, false)?;
    read_digits(text, first.at, wanted)
}

// ---- names
// A name up to its closing quote. A backslash takes the next byte with it, which is no line feed.
// By itself, so that its loop keeps all that it needs in registers.
#[inline(never)]
pub fn read_name(text: &[u8], at: usize) -> Result<Name, Stop>
    requires { at ≤ length text.now }
    ensures { ReadsName text.now at result }
{
    let first = next(text, at, false)?;
    if first.byte != b'"' {
        return Err(Stop { at: first.at });
    }
    let from = first.at + 1;
    let mut i = from;
    // A while: a backslash takes two bytes at once, so that a byte is asked no more than whether it is one of two.
    while i < text.len() {
        let b = text[i];
        if b == b'"' {
            return Ok(Name { at: from, end: i });
        }
        if b == b'\\' {
            i += 1;
            if text.len() <= i {
                return Err(Stop { at: text.len() });
            }
            if text[i] == b'\n' {
                return Err(Stop { at: i });
            }
        }
        i += 1;
    }
    Err(Stop { at: text.len() })
}
