// A policy as a record of 452 bytes, and back. Bytes of another length are no record. Inner layer: a place that a record is stored in is as long as one.
#![tactic(auto)]

ghost use Rattle.std.specs.Prelude.{◌≡◌, map, ◌+◌, ◌≤◌, length};
ghost use Rattle.std.proofs.lemmas.List.Edits.{sets};
ghost use Rattle.records.specs.Records.{flag, record_length, bytes_at, flags_at, any_quiet, quiet_at, quiet_flags, policy_of, record_of};

use policy::Policy;

// How long a record is (record_length).
pub const LENGTH: usize = 452;

// ---- from a record
// 64 bytes of a record, from a place on.
fn bytes_at(packed: &[u8], at: usize) -> [u8; 64]
    requires { at + 64 ≤ length packed.now }
    ensures { result ≡ bytes_at packed.now at 64 }
{
    let mut bytes = [0; 64];
    bytes.copy_from_slice(&packed[at..at + 64]);
    bytes
}

// The 256 bytes of the family, each as yes or no.
fn flags_at(packed: &[u8]) -> [bool; 256]
    requires { record_length ≤ length packed.now }
    ensures { result ≡ flags_at packed.now 132 256 }
{
    let mut flags = [false; 256];
    for (i, byte) in packed[132..388].iter().enumerate() {
        flags[i] = *byte != 0;
    }
    flags
}

// Whether the record has a quiet edge; without a branch, so that many bytes are looked at together.
fn has_quiet(packed: &[u8]) -> bool
    requires { record_length ≤ length packed.now }
    ensures { result ≡ any_quiet packed.now }
{
    let mut b = false;
    for byte in &packed[388..452] {
        b = b | (*byte != 0);
    }
    b
}

// The last 64 bytes of a record, as an edge set. Most records have no quiet edge.
fn quiet_at(packed: &[u8]) -> u64
    requires { record_length ≤ length packed.now }
    ensures { result ≡ quiet_at packed.now }
{
    if !has_quiet(packed) {
        return 0;
    }
    let mut m: u64 = 0;
    for (i, byte) in packed[388..452].iter().enumerate() {
        m = masks::with_if(m, i, *byte != 0);
    }
    m
}

// The policy of a record; the zero policy, which is not legal, if the bytes are none.
pub fn policy_of(packed: &[u8]) -> Policy
    ensures { result ≡ policy_of packed.now }
{
    if packed.len() != LENGTH {
        return policy::counted(0, 0, 0, 0);
    }
    let quiet = quiet_at(packed);
    Policy {
        states: packed[0],
        letters: packed[1],
        colours: packed[2],
        initial: packed[3],
        target: bytes_at(packed, 4),
        colour: bytes_at(packed, 68),
        family: flags_at(packed),
        quiet,
    }
}

// ---- to a record
// Yes or no as a byte.
pub fn flag(b: bool) -> u8
    ensures { result ≡ flag b }
{
    u8::from(b)
}

// Stores bytes from a place on.
fn put_bytes(packed: &mut [u8], at: usize, bytes: &[u8])
    requires { at + length bytes.now ≤ length packed.old }
    ensures { packed.new ≡ sets packed.old at bytes.now }
{
    packed[at..at + bytes.len()].copy_from_slice(bytes);
}

// Stores a byte for each yes or no, from a place on.
fn put_flags(packed: &mut [u8], at: usize, flags: &[bool])
    requires { at + length flags.now ≤ length packed.old }
    ensures { packed.new ≡ sets packed.old at (map flag flags.now) }
{
    for (i, b) in flags.iter().enumerate() {
        packed[at + i] = flag(*b);
    }
}

// An edge set as 64 times yes or no. Most policies have no quiet edge.
fn quiet_flags(m: u64) -> [bool; 64]
    ensures { result ≡ quiet_flags m }
{
    let mut flags = [false; 64];
    if m == 0 {
        return flags;
    }
    for (i, flag) in flags.iter_mut().enumerate() {
        *flag = masks::has(m, i);
    }
    flags
}

// The record of a policy.
fn record_of(p: Policy) -> [u8; 452]
    ensures { result ≡ record_of p }
{
    let mut packed = [0; 452];
    packed[0] = p.states;
    packed[1] = p.letters;
    packed[2] = p.colours;
    packed[3] = p.initial;
    put_bytes(&mut packed, 4, &p.target);
    put_bytes(&mut packed, 68, &p.colour);
    put_flags(&mut packed, 132, &p.family);
    let quiet = quiet_flags(p.quiet);
    put_flags(&mut packed, 388, &quiet);
    packed
}

// Stores the record of a policy.
pub fn put_record(packed: &mut [u8], p: Policy)
    requires { length packed.old ≡ record_length }
    ensures { packed.new ≡ record_of p }
{
    let bytes = record_of(p);
    put_bytes(packed, 0, &bytes);
}
