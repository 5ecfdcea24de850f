// Reads a policy's commands from standard input, the first 4,096 bytes, and prints its forest and its automaton, or the refusal.
#![tactic(auto)]

fn main() {
    let mut input = [0u8; 4096];
    let n = io::read_full(0, &mut input);
    printing::show_policy(&input[..n]);
}
