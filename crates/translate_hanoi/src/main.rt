// Reads a text of the Hanoi format from standard input, the first 65,536 bytes, and prints the forest and the automaton of its policy, or the refusal.
#![tactic(auto)]

fn main() {
    let mut input = [0u8; 65536];
    let n = io::read_full(0, &mut input);
    printing::show_text(&input[..n]);
}
