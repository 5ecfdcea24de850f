// The listing: a policy's forest and automaton, or the refusal, line by line on standard output.
#![tactic(auto)]

ghost use Rattle.std.specs.Prelude.{◌≤◌, length};

use builder::Counts;
use policy::Policy;
use refusals::Refusal;

fn show(text: &[u8], n: u64) {
    io::write_all(1, text);
    io::print_decimal(1, n);
}

// A number; a dash for 65,535.
fn show_or_dash(n: u16) {
    if n == 65535 {
        io::write_all(1, b" -");
    } else {
        show(b" ", n as u64);
    }
}

fn end_line() {
    io::write_all(1, b"\n");
}

// Node, mask, parent, priority.
fn show_node(n: u64, mask: u64, parent: u16, rank: u8) {
    show(b"n ", n);
    show(b" ", mask);
    show_or_dash(parent);
    show(b" ", rank as u64);
    end_line();
}

// Built state, policy state, leaf.
fn show_state(s: u64, source: u8, leaf: u16) {
    show(b"s ", s);
    show(b" ", source as u64);
    show_or_dash(leaf);
    end_line();
}

// Built state, letter, target, priority.
fn show_row(s: u64, letter: u64, target: u16, priority: u8) {
    show(b"t ", s);
    show(b" ", letter);
    show(b" ", target as u64);
    show(b" ", priority as u64);
    end_line();
}

// The first nodes of the tables.
fn show_nodes(
    count: u16,
    masks: &[u64; 1024],
    parents: &[u16; 1024],
    node_priorities: &[u8; 1024],
) {
    for n in 0..usize::from(count).min(1024) {
        show_node(n as u64, masks[n], parents[n], node_priorities[n]);
    }
}

fn show_states(count: u16, sources: &[u8; 1024], leaves: &[u16; 1024]) {
    for s in 0..usize::from(count).min(1024) {
        show_state(s as u64, sources[s], leaves[s]);
    }
}

// The rows of the states, in the order of the tables: row = built state times letters plus letter.
fn show_rows(count: u16, letters: u8, targets: &[u16; 8192], priorities: &[u8; 8192]) {
    for s in 0..count {
        for letter in 0..letters {
            let row = s as usize * letters as usize + letter as usize;
            if row < 8192 {
                show_row(s as u64, letter as u64, targets[row], priorities[row]);
            }
        }
    }
}

// The answer of reading or translating that refused.
fn show_refusal(refusal: Refusal) {
    show(b"refused ", u64::from(refusal.number()));
}

// The rows of 1,024 states; a legal policy has at most 8 letters.
fn row_places(letters: u8) -> usize
    ensures { result ≤ 8192 }
{
    1024 * usize::from(letters.min(8))
}

// The translation, in a beginning of the row tables.
fn translate_rows(
    p: &Policy,
    masks: &mut [u64],
    parents: &mut [u16],
    node_priorities: &mut [u8],
    sources: &mut [u8],
    leaves: &mut [u16],
    targets: &mut [u16],
    priorities: &mut [u8],
    rows: usize,
) -> Result<Counts, Refusal>
    requires { (rows ≤ length targets.old) × (rows ≤ length priorities.old) }
{
    builder::translate(
        p,
        masks,
        parents,
        node_priorities,
        sources,
        leaves,
        &mut targets[..rows],
        &mut priorities[..rows],
    )
}

// The translation of a policy, in tables of 1,024 nodes and 1,024 states.
fn show_translation(p: &Policy) {
    let letters = p.letters;
    let mut masks = [0u64; 1024];
    let mut parents = [0u16; 1024];
    let mut node_priorities = [0u8; 1024];
    let mut sources = [0u8; 1024];
    let mut leaves = [0u16; 1024];
    let mut targets = [0u16; 8192];
    let mut priorities = [0u8; 8192];
    let rows = row_places(letters);
    let answer = translate_rows(
        p,
        &mut masks,
        &mut parents,
        &mut node_priorities,
        &mut sources,
        &mut leaves,
        &mut targets,
        &mut priorities,
        rows,
    );
    match answer {
        Ok(counts) => {
            show(b"nodes ", counts.nodes as u64);
            show(b" states ", counts.states as u64);
            end_line();
            show_nodes(counts.nodes, &masks, &parents, &node_priorities);
            show_states(counts.states, &sources, &leaves);
            show_rows(counts.states, letters, &targets, &priorities);
            show(b"start ", counts.start as u64);
        }
        Err(refusal) => show_refusal(refusal),
    }
    end_line();
}

// The listing of the policy in some command bytes.
pub fn show_policy(bytes: &[u8]) {
    match reading::read(bytes) {
        Ok(found) => show_translation(&found.policy),
        Err(refused) => {
            show_refusal(refused.refusal);
            show(b" ", refused.at as u64);
            end_line();
        }
    }
}

// The listing of the policy in a text of the Hanoi format; beside 18 the length of the longest beginning that some text of the subset shares.
pub fn show_text(text: &[u8]) {
    match hanoi_reader::read(text) {
        Ok(p) => show_translation(&p),
        Err(refused) => {
            show_refusal(refused.refusal);
            if refused.refusal == Refusal::NotHanoi {
                show(b" ", refused.shared as u64);
            }
            end_line();
        }
    }
}
