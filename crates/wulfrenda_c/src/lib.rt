// The functions of the static library, for C and for Rust (include/wulfrenda.h): each is that of the crate wulfrenda under its name, and promises the same.
#![tactic(auto)]

ghost use Rattle.std.specs.Prelude.{◌≡◌, cond};
ghost use Rattle.lists.specs.Questions.{ask};
ghost use Rattle.colour_sets.specs.Order.{set_at};
ghost use Rattle.reading.specs.Reading.{offset_of, policy_read, reading_of, number_of as read_number_of};
ghost use Rattle.hanoi.specs.Answers.{shared_of, policy_read as text_policy, Answers, number_of as text_number_of};
ghost use Rattle.hanoi.specs.Reading.{hanoi_of};
ghost use Rattle.builder.specs.Tables.{counts_of, translation_of, tables_after, Hold, tables, number_of as translate_number_of};
ghost use Rattle.solving.specs.Solving.{solving_of, seven_after, winners_after, LettersAfter};
ghost use Rattle.running.specs.Running.{run_after, priority_of, number_of as run_number_of, reading_of as run_reading_of};
ghost use Rattle.judging.specs.Judging.{policy_number_of, policy_colours_of, policy_accepted_of, policy_verdict, rows_number_of, rows_least_of, rows_verdict};
ghost use Rattle.comparing.specs.Comparing.{same_of, comparison, number_of as compare_number_of};
ghost use Rattle.records.specs.Records.{flag, is_record, policy_of, record_of};
ghost use Rattle.answers.specs.Answers.{first_of, offset_after};
ghost use Rattle.wulfrenda.specs.Library.{version};

// The archive's version: major times 1,000,000 plus minor times 1,000 plus patch. The header's WULFRENDA_VERSION says which one a caller was built for.
#[unsafe(no_mangle)]
pub extern "C" fn wulfrenda_version() -> u32
    ensures { result ≡ version }
{
    wulfrenda::wulfrenda_version()
}

// The colour set at a position of the fixed order.
#[unsafe(no_mangle)]
pub extern "C" fn wulfrenda_colour_set(position: u8) -> u8
    ensures { result ≡ set_at position }
{
    wulfrenda::wulfrenda_colour_set(position)
}

// The record of the policy that the command bytes give, and where what follows the end command begins; after a refused reading a record of zeros, and the offset of the refused
// command. The record's length is asked first: another one is 7, the record as it was, the offset 0.
#[unsafe(no_mangle)]
pub extern "C" fn wulfrenda_read(bytes: &[u8], packed: &mut [u8], offset: &mut usize) -> u8
    ensures number { result ≡ ask (is_record packed.old) 7 (read_number_of (reading_of bytes.now)) }
    ensures policy { packed.new ≡ cond (is_record packed.old) (record_of (policy_read (reading_of bytes.now))) packed.old }
    ensures offset { offset.new ≡ cond (is_record packed.old) (offset_of (reading_of bytes.now)) 0 }
{
    wulfrenda::wulfrenda_read(bytes, packed, offset)
}

// The record of the policy of a text of the Hanoi format; after a refused reading a record of zeros, and beside 18 the length of the longest beginning that some text of the subset
// shares. The record's length is asked first: another one is 7, the record as it was, the length 0. The last clause says what the answer means, by documents alone.
#[unsafe(no_mangle)]
pub extern "C" fn wulfrenda_read_hanoi(text: &[u8], packed: &mut [u8], shared: &mut usize) -> u8
    ensures number { result ≡ ask (is_record packed.old) 7 (text_number_of (hanoi_of text.now)) }
    ensures policy { packed.new ≡ cond (is_record packed.old) (record_of (text_policy (hanoi_of text.now))) packed.old }
    ensures shared { shared.new ≡ cond (is_record packed.old) (shared_of (hanoi_of text.now)) 0 }
    ensures meaning { Answers text.now (hanoi_of text.now) }
{
    wulfrenda::wulfrenda_read_hanoi(text, packed, shared)
}

// The forest and the automaton in the seven tables; the numbers of nodes and states, and the start, in counts.
#[unsafe(no_mangle)]
pub extern "C" fn wulfrenda_translate(
    packed: &[u8],
    masks: &mut [u64],
    parents: &mut [u16],
    node_priorities: &mut [u8],
    sources: &mut [u8],
    leaves: &mut [u16],
    targets: &mut [u16],
    priorities: &mut [u8],
    counts: &mut [u16; 3],
) -> u8
    ensures number { result ≡ translate_number_of (translation_of (policy_of packed.now) (tables masks.old parents.old node_priorities.old sources.old leaves.old targets.old priorities.old)) }
    ensures counts { counts.new ≡ counts_of (translation_of (policy_of packed.now) (tables masks.old parents.old node_priorities.old sources.old leaves.old targets.old priorities.old)) }
    ensures tables { Hold (tables_after (policy_of packed.now) (tables masks.old parents.old node_priorities.old sources.old leaves.old targets.old priorities.old)) masks.new parents.new node_priorities.new sources.new leaves.new targets.new priorities.new }
{
    wulfrenda::wulfrenda_translate(
        packed,
        masks,
        parents,
        node_priorities,
        sources,
        leaves,
        targets,
        priorities,
        counts,
    )
}

// The two in one: the command bytes are read, and the policy that they give is translated. What was read is legal, so question 7 is not asked again; after a refused reading the policy
// is all zero, and translating an illegal policy leaves the tables as they are and counts nothing. The offset is 0 after a refused translation.
#[unsafe(no_mangle)]
pub extern "C" fn wulfrenda_translate_bytes(
    bytes: &[u8],
    masks: &mut [u64],
    parents: &mut [u16],
    node_priorities: &mut [u8],
    sources: &mut [u8],
    leaves: &mut [u16],
    targets: &mut [u16],
    priorities: &mut [u8],
    counts: &mut [u16; 3],
    offset: &mut usize,
) -> u8
    ensures number { result ≡ first_of (read_number_of (reading_of bytes.now)) (translate_number_of (translation_of (policy_read (reading_of bytes.now)) (tables masks.old parents.old node_priorities.old sources.old leaves.old targets.old priorities.old))) }
    ensures counts { counts.new ≡ counts_of (translation_of (policy_read (reading_of bytes.now)) (tables masks.old parents.old node_priorities.old sources.old leaves.old targets.old priorities.old)) }
    ensures tables { Hold (tables_after (policy_read (reading_of bytes.now)) (tables masks.old parents.old node_priorities.old sources.old leaves.old targets.old priorities.old)) masks.new parents.new node_priorities.new sources.new leaves.new targets.new priorities.new }
    ensures offset { offset.new ≡ offset_after (read_number_of (reading_of bytes.now)) (translate_number_of (translation_of (policy_read (reading_of bytes.now)) (tables masks.old parents.old node_priorities.old sources.old leaves.old targets.old priorities.old))) (offset_of (reading_of bytes.now)) }
{
    wulfrenda::wulfrenda_translate_bytes(
        bytes,
        masks,
        parents,
        node_priorities,
        sources,
        leaves,
        targets,
        priorities,
        counts,
        offset,
    )
}

// The supervisor's game of a policy, for the owners of its states: the translation as above; the winner of each built state, and a letter at each that its owner wins.
#[unsafe(no_mangle)]
pub extern "C" fn wulfrenda_solve(
    packed: &[u8],
    owners: &[u8],
    masks: &mut [u64],
    parents: &mut [u16],
    node_priorities: &mut [u8],
    sources: &mut [u8],
    leaves: &mut [u16],
    targets: &mut [u16],
    priorities: &mut [u8],
    winners: &mut [u8],
    letters: &mut [u8],
    counts: &mut [u16; 3],
) -> u8
    ensures number { result ≡ translate_number_of (solving_of (policy_of packed.now) owners.now (tables masks.old parents.old node_priorities.old sources.old leaves.old targets.old priorities.old) winners.old letters.old) }
    ensures counts { counts.new ≡ counts_of (solving_of (policy_of packed.now) owners.now (tables masks.old parents.old node_priorities.old sources.old leaves.old targets.old priorities.old) winners.old letters.old) }
    ensures tables { Hold (seven_after (policy_of packed.now) owners.now (tables masks.old parents.old node_priorities.old sources.old leaves.old targets.old priorities.old) winners.old letters.old) masks.new parents.new node_priorities.new sources.new leaves.new targets.new priorities.new }
    ensures winners { winners.new ≡ winners_after (policy_of packed.now) owners.now (tables masks.old parents.old node_priorities.old sources.old leaves.old targets.old priorities.old) winners.old letters.old }
    ensures letters { LettersAfter (policy_of packed.now) owners.now (tables masks.old parents.old node_priorities.old sources.old leaves.old targets.old priorities.old) winners.old letters.old letters.new }
{
    wulfrenda::wulfrenda_solve(
        packed,
        owners,
        masks,
        parents,
        node_priorities,
        sources,
        leaves,
        targets,
        priorities,
        winners,
        letters,
        counts,
    )
}

// The same from command bytes, read as by wulfrenda_translate_bytes.
#[unsafe(no_mangle)]
pub extern "C" fn wulfrenda_solve_bytes(
    bytes: &[u8],
    owners: &[u8],
    masks: &mut [u64],
    parents: &mut [u16],
    node_priorities: &mut [u8],
    sources: &mut [u8],
    leaves: &mut [u16],
    targets: &mut [u16],
    priorities: &mut [u8],
    winners: &mut [u8],
    letters: &mut [u8],
    counts: &mut [u16; 3],
    offset: &mut usize,
) -> u8
    ensures number { result ≡ first_of (read_number_of (reading_of bytes.now)) (translate_number_of (solving_of (policy_read (reading_of bytes.now)) owners.now (tables masks.old parents.old node_priorities.old sources.old leaves.old targets.old priorities.old) winners.old letters.old)) }
    ensures counts { counts.new ≡ counts_of (solving_of (policy_read (reading_of bytes.now)) owners.now (tables masks.old parents.old node_priorities.old sources.old leaves.old targets.old priorities.old) winners.old letters.old) }
    ensures tables { Hold (seven_after (policy_read (reading_of bytes.now)) owners.now (tables masks.old parents.old node_priorities.old sources.old leaves.old targets.old priorities.old) winners.old letters.old) masks.new parents.new node_priorities.new sources.new leaves.new targets.new priorities.new }
    ensures winners { winners.new ≡ winners_after (policy_read (reading_of bytes.now)) owners.now (tables masks.old parents.old node_priorities.old sources.old leaves.old targets.old priorities.old) winners.old letters.old }
    ensures letters { LettersAfter (policy_read (reading_of bytes.now)) owners.now (tables masks.old parents.old node_priorities.old sources.old leaves.old targets.old priorities.old) winners.old letters.old letters.new }
    ensures offset { offset.new ≡ offset_after (read_number_of (reading_of bytes.now)) (translate_number_of (solving_of (policy_read (reading_of bytes.now)) owners.now (tables masks.old parents.old node_priorities.old sources.old leaves.old targets.old priorities.old) winners.old letters.old)) (offset_of (reading_of bytes.now)) }
{
    wulfrenda::wulfrenda_solve_bytes(
        bytes,
        owners,
        masks,
        parents,
        node_priorities,
        sources,
        leaves,
        targets,
        priorities,
        winners,
        letters,
        counts,
        offset,
    )
}

// A letter more: the state moves, or stays after a refusal; the priority is that met, or 0 after a refusal.
#[unsafe(no_mangle)]
pub extern "C" fn wulfrenda_run(
    letters: u8,
    targets: &[u16],
    priorities: &[u8],
    state: &mut u16,
    letter: u8,
    priority: &mut u8,
) -> u8
    ensures number { result ≡ run_number_of (run_reading_of letters targets.now priorities.now (record { state = state.old }) letter) }
    ensures state { state.new ≡ (run_after (record { state = state.old }) (run_reading_of letters targets.now priorities.now (record { state = state.old }) letter)).state }
    ensures priority { priority.new ≡ priority_of (run_reading_of letters targets.now priorities.now (record { state = state.old }) letter) }
{
    wulfrenda::wulfrenda_run(letters, targets, priorities, state, letter, priority)
}

// The colours that recur on a policy from a state over the stem and then the loop without end, and whether their set is in the family.
#[unsafe(no_mangle)]
pub extern "C" fn wulfrenda_judge_policy(
    packed: &[u8],
    state: u8,
    stem: &[u8],
    period: &[u8],
    colours: &mut u8,
    accepted: &mut u8,
) -> u8
    ensures number { result ≡ policy_number_of (policy_verdict (policy_of packed.now) state stem.now period.now) }
    ensures colours { colours.new ≡ policy_colours_of (policy_verdict (policy_of packed.now) state stem.now period.now) }
    ensures accepted { accepted.new ≡ flag (policy_accepted_of (policy_verdict (policy_of packed.now) state stem.now period.now)) }
{
    wulfrenda::wulfrenda_judge_policy(packed, state, stem, period, colours, accepted)
}

// The least priority that recurs over rows from a state over the stem and then the loop without end.
#[unsafe(no_mangle)]
pub extern "C" fn wulfrenda_judge_rows(
    letters: u8,
    targets: &[u16],
    priorities: &[u8],
    state: u16,
    stem: &[u8],
    period: &[u8],
    least: &mut u8,
) -> u8
    ensures number { result ≡ rows_number_of (rows_verdict letters targets.now priorities.now (record { state = state }) stem.now period.now) }
    ensures least { least.new ≡ rows_least_of (rows_verdict letters targets.now priorities.now (record { state = state }) stem.now period.now) }
{
    wulfrenda::wulfrenda_judge_rows(letters, targets, priorities, state, stem, period, least)
}

// Whether every cycle has the same verdict in both policies.
#[unsafe(no_mangle)]
pub extern "C" fn wulfrenda_compare(first: &[u8], second: &[u8], same: &mut u8) -> u8
    ensures number { result ≡ compare_number_of (comparison (policy_of first.now) (policy_of second.now)) }
    ensures same { same.new ≡ flag (same_of (comparison (policy_of first.now) (policy_of second.now))) }
{
    wulfrenda::wulfrenda_compare(first, second, same)
}
