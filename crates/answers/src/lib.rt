// What C is told of a translation: the number of a refusal and the counts, as the definitions beside the answers give them; and an offset beside them.
#![tactic(auto)]

ghost use Rattle.std.specs.Prelude.{◌≡◌, cond, eqb};
ghost use Rattle.builder.specs.Tables.{counts_of, number_of as translate_number_of};

use builder::Counts;
use refusals::Refusal;

// The number, and the counts into a place that the caller lends: how many nodes and built states there are, and the start.
pub fn of_translation(answer: Result<Counts, Refusal>, counts: &mut [u16; 3]) -> u8
    ensures number { result ≡ translate_number_of answer }
    ensures counts { counts.new ≡ counts_of answer }
{
    match answer {
        Ok(found) => {
            *counts = [found.nodes, found.states, found.start];
            0
        }
        Err(refusal) => {
            *counts = [0, 0, 0];
            refusal.number()
        }
    }
}

// An offset, 0 after a refusal.
pub fn unless_refused(number: u8, offset: usize) -> usize
    ensures { result ≡ cond (eqb number 0) offset 0 }
{
    if number == 0 { offset } else { 0 }
}
