// An answer as one word. Where it holds a count or a size, the word must have room in 64 bits; proofs/Packing shows that it has,
// whatever the call.
ghost use Rattle.std.specs.Prelude.{◌≡◌, [], ◌+◌, ◌*◌, ◌^◌, ◌<◌};
ghost use Rattle.layout.specs.Answers.{number_of, rule_of, said_done, said_counted, said_listed};
ghost use Rattle.layout.specs.Words.{word};

use layout::answers::{Listed, Refusal};

// A refusal's number, and above it DAMAGED's rule.
#[tactic(auto, using(crate::proofs::Cased::few))]
fn refusal_word(refusal: Refusal) -> usize
    ensures { result ≡ number_of refusal + 256 * rule_of refusal }
{
    refusal.number() + 256 * refusal.rule()
}

#[tactic(auto, unfolding(layout::specs::Words::word))]
pub(crate) fn done_word(answer: Result<(), Refusal>) -> usize
    ensures { result ≡ word (said_done answer [] []) }
{
    match answer {
        Ok(()) => 0,
        Err(refusal) => refusal_word(refusal),
    }
}

// A count or a size: both have the same bits (proofs/Cased `sized_alike`).
#[tactic(auto, unfolding(layout::specs::Words::word))]
pub(crate) fn counted_word(answer: Result<usize, Refusal>) -> usize
    requires { word (said_counted answer [] []) < 2 ^ 64 }
    ensures { result ≡ word (said_counted answer [] []) }
{
    match answer {
        Ok(n) => 0x1_0000 * n,
        Err(refusal) => refusal_word(refusal),
    }
}

#[tactic(auto, unfolding(layout::specs::Words::word))]
pub(crate) fn listed_word(answer: Result<Listed, Refusal>) -> usize
    requires { word (said_listed answer [] []) < 2 ^ 64 }
    ensures { result ≡ word (said_listed answer [] []) }
{
    match answer {
        Ok(entry) => 256 * entry.length + 0x1_0000 * entry.size,
        Err(refusal) => refusal_word(refusal),
    }
}
