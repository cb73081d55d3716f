// What a call answered, in the numbers that are printed.
ghost use Rattle.std.specs.Prelude.{◌≡◌, MatchResult};
ghost use Rattle.layout.specs.Answers.{number_of, rule_of};

use layout::answers::{Listed, Refusal};
use std::fmt;

// The number, the rule or the name's length, the count or the size.
#[derive(Clone, Copy, Default)]
pub struct Answer {
    pub number: usize,
    pub small: usize,
    pub large: usize,
}

impl fmt::Display for Answer {
    fn fmt<W: fmt::Write>(&self, f: &mut fmt::Formatter<W>) -> fmt::Result {
        write!(f, "{} {} {}", self.number, self.small, self.large)
    }
}

// Format, check, create, truncate and delete tell nothing.
impl From<()> for Answer {
    ghost from_gives = { λ _ a. (a.number ≡ 0) × (a.small ≡ 0) × (a.large ≡ 0) };

    fn from(_told: ()) -> Answer {
        Answer {
            number: 0,
            small: 0,
            large: 0,
        }
    }
}

// Room, write and read tell a count, and size a size.
impl From<usize> for Answer {
    ghost from_gives = { λ n a. (a.number ≡ 0) × (a.small ≡ 0) × (a.large ≡ n) };

    fn from(large: usize) -> Answer {
        Answer {
            number: 0,
            small: 0,
            large,
        }
    }
}

impl From<Listed> for Answer {
    ghost from_gives = { λ told a. (a.number ≡ 0) × (a.small ≡ told.length) × (a.large ≡ told.size) };

    fn from(told: Listed) -> Answer {
        Answer {
            number: 0,
            small: told.length,
            large: told.size,
        }
    }
}

impl From<Refusal> for Answer {
    ghost from_gives = { λ why a. (a.number ≡ number_of why) × (a.small ≡ rule_of why) × (a.large ≡ 0) };

    fn from(why: Refusal) -> Answer {
        Answer {
            number: why.number(),
            small: why.rule(),
            large: 0,
        }
    }
}

// What was told, or the refusal.
impl<T: Into<Answer>> From<Result<T, Refusal>> for Answer {
    ghost from_gives = { λ answer a. MatchResult answer (λ told. T.converts told a) (λ why. (a.number ≡ number_of why) × (a.small ≡ rule_of why) × (a.large ≡ 0)) };

    fn from(answer: Result<T, Refusal>) -> Answer {
        match answer {
            Ok(told) => told.into(),
            Err(why) => why.into(),
        }
    }
}
