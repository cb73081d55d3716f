// What a call answers: a Result, whose error says why it refused. specs/Answers.antt gives each case its numbers.
ghost use Rattle.std.specs.Prelude.{◌≡◌};
ghost use Rattle.layout.specs.Answers.{rule_number, number_of, rule_of};
ghost use Rattle.layout.specs.declared.answers.Refusal.TheVariants as no;

// The rules of a sound card, by what they speak of; rules 1 to 8, in this order.
#[derive(Clone, Copy, PartialEq, Eq, Debug)]
pub enum Rule {
    Length,
    FixedValues,
    Blocks,
    Table,
    Descriptors,
    Pyramids,
    FreeChain,
    Root,
}

impl Rule {
    // Its number.
    pub fn number(self) -> usize
        ensures { result ≡ rule_number self }
    {
        match self {
            Rule::Length => 1,
            Rule::FixedValues => 2,
            Rule::Blocks => 3,
            Rule::Table => 4,
            Rule::Descriptors => 5,
            Rule::Pyramids => 6,
            Rule::FreeChain => 7,
            Rule::Root => 8,
        }
    }
}

// Why a call refused.
#[derive(Clone, Copy, PartialEq, Eq, Debug)]
pub enum Refusal {
    Damaged(Rule),
    BadName,
    NotKnown,
    AlreadyKnown,
    PastTheEnd,
    StreamsFull,
    NoRoom,
    ShortTray,
    BadShape,
}

impl Refusal {
    // Its number.
    pub fn number(self) -> usize
        ensures { result ≡ number_of self }
    {
        match self {
            Refusal::Damaged(_) => 1,
            Refusal::BadName => 2,
            Refusal::NotKnown => 3,
            Refusal::AlreadyKnown => 4,
            Refusal::PastTheEnd => 5,
            Refusal::StreamsFull => 6,
            Refusal::NoRoom => 7,
            Refusal::ShortTray => 8,
            Refusal::BadShape => 9,
        }
    }

    // The number of the rule that a damaged card breaks; 0 for any other refusal.
    pub fn rule(self) -> usize
        ensures { result ≡ rule_of self }
    {
        match self {
            Refusal::Damaged(rule) => rule.number(),
            _ => 0,
        }
    }
}

// A card that breaks a rule is damaged.
impl From<Rule> for Refusal {
    ghost from_gives = { λ rule why. why ≡ no.Damaged rule };

    fn from(rule: Rule) -> Refusal {
        Refusal::Damaged(rule)
    }
}

// What list tells: a name's length and its stream's size. The other calls tell nothing, or one number.
#[derive(Clone, Copy, PartialEq, Eq, Debug)]
pub struct Listed {
    pub length: usize,
    pub size: usize,
}
