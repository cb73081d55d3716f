// What a clause of a rule breaks: which card it takes, and what it changes in the plan and on the card.
use samples::card::Card;
use samples::draws::{Draws, Span};
use samples::kinds::Kind;
use samples::plan::Plan;

// None stands for a part that the card doesn't have.
pub trait Damage {
    // The kind of the card: rich, unless the clause says otherwise.
    fn kind(&self, _draws: &Draws) -> Option<Kind> {
        Some(Kind::Rich)
    }

    // s: by the kind, unless the clause says otherwise.
    fn shifts(&self, kind: Kind) -> Span {
        kind.shifts()
    }

    // What is changed in the plan.
    fn change(&self, _plan: &mut Plan) -> Option<()> {
        Some(())
    }

    // What is changed on the card.
    fn damage(&self, card: &mut Card) -> Option<()>;
}
