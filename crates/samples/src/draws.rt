// What a card draws: numbers from the dice (G1), and values by its turn. Card `i` of a clause takes value `i` of a list, and
// begins again where the list ends (G9).
ghost use Rattle.std.specs.Prelude.{◌≡◌, ◌+◌, ◌%◌, ◌<◌, ◌≤◌, ◌↔◌, length, slice_get, Some, IsSome, IfSome, Contains, IsPermutation};

use dice::Dice;

#[derive(Drop)]
pub struct Draws {
    dice: Dice,
    pub turn: usize,
}

// `a + b`: a number from `a` on, one of `b`.
#[derive(Clone, Copy)]
pub struct Span(pub u16, pub u16);

// A value of a list. What is drawn is drawn only where it is taken.
#[derive(Clone, Copy)]
pub enum Value {
    Is(u64),
    // A number from the first on, one of the second.
    Drawn(u32, u16),
}

impl Draws {
    // The draws of the card that has this turn, from a state that names it.
    pub fn new(state: usize, turn: usize) -> Draws
        ensures { result.turn ≡ turn }
    {
        Draws {
            dice: Dice::started(state),
            turn,
        }
    }

    // A number below `n`; 0 where `n` is 0.
    pub fn below(&mut self, n: usize) -> u32
        ensures bound { result < 2147483647 }
        ensures within { 0 < n → result < n }
    {
        self.dice.below(n) as u32
    }

    // A number of a span.
    pub fn one_in(&mut self, span: Span) -> u32
        ensures least { span.0 ≤ result }
        ensures within { 0 < span.1 → result < span.0 + span.1 }
    {
        let Span(least, count) = span;
        u32::from(least) + self.below(usize::from(count))
    }

    // One of the items.
    pub fn one_of<T: Copy>(&mut self, items: &[T]) -> Option<T>
        ensures some { IsSome result ↔ (0 < length items.now) }
        ensures member { IfSome result (λ x. Contains items.now x) }
    {
        let i = self.below(items.len());
        items.get(i as usize).copied()
    }

    // The number of a span whose turn it is.
    pub fn turn_in(&self, span: Span) -> Option<usize>
        ensures { IfSome result (λ n. n ≡ span.0 + self.now.turn % span.1) }
    {
        let Span(least, count) = span;
        let i = self.turn.checked_rem(usize::from(count))?;
        i.checked_add(usize::from(least))
    }

    // The item whose turn it is.
    pub fn turn_of<T: Copy>(&self, items: &[T]) -> Option<T>
        ensures some { IsSome result ↔ (0 < length items.now) }
        ensures item { IfSome result (λ x. slice_get items.now (self.now.turn % length items.now) ≡ Some x) }
        ensures member { IfSome result (λ x. Contains items.now x) }
    {
        let i = self.turn.checked_rem(items.len())?;
        items.get(i).copied()
    }

    // The value whose turn it is.
    pub fn value_of(&mut self, values: &[Value]) -> Option<u64> {
        self.value_at(self.turn, values)
    }

    // The value whose turn it is at another turn than the card's.
    pub fn value_at(&mut self, turn: usize, values: &[Value]) -> Option<u64> {
        match *values.get(turn.checked_rem(values.len())?)? {
            Value::Is(v) => Some(v),
            Value::Drawn(least, count) => {
                Some(u64::from(least) + u64::from(self.below(usize::from(count))))
            }
        }
    }

    // The items in another order.
    pub fn shuffle<T>(&mut self, items: &mut [T])
        ensures { IsPermutation items.old items.new }
    {
        self.dice.shuffle(items);
    }

    // Noise in all bytes, the last of them first.
    pub fn noise(&mut self, bytes: &mut [u8])
        ensures { length bytes.new ≡ length bytes.old }
    {
        self.dice.noise(bytes);
    }
}
