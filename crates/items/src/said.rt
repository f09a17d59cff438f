// The numbers of a line by value, so that an answer can be taken apart with no buffer at hand.
ghost use Rattle.std.specs.Prelude.{◌≡◌, [], ◌∷◌, take};
ghost use Rattle.lent.specs.Refusals.{number_of, one_if};
ghost use Rattle.items.specs.Said.{SaidLine, answer_said, option_said, IsSaid};

use crate::say;
use lent::Refusal;
use lent::held::part;

// The first `count` of four.
#[derive(Clone, Copy)]
pub struct Said {
    pub count: usize,
    pub list: [u32; 4],
}

pub fn one(a: u32) -> Said
    ensures { (result.count ≡ 1) × (result.list ≡ a ∷ 0 ∷ 0 ∷ 0 ∷ []) }
{
    Said {
        count: 1,
        list: [a, 0, 0, 0],
    }
}

pub fn two(a: u32, b: u32) -> Said
    ensures { (result.count ≡ 2) × (result.list ≡ a ∷ b ∷ 0 ∷ 0 ∷ []) }
{
    Said {
        count: 2,
        list: [a, b, 0, 0],
    }
}

pub fn three(a: u32, b: u32, c: u32) -> Said
    ensures { (result.count ≡ 3) × (result.list ≡ a ∷ b ∷ c ∷ 0 ∷ []) }
{
    Said {
        count: 3,
        list: [a, b, c, 0],
    }
}

pub fn four(a: u32, b: u32, c: u32, d: u32) -> Said
    ensures { (result.count ≡ 4) × (result.list ≡ a ∷ b ∷ c ∷ d ∷ []) }
{
    Said {
        count: 4,
        list: [a, b, c, d],
    }
}

pub fn refused(refusal: Refusal) -> Said
    ensures { (result.count ≡ 1) × (result.list ≡ number_of refusal ∷ 0 ∷ 0 ∷ 0 ∷ []) }
{
    one(refusal.number())
}

pub fn line(out: &mut [u8], at: usize, tag: &[u8], said: Said) -> usize
    ensures { SaidLine tag.now (take said.count said.list) out.old at result out.new }
{
    let list = said.list;
    say::line(out, at, tag, part(&list, 0, said.count))
}

// ---- an answer: 0 and what it gives, or the refusal's number

impl From<Result<(), Refusal>> for Said {
    ghost from_gives = { λ answer said. IsSaid (answer_said (λ _. []) answer) said.count said.list };

    fn from(answer: Result<(), Refusal>) -> Said {
        match answer {
            Ok(()) => one(0),
            Err(refusal) => refused(refusal),
        }
    }
}

impl From<Result<bool, Refusal>> for Said {
    ghost from_gives = { λ answer said. IsSaid (answer_said (λ yes. one_if yes ∷ []) answer) said.count said.list };

    fn from(answer: Result<bool, Refusal>) -> Said {
        match answer {
            Ok(yes) => two(0, u32::from(yes)),
            Err(refusal) => refused(refusal),
        }
    }
}

impl From<Result<u32, Refusal>> for Said {
    ghost from_gives = { λ answer said. IsSaid (answer_said (λ n. n ∷ []) answer) said.count said.list };

    fn from(answer: Result<u32, Refusal>) -> Said {
        match answer {
            Ok(n) => two(0, n),
            Err(refusal) => refused(refusal),
        }
    }
}

impl From<Result<Option<u32>, Refusal>> for Said {
    ghost from_gives = { λ answer said. IsSaid (answer_said option_said answer) said.count said.list };

    fn from(answer: Result<Option<u32>, Refusal>) -> Said {
        match answer {
            Ok(Some(n)) => two(0, n),
            Ok(None) => one(0),
            Err(refusal) => refused(refusal),
        }
    }
}

impl From<Result<(u32, u32), Refusal>> for Said {
    ghost from_gives = { λ answer said. IsSaid (answer_said (λ p. p.0 ∷ p.1 ∷ []) answer) said.count said.list };

    fn from(answer: Result<(u32, u32), Refusal>) -> Said {
        match answer {
            Ok((a, b)) => three(0, a, b),
            Err(refusal) => refused(refusal),
        }
    }
}
