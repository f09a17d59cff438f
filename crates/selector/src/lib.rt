// Subjects and selectors in lent rows, and what is answered of them: selector.rs.
#![tactic(auto)]

ghost use Rattle.std.specs.Prelude.{◌≡◌};
ghost use Rattle.selector.specs.Rows.{combinator_of};

pub mod held;

// Why a selector does not fit a path.
#[derive(Clone, Copy, Debug, PartialEq, Eq)]
pub enum SelectorMismatch {
    EmptySelectorWithNonEmptyPath,
    MissingSubject {
        step_index: usize,
        path_index: usize,
    },
    StepMismatch {
        step_index: usize,
        path_index: usize,
    },
    TrailingSubjects {
        step_count: usize,
        path_index: usize,
    },
    MissingDescendant {
        step_index: usize,
        after_path_index: usize,
    },
}

// Pseudos, classes, parts, types in ranking 0; in ranking 1 Level 3's two counts, then zeros. Compared in that order.
#[derive(Clone, Copy, Debug, PartialEq, Eq, PartialOrd, Ord)]
pub struct Specificity(pub u32, pub u32, pub u32, pub u32);

// What stands between two steps: the next place, or any later one.
#[derive(Clone, Copy, Debug, PartialEq, Eq)]
pub enum SelectorCombinator {
    Child,
    Descendant,
}

// 0 child, any other number descendant.
impl From<u32> for SelectorCombinator {
    ghost from_gives = { λ code combinator. combinator ≡ combinator_of code };

    fn from(code: u32) -> SelectorCombinator {
        if code == 0 {
            return SelectorCombinator::Child;
        }
        SelectorCombinator::Descendant
    }
}
