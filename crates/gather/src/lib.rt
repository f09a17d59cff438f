// What records 2 to 8 are gathered into: the lists that a push takes.
#![tactic(auto)]

ghost use Rattle.std.specs.Prelude.{◌≡◌};
ghost use Rattle.gather.specs.Memory.{newly};

// What is open: nothing, or a direct style or a group of rules with its origin. Nothing is one of three: an Option around two is no plainer.
#[derive(Clone, Copy, Debug, PartialEq, Eq)]
pub enum OpenKind {
    Nothing,
    Direct(u32),
    Rules(u32),
}

// What is open, and how much of each lent list is filled.
#[derive(Clone, Copy, Debug, PartialEq, Eq)]
pub struct Filled {
    pub opening: OpenKind,
    pub rules: usize,
    pub steps: usize,
    pub combinators: usize,
    pub entries: usize,
    // that the steps require, as held
    pub ids: usize,
}

impl Filled {
    // What a 2, 3 or 8 opens: no list is filled yet.
    pub fn opened(opening: OpenKind) -> Filled
        ensures { result ≡ newly opening }
    {
        Filled {
            opening,
            rules: 0,
            steps: 0,
            combinators: 0,
            entries: 0,
            ids: 0,
        }
    }
}
