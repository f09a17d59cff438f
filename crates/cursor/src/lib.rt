// `RuleCursor` of matcher.rs: a place in a list of matched rules, which yields their numbers one after the other.
#![tactic(auto)]

ghost use Rattle.std.specs.Prelude.{◌≡◌, ⊤};
ghost use Rattle.std.specs.Iterator.{YieldsFirst, MakesProgress, item_count};
ghost use Rattle.cursor.specs.Yielding.{next_told, next_of, index_after, rules_left};

#[derive(Clone, Copy, Debug)]
pub struct RuleCursor<'a> {
    pub rules: &'a [u32],
    pub index: usize,
}

// A rule yielded, and the index afterwards.
#[derive(Clone, Copy, Debug, PartialEq, Eq)]
pub struct Yielded {
    pub rule: Option<u32>,
    pub index: usize,
}

// What stands at an index.
pub fn rule_at(rules: &[u32], index: usize) -> Option<u32>
    ensures { next_told result ≡ next_of rules.now index }
{
    rules.get(index).copied()
}

// The index after that: one on, but not past the end.
pub fn index_after(rules: &[u32], index: usize) -> usize
    ensures { result ≡ index_after rules.now index }
{
    if index < rules.len() {
        return index + 1;
    }
    index
}

impl<'a> RuleCursor<'a> {
    // A cursor at the first rule.
    pub fn new(rules: &'a [u32]) -> RuleCursor<'a>
        ensures { (result.rules ≡ rules.entry) × (result.index ≡ 0) }
    {
        RuleCursor { rules, index: 0 }
    }

    // A cursor at any index.
    pub fn moved(self, index: usize) -> RuleCursor<'a>
        ensures { (result.rules ≡ self.entry.rules) × (result.index ≡ index) }
    {
        RuleCursor {
            rules: self.rules,
            index,
        }
    }

    // What it yields next, and the index afterwards.
    pub fn step(mut self) -> Yielded
        ensures { (next_told result.rule ≡ next_of self.entry.rules.now self.entry.index) × (result.index ≡ index_after self.entry.rules.now self.entry.index) }
    {
        let rule = self.next();
        Yielded {
            rule,
            index: self.index,
        }
    }
}

// Yields the next rule number, and moves on.
impl<'a> Iterator for RuleCursor<'a> {
    type Item = u32;

    ghost next_gives = { YieldsFirst rules_left };

    ghost remaining = { item_count rules_left };

    fn next(&mut self) -> Option<u32>
        ensures told { (next_told result ≡ next_of self.old.rules.now self.old.index) × (self.new.rules ≡ self.old.rules) × (self.new.index ≡ index_after self.old.rules.now self.old.index) }
        ensures steps { YieldsFirst rules_left self.old result self.new }
        ensures goes { MakesProgress (λ _. ⊤) (item_count rules_left) self.old result self.new }
    {
        let rule = rule_at(self.rules, self.index);
        self.index = index_after(self.rules, self.index);
        rule
    }
}
