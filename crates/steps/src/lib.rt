// Steps by value, with typed numbers: the rows that they are written to and read from, whether a subject matches a step, and a step's weight.
#![tactic(auto)]

ghost use Rattle.std.specs.Prelude.{◌≡◌, drop, Some, None};
ghost use Rattle.selector.specs.Matching.{matching_told};
ghost use Rattle.selector.specs.Weighing.{weighing_told};
ghost use Rattle.steps.specs.Steps.{asking, asking_type, asking_part, asking_class, asking_pseudo, added, raised, step_row, step_with, step_from, step_matching, step_weighing};

use lent::Refusal;
use lent::words::{copy_into, wide};
use selector::Specificity;
use selector::held::{matches_row, row_ascends, row_fits};
use typed::{
    ClassId, PartTag, PseudoClassId, SelectorInputs, TypeTag, ids_from, numbers, row_words,
    tag_flag, tag_from_words, tag_number,
};
use weight::held::step_specificity;

// A step of a selector. What it requires are the sets of the ids given, the first of each array; a count over 8 is refused where the step is used. Fixed memory: arrays with a count.
#[derive(Clone, Copy)]
pub struct SelectorStep {
    pub type_tag: Option<TypeTag>,
    pub part_tag: Option<PartTag>,
    pub required_classes: [ClassId; 8],
    pub class_count: u32,
    pub required_pseudos: [PseudoClassId; 8],
    pub pseudo_count: u32,
}

// One id more after n; the new count. From 8 on only the count tells it.
fn add_id<T: Copy>(ids: &mut [T; 8], n: u32, id: T) -> u32
    ensures kept { ids.new ≡ added ids.old n id }
    ensures count { result ≡ raised n }
{
    if 8 <= n {
        return 9;
    }
    ids[wide(n)] = id;
    n + 1
}

impl SelectorStep {
    const ANY: SelectorStep = SelectorStep {
        type_tag: None,
        part_tag: None,
        required_classes: [ClassId(0); 8],
        class_count: 0,
        required_pseudos: [PseudoClassId(0); 8],
        pseudo_count: 0,
    };

    // The step that every subject matches: the Rust's `default`.
    pub fn any() -> Self
        ensures { result ≡ asking None None }
    {
        Self::ANY
    }

    pub fn type_tag(type_tag: TypeTag) -> Self
        ensures { result ≡ asking (Some type_tag) None }
    {
        Self {
            type_tag: Some(type_tag),
            ..Self::ANY
        }
    }

    pub fn part_tag(part_tag: PartTag) -> Self
        ensures { result ≡ asking None (Some part_tag) }
    {
        Self {
            part_tag: Some(part_tag),
            ..Self::ANY
        }
    }

    pub fn class(class_id: ClassId) -> Self
        ensures { result ≡ asking_class (asking None None) class_id }
    {
        Self::ANY.with_class(class_id)
    }

    pub fn pseudo(pseudo_id: PseudoClassId) -> Self
        ensures { result ≡ asking_pseudo (asking None None) pseudo_id }
    {
        Self::ANY.with_pseudo(pseudo_id)
    }

    pub fn with_type_tag(self, type_tag: TypeTag) -> Self
        ensures { result ≡ asking_type self type_tag }
    {
        Self {
            type_tag: Some(type_tag),
            ..self
        }
    }

    pub fn with_part_tag(self, part_tag: PartTag) -> Self
        ensures { result ≡ asking_part self part_tag }
    {
        Self {
            part_tag: Some(part_tag),
            ..self
        }
    }

    // One class more.
    pub fn with_class(mut self, class_id: ClassId) -> Self
        ensures { result ≡ asking_class self class_id }
    {
        self.class_count = add_id(&mut self.required_classes, self.class_count, class_id);
        self
    }

    pub fn with_pseudo(mut self, pseudo_id: PseudoClassId) -> Self
        ensures { result ≡ asking_pseudo self pseudo_id }
    {
        self.pseudo_count = add_id(&mut self.required_pseudos, self.pseudo_count, pseudo_id);
        self
    }

    // The step as a row.
    pub fn row(self) -> [u32; 22]
        ensures { result ≡ step_row self }
    {
        let t = self.type_tag;
        let p = self.part_tag;
        let mut row = [0u32; 22];
        row[0] = tag_flag(t);
        row[1] = tag_number(t);
        row[2] = tag_flag(p);
        row[3] = tag_number(p);
        row[4] = self.class_count;
        row[5] = self.pseudo_count;
        copy_into(&mut row, 6, &numbers(self.required_classes));
        copy_into(&mut row, 14, &numbers(self.required_pseudos));
        row
    }

    // The step whose row begins at word `at`; a word past the end is 0.
    pub fn from_row(words: &[u32], at: usize) -> Self
        ensures { result ≡ step_from (drop at words.now) }
    {
        let w: [u32; 22] = row_words(words, at);
        Self::from_words(tag_from_words(w[0], w[1]), tag_from_words(w[2], w[3]), w)
    }

    fn from_words(type_tag: Option<TypeTag>, part_tag: Option<PartTag>, w: [u32; 22]) -> Self
        ensures { result ≡ step_with type_tag part_tag w }
    {
        Self {
            type_tag,
            part_tag,
            required_classes: ids_from(&w[6..]),
            class_count: w[4],
            required_pseudos: ids_from(&w[14..]),
            pseudo_count: w[5],
        }
    }

    // Whether the subject matches the step.
    pub fn matches(self, inputs: SelectorInputs) -> Result<bool, Refusal>
        ensures { matching_told result ≡ step_matching self inputs }
    {
        let s = self.row();
        if !row_fits(&s, 0, 8) {
            return Err(Refusal::OverSize);
        }
        let x = inputs.row();
        if !row_fits(&x, 0, 16) {
            return Err(Refusal::OverSize);
        }
        if !row_ascends(&x, 0) {
            return Err(Refusal::NotAscending);
        }
        Ok(matches_row(&s, 0, &x, 0))
    }

    // Ranking 0: pseudos, classes, parts, types.
    pub fn specificity(self) -> Result<Specificity, Refusal>
        ensures { weighing_told result ≡ step_weighing 0 self }
    {
        let s = self.row();
        if !row_fits(&s, 0, 8) {
            return Err(Refusal::OverSize);
        }
        Ok(step_specificity(&s, 0))
    }

    // Ranking 1: Level 3's counts, classes and pseudos, then types and parts.
    pub fn level3_specificity(self) -> Result<Specificity, Refusal>
        ensures { weighing_told result ≡ step_weighing 1 self }
    {
        let s = self.row();
        if !row_fits(&s, 0, 8) {
            return Err(Refusal::OverSize);
        }
        let w = step_specificity(&s, 0);
        Ok(Specificity(w.1 + w.0, w.3 + w.2, 0, 0))
    }
}
