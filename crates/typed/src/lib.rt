// Subjects by value, with typed numbers, and the rows that they are written to and read from.
#![tactic(auto)]

ghost use Rattle.std.specs.Prelude.{◌≡◌, refl, ℕ, drop, get_or, Some, None};
ghost use Rattle.theory.specs.Lists.{spread};
ghost use Rattle.selector.specs.Rows.{tag_of, tag_number};
ghost use Rattle.selector.specs.Weighing.{is_set};
ghost use Rattle.typed.specs.Typed.{number_in, tag_from, no_classes, inputs_of, tagged, inputs_row, inputs_with, inputs_from};

use lent::words::{copy_into, word};
use std::array;

// The kinds of tag and id: numbers that are kept apart.
pub trait Tag: Copy {
    ghost value: { Self → ℕ };

    ghost made: { ℕ → Self };

    fn number(self) -> u32
        ensures { result ≡ value self };

    fn tagged(number: u32) -> Self
        ensures { result ≡ made number };

    // Each is made of its own number, and of no other.
    ghost kept: { (t : Self) → made (value t) ≡ t };

    ghost given: { (n : ℕ) → value (made n) ≡ n };
}

#[derive(Clone, Copy, Debug, PartialEq, Eq, PartialOrd, Ord, Hash)]
pub struct TypeTag(pub u32);

#[derive(Clone, Copy, Debug, PartialEq, Eq, PartialOrd, Ord, Hash)]
pub struct PartTag(pub u32);

#[derive(Clone, Copy, Debug, PartialEq, Eq, PartialOrd, Ord, Hash)]
pub struct ClassId(pub u32);

#[derive(Clone, Copy, Debug, PartialEq, Eq, PartialOrd, Ord, Hash)]
pub struct PseudoClassId(pub u32);

impl Tag for TypeTag {
    ghost value = { λ t. t.0 };

    ghost made = { λ n. record { 0 = n } };

    ghost kept = { λ t. refl };

    ghost given = { λ n. refl };

    fn number(self) -> u32 {
        self.0
    }

    fn tagged(number: u32) -> TypeTag {
        TypeTag(number)
    }
}

impl Tag for PartTag {
    ghost value = { λ t. t.0 };

    ghost made = { λ n. record { 0 = n } };

    ghost kept = { λ t. refl };

    ghost given = { λ n. refl };

    fn number(self) -> u32 {
        self.0
    }

    fn tagged(number: u32) -> PartTag {
        PartTag(number)
    }
}

impl Tag for ClassId {
    ghost value = { λ t. t.0 };

    ghost made = { λ n. record { 0 = n } };

    ghost kept = { λ t. refl };

    ghost given = { λ n. refl };

    fn number(self) -> u32 {
        self.0
    }

    fn tagged(number: u32) -> ClassId {
        ClassId(number)
    }
}

impl Tag for PseudoClassId {
    ghost value = { λ t. t.0 };

    ghost made = { λ n. record { 0 = n } };

    ghost kept = { λ t. refl };

    ghost given = { λ n. refl };

    fn number(self) -> u32 {
        self.0
    }

    fn tagged(number: u32) -> PseudoClassId {
        PseudoClassId(number)
    }
}

// 1 where a tag is set.
pub fn tag_flag<T: Tag>(tag: Option<T>) -> u32
    ensures { result ≡ is_set (number_in T.value tag) }
{
    match tag {
        None => 0,
        Some(_) => 1,
    }
}

// A tag's number, 0 where none is set.
pub fn tag_number<T: Tag>(tag: Option<T>) -> u32
    ensures { result ≡ tag_number (number_in T.value tag) }
{
    match tag {
        None => 0,
        Some(t) => t.number(),
    }
}

// The tag that a row's two words say.
pub fn tag_from_words<T: Tag>(flag: u32, number: u32) -> Option<T>
    ensures { result ≡ tag_from T.made (tag_of flag number) }
{
    if flag == 0 {
        return None;
    }
    Some(T::tagged(number))
}

// The words from `at` on, a row's number of them.
pub fn row_words<const N: usize>(words: &[u32], at: usize) -> [u32; N]
    ensures { result ≡ spread (λ (k : ℕ). get_or (drop at words.now) k 0) 0 N }
{
    let mut row = [0u32; N];
    copy_into(&mut row, 0, lent::held::part(words, at, words.len()));
    row
}

// The numbers of tags or ids.
pub fn numbers<T: Tag, const N: usize>(ids: [T; N]) -> [u32; N]
    ensures { result ≡ spread (λ (k : ℕ). T.value (get_or ids k (T.made 0))) 0 N }
{
    let mut words = [0u32; N];
    for (k, id) in ids.iter().enumerate() {
        words[k] = id.number();
    }
    words
}

// The ids with the numbers of the first words; a word past the end is 0.
pub fn ids_from<T: Tag, const N: usize>(words: &[u32]) -> [T; N]
    ensures { result ≡ spread (λ (k : ℕ). T.made (get_or words.now k 0)) 0 N }
{
    array::from_fn(|k| T::tagged(word(words, k)))
}

// A subject. Its ids are the first of each array, as many as the count says. Fixed memory: arrays with a count.
#[derive(Clone, Copy)]
pub struct SelectorInputs {
    pub type_tag: Option<TypeTag>,
    pub part_tag: Option<PartTag>,
    pub classes: [ClassId; 16],
    pub class_count: u32,
    pub pseudos: [PseudoClassId; 16],
    pub pseudo_count: u32,
}

impl SelectorInputs {
    // The subject without tags or identifiers.
    pub const EMPTY: SelectorInputs = SelectorInputs {
        type_tag: None,
        part_tag: None,
        classes: [ClassId(0); 16],
        class_count: 0,
        pseudos: [PseudoClassId(0); 16],
        pseudo_count: 0,
    };

    // The same as a call: a contract can't name the constant.
    pub fn empty() -> Self
        ensures { result ≡ tagged None None }
    {
        Self::EMPTY
    }

    pub fn typed(type_tag: TypeTag) -> Self
        ensures { result ≡ tagged (Some type_tag) None }
    {
        Self {
            type_tag: Some(type_tag),
            ..Self::EMPTY
        }
    }

    pub fn part(part_tag: PartTag) -> Self
        ensures { result ≡ tagged None (Some part_tag) }
    {
        Self {
            part_tag: Some(part_tag),
            ..Self::EMPTY
        }
    }

    pub fn typed_part(type_tag: TypeTag, part_tag: PartTag) -> Self
        ensures { result ≡ tagged (Some type_tag) (Some part_tag) }
    {
        Self {
            type_tag: Some(type_tag),
            part_tag: Some(part_tag),
            ..Self::EMPTY
        }
    }

    pub fn new(
        type_tag: Option<TypeTag>,
        classes: [ClassId; 16],
        class_count: u32,
        pseudos: [PseudoClassId; 16],
        pseudo_count: u32,
    ) -> Self
        ensures { result ≡ inputs_of type_tag None classes class_count pseudos pseudo_count }
    {
        Self::with_part(type_tag, None, classes, class_count, pseudos, pseudo_count)
    }

    pub fn typed_with_pseudos(
        type_tag: TypeTag,
        pseudos: [PseudoClassId; 16],
        pseudo_count: u32,
    ) -> Self
        ensures { result ≡ inputs_of (Some type_tag) None (no_classes 16) 0 pseudos pseudo_count }
    {
        Self {
            type_tag: Some(type_tag),
            pseudos,
            pseudo_count,
            ..Self::EMPTY
        }
    }

    pub fn with_part(
        type_tag: Option<TypeTag>,
        part_tag: Option<PartTag>,
        classes: [ClassId; 16],
        class_count: u32,
        pseudos: [PseudoClassId; 16],
        pseudo_count: u32,
    ) -> Self
        ensures { result ≡ inputs_of type_tag part_tag classes class_count pseudos pseudo_count }
    {
        Self {
            type_tag,
            part_tag,
            classes,
            class_count,
            pseudos,
            pseudo_count,
        }
    }

    // The subject as a row.
    pub fn row(self) -> [u32; 38]
        ensures { result ≡ inputs_row self }
    {
        let t = self.type_tag;
        let p = self.part_tag;
        let mut row = [0u32; 38];
        row[0] = tag_flag(t);
        row[1] = tag_number(t);
        row[2] = tag_flag(p);
        row[3] = tag_number(p);
        row[4] = self.class_count;
        row[5] = self.pseudo_count;
        copy_into(&mut row, 6, &numbers(self.classes));
        copy_into(&mut row, 22, &numbers(self.pseudos));
        row
    }

    // The subject whose row begins at word `at`; a word past the end is 0.
    pub fn from_row(words: &[u32], at: usize) -> Self
        ensures { result ≡ inputs_from (drop at words.now) }
    {
        let w: [u32; 38] = row_words(words, at);
        Self::from_words(tag_from_words(w[0], w[1]), tag_from_words(w[2], w[3]), w)
    }

    // The same after the first four words.
    pub fn from_words(type_tag: Option<TypeTag>, part_tag: Option<PartTag>, w: [u32; 38]) -> Self
        ensures { result ≡ inputs_with type_tag part_tag w }
    {
        Self {
            type_tag,
            part_tag,
            classes: ids_from(&w[6..]),
            class_count: w[4],
            pseudos: ids_from(&w[22..]),
            pseudo_count: w[5],
        }
    }
}
