// Subjects whose ids are sorted and made unique, by value.
#![tactic(auto)]

ghost use Rattle.std.specs.Prelude.{◌≡◌, ◌≤◌, get_or, None};
ghost use Rattle.theory.specs.Lists.{sort};
ghost use Rattle.selector.specs.Rows.{words_from};
ghost use Rattle.owned.specs.Owned.{ids_row, Owned};

use lent::Refusal;
use lent::words::copy_into;
use selector::held::ids;
use typed::{ClassId, PartTag, PseudoClassId, SelectorInputs, TypeTag};

// A subject whose ids were sorted and made unique.
#[derive(Clone, Copy)]
pub struct SelectorInputsOwned {
    pub inputs: SelectorInputs,
}

// A subject row without its tags, its ids sorted and made unique, 0 past them.
fn sorted_row(given: [u32; 38]) -> [u32; 38]
    requires { (get_or given 4 0 ≤ 16) × (get_or given 5 0 ≤ 16) }
    ensures { result ≡ ids_row (sort (words_from given 6 (get_or given 4 0))) (sort (words_from given 22 (get_or given 5 0))) }
{
    let mut classes = [0u32; 16];
    let mut pseudos = [0u32; 16];
    let class_count = idset::held::from_ids(ids(&given, 6, 4), &mut classes);
    let pseudo_count = idset::held::from_ids(ids(&given, 22, 5), &mut pseudos);
    let mut row = [0u32; 38];
    row[4] = class_count as u32;
    row[5] = pseudo_count as u32;
    copy_into(&mut row, 6, &classes);
    copy_into(&mut row, 22, &pseudos);
    row
}

impl SelectorInputsOwned {
    // Without a part.
    pub fn new(
        type_tag: Option<TypeTag>,
        classes: [ClassId; 16],
        class_count: u32,
        pseudos: [PseudoClassId; 16],
        pseudo_count: u32,
    ) -> Result<SelectorInputsOwned, Refusal>
        ensures { Owned type_tag None classes class_count pseudos pseudo_count result }
    {
        Self::with_part(type_tag, None, classes, class_count, pseudos, pseudo_count)
    }

    // The ids in any order and repeated.
    pub fn with_part(
        type_tag: Option<TypeTag>,
        part_tag: Option<PartTag>,
        classes: [ClassId; 16],
        class_count: u32,
        pseudos: [PseudoClassId; 16],
        pseudo_count: u32,
    ) -> Result<SelectorInputsOwned, Refusal>
        ensures { Owned type_tag part_tag classes class_count pseudos pseudo_count result }
    {
        if 16 < class_count {
            return Err(Refusal::OverSize);
        }
        if 16 < pseudo_count {
            return Err(Refusal::OverSize);
        }
        let given = SelectorInputs::with_part(
            type_tag,
            part_tag,
            classes,
            class_count,
            pseudos,
            pseudo_count,
        );
        let inputs = SelectorInputs::from_words(type_tag, part_tag, sorted_row(given.row()));
        Ok(SelectorInputsOwned { inputs })
    }
}
