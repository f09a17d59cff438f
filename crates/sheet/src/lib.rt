// The lent sheet: direct styles and rules in one slice of words, and the test of its shape.
#![tactic(auto)]

ghost use Rattle.std.specs.Prelude.{◌≡◌, true, is_some, IfSome};
ghost use Rattle.sheet.specs.Shape.{sheet_shape};

pub mod layout;
pub mod shape;

// Words that are a sheet: 01's row 11 doesn't hold of them.
#[derive(Clone, Copy)]
pub struct Sheet<'a> {
    pub words: &'a [u32],
    pub ghost in_shape: { sheet_shape words.now ≡ true },
}

impl<'a> Sheet<'a> {
    // The words as a sheet, where they are one.
    pub fn of(words: &'a [u32]) -> Option<Sheet<'a>>
        ensures there { is_some result ≡ sheet_shape words.now }
        ensures same { IfSome result (λ s. s.words ≡ words.entry) }
    {
        if !shape::is_sheet(words) {
            return None;
        }
        Some(Sheet { words })
    }
}
