ghost use Rattle.std.specs.Prelude.{◌≡◌, ◌↔◌, ℕ, List, Some};
ghost use Rattle.first_form.specs.Pieces.{Piece};
ghost use Rattle.first_form.specs.Cuts.{Cuts};
ghost use Rattle.first_form.specs.Form.{IsForm};
ghost use Rattle.first_form.specs.computed.Reading.{reading};
ghost use Rattle.first_form.specs.declared.program.Program.{Program as Checked};

/// A text has at most one list of tokens.
pub fn tokens_are_unique()
    ensures { (bytes : List ℕ) (some others : List Piece) → Cuts 1 1 bytes some → Cuts 1 1 bytes others → some ≡ others }
{}

/// What the code reads is of the form, and nothing of the form is refused.
pub fn reading_is_the_form()
    ensures { (bytes : List ℕ) (p : Checked) → (reading bytes ≡ Some p) ↔ IsForm bytes p }
{}

/// A file is at most one program.
pub fn form_is_unique()
    ensures { (bytes : List ℕ) (some other : Checked) → IsForm bytes some → IsForm bytes other → some ≡ other }
{}
