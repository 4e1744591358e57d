ghost use Rattle.std.specs.Prelude.{◌≡◌, ℕ, List};
ghost use Rattle.sv_base.specs.declared.ids.FileId.{FileId};
ghost use Rattle.c_lexer.specs.Cuts.{Outcome, IsLexed};

/// A file has a list of tokens or a first fault, only one, and never both.
pub fn tokens_are_unique()
    ensures one { (bytes : List ℕ) (name : FileId) (room : ℕ) (names : List (List ℕ)) → (outcome : Outcome) × IsLexed bytes name room names outcome }
    ensures unique { (bytes : List ℕ) (name : FileId) (room : ℕ) (names : List (List ℕ)) (one other : Outcome) → IsLexed bytes name room names one → IsLexed bytes name room names other → one ≡ other }
{}
