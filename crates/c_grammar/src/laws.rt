ghost use Rattle.std.specs.Prelude.{◌≡◌, Bool, List, [], ◌∷◌, ◌++◌, true};
ghost use Rattle.std.specs.List.{list_all};
ghost use Rattle.c_syntax.specs.Marks.{marks};
ghost use Rattle.c_tree.specs.declared.lexeme.Lexeme.{Lexeme};
ghost use Rattle.c_tree.specs.declared.tree.Item.{Item as External};
ghost use Rattle.c_grammar.specs.Derives.{Derives, Begins, Reaches};
ghost use Rattle.c_grammar.specs.Files.{IsFile, IsFirstBad, BeginsFile};
ghost use Rattle.c_grammar.specs.Items.{Sym, In, Out, Item, nt, Shape, shapes};
ghost use Rattle.c_grammar.specs.Limits.{Passes};
ghost use Rattle.c_grammar.specs.Marks as marks_here;
ghost use Rattle.c_grammar.specs.Numbers.{has_mark, has_keyword};
ghost use Rattle.c_grammar.specs.State.{State};
ghost use Rattle.c_grammar.specs.Words as words_here;

/// What derives tokens begins with them, and with each of their fronts.
pub fn fronts_begin()
    ensures whole { (items : List Item) (s : State) (tokens : List Lexeme) (end : State) → Derives items s tokens end → Begins (shapes items) s tokens }
    ensures front { (items : List Item) (s : State) (front back : List Lexeme) (end : State) → Derives items s (front ++ back) end → Begins (shapes items) s front }
{}

/// What begins with tokens is reached by a run over them, and the other way round.
pub fn beginnings_are_runs()
    ensures run { (stack : List Shape) (s : State) (tokens : List Lexeme) → Begins stack s tokens → (left : List Shape) × (end : State) × Reaches stack s tokens left end }
    ensures beginning { (stack left : List Shape) (s end : State) (tokens : List Lexeme) → Reaches stack s tokens left end → Begins stack s tokens }
{}

/// Runs go on from where they came to.
pub fn runs_are_joined()
    ensures joined { (stack middle left : List Shape) (s t end : State) (before behind : List Lexeme) → Reaches stack s before middle t → Reaches middle t behind left end → Reaches stack s (before ++ behind) left end }
    ensures front { (stack : List Shape) (s : State) (front back : List Lexeme) → Begins stack s (front ++ back) → Begins stack s front }
{}

/// A file begins with each of its fronts, and tokens with a first bad one among them are no file.
pub fn bad_tokens_are_no_file()
    ensures front { (tokens front back : List Lexeme) (items : List External) → IsFile tokens items → tokens ≡ front ++ back → BeginsFile front }
    ensures bad { (tokens before : List Lexeme) (t : Lexeme) (behind : List Lexeme) (items : List External) → IsFirstBad tokens before t behind → IsFile tokens items → ⊥ }
{}

/// A list has no two first bad tokens.
pub fn first_bad_is_unique()
    ensures before { (tokens before behind others rest : List Lexeme) (t u : Lexeme) → IsFirstBad tokens before t behind → IsFirstBad tokens others u rest → before ≡ others }
    ensures token { (tokens before behind others rest : List Lexeme) (t u : Lexeme) → IsFirstBad tokens before t behind → IsFirstBad tokens others u rest → t ≡ u }
{}

/// In a list, a limit is passed at one token at most.
pub fn limits_are_passed_once()
    ensures before { (passed : State → Bool) (before behind others rest : List Lexeme) (t u : Lexeme) → Passes passed before t behind → Passes passed others u rest → before ++ t ∷ behind ≡ others ++ u ∷ rest → before ≡ others }
    ensures token { (passed : State → Bool) (before behind others rest : List Lexeme) (t u : Lexeme) → Passes passed before t behind → Passes passed others u rest → before ++ t ∷ behind ≡ others ++ u ∷ rest → t ≡ u }
{}

/// The numbers that the grammar has for keywords and punctuators are those of the tables.
pub fn numbers_are_those_of_the_tables()
    ensures punctuators { list_all (has_mark marks) marks_here.spellings ≡ true }
    ensures keywords { list_all has_keyword words_here.spellings ≡ true }
{}

/// A list of tokens has at most one tree as a file, and as what any nonterminal makes of what stands to its left. What a nonterminal
/// leaves of the state is determined as well.
pub fn trees_are_unique()
    ensures one { (tokens : List Lexeme) (xs ys : List External) → IsFile tokens xs → IsFile tokens ys → xs ≡ ys }
    ensures tree { (n : Sym) (left : In n) (b c : Out n) (s : State) (tokens : List Lexeme) (end other : State) → Derives (nt n left b ∷ []) s tokens end → Derives (nt n left c ∷ []) s tokens other → b ≡ c }
    ensures state { (n : Sym) (left : In n) (b c : Out n) (s : State) (tokens : List Lexeme) (end other : State) → Derives (nt n left b ∷ []) s tokens end → Derives (nt n left c ∷ []) s tokens other → end ≡ other }
{}
