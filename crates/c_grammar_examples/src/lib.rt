//! Lists of tokens as theorems: which are files, with their trees, and where the others break off.
#![tactic(auto)]

ghost use Rattle.std.specs.Prelude.{◌≡◌, List, [], ◌∷◌, ◌++◌};
ghost use Rattle.c_tree.specs.declared.lexeme.Lexeme.{Lexeme};
ghost use Rattle.c_grammar.specs.Files.{IsFile, IsFirstBad, ReachesInFile};
ghost use Rattle.c_grammar.specs.Items.{Shape};
ghost use Rattle.c_grammar.specs.Limits.{Passes, nesting_passed};
ghost use Rattle.c_grammar.specs.State.{State};
ghost use Rattle.c_grammar_examples.specs.Depths as depths;
ghost use Rattle.c_grammar_examples.specs.Depths.{nests_past};
ghost use Rattle.c_grammar_examples.specs.Examples as x;

/// Files with their trees.
pub fn files_with_their_trees()
    ensures array_store { IsFile x.array_store x.array_store_tree }
    ensures cast { IsFile x.cast x.cast_tree }
    ensures function_of_functions { IsFile x.function_of_functions x.function_of_functions_tree }
    ensures nearest_if { IsFile x.nearest_if x.nearest_if_tree }
    ensures structure { IsFile x.structure x.structure_tree }
    ensures designator { IsFile x.designator x.designator_tree }
    ensures typedefs_anew { IsFile x.typedefs_anew x.typedefs_anew_tree }
{}

/// Where lists break off: what stands before the first token with which no file goes on, the token, and what stands behind it.
pub fn lists_that_break()
    ensures typedef_name { IsFirstBad (x.typedef_name_before ++ x.typedef_name_bad ∷ x.typedef_name_behind) x.typedef_name_before x.typedef_name_bad x.typedef_name_behind }
    ensures second_value { IsFirstBad (x.body_before ++ x.second_zero ∷ x.second_zero_behind) x.body_before x.second_zero x.second_zero_behind }
    ensures early_end { IsFirstBad (x.open_body ++ x.early_end ∷ []) x.open_body x.early_end [] }
{}

/// The nesting has passed where the deepest node that was read is deeper than 256, however a file is read.
pub fn nesting_passes_at_its_deepest_node()
    ensures { (tokens : List Lexeme) (left : List Shape) (s : State) → ReachesInFile tokens left s → nesting_passed s ≡ nests_past 256 s }
{}

/// Where a limit of three nodes is passed with `sizeof` as the third: nowhere in `sizeof(int)`, at `+` in `sizeof(int)+1`, and at `(` in
/// `sizeof(x)`, since the parenthesis of an expression counts for the nesting and that of a type name does not.
pub fn limits_at_sizeof()
    ensures type_name { (before : List Lexeme) (t : Lexeme) (behind : List Lexeme) → depths.up_to_sizeof ++ depths.opening ∷ depths.type_behind ≡ before ++ t ∷ behind → Passes (nests_past 3) before t behind → ⊥ }
    ensures sum { Passes (nests_past 3) depths.up_to_sum depths.plus depths.one_behind }
    ensures name { Passes (nests_past 3) depths.up_to_sizeof depths.opening depths.name_behind }
{}
