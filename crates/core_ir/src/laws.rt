//! The order of the text, and what fits by a worked program. Each law is the contract of a function that does nothing.
ghost use Rattle.std.specs.Prelude.{◌≡◌, ℕ, ◌+◌, ◌<◌, ◌^◌, List, map, length, slice_get};
ghost use Rattle.core_ir.specs.declared.steps.Step.{Step};
ghost use Rattle.core_ir.specs.Classes.{all_shapes, layout_number};
ghost use Rattle.core_ir.specs.Layouts.{erased};
ghost use Rattle.core_ir.specs.Order.{text_order};
ghost use Rattle.core_ir.specs.Programs.{PlainExternal, PlainFunction, PlainProgram};
ghost use Rattle.core_ir.specs.ProgramsFit.{ProgramFits};
ghost use Rattle.core_ir.specs.Shapes.{PlainShape};
ghost use Rattle.core_ir.specs.Steps.{in_order, step_of, steps_of};
ghost use Rattle.core_ir.specs.ViewsFit.{ViewFits};
ghost use Rattle.core_ir.specs.Worked.{pick, worked, with_pick, with_main, with_classes, into_an_entry_register, result_over_argument, call_without_argument, exit_of_nothing, number_too_large, type_too_large, number_for_a_pointer, number_stored_as_pointer, elements_of_no_size, foreign_object, one_register_less, without_rivals, all_zero, two_trees_of_a_type, elements_with_gaps, no_elements, union_with_a_gap, members_out_of_order, no_members, with_functions, with_externals};
ghost use Rattle.core_ir.specs.WorkedView.{worked_view, without_callee, without_object, in_two_clusters, beyond_range, without_bound};

/// The order of the text of plain steps is that of the steps.
pub fn one_text_order()
    ensures { (steps : List Step) → in_order (steps_of steps) ≡ map step_of (text_order steps) }
{}

/// The core of a worked source fits, with the class table and the initial values that were worked out for it.
pub fn worked_program_fits()
    ensures { ProgramFits worked }
{}

/// With one more step it fits no longer: one that overwrites an argument, at once or by a call's own result; a call that
/// lacks an argument; a step that leaves no block; numbers and types that a register may not hold; a number in the place of a
/// pointer; elements without a size; the object of another function.
pub fn one_step_breaks_it()
    ensures entry { ProgramFits (with_pick into_an_entry_register) → ⊥ }
    ensures argument { ProgramFits (with_main result_over_argument) → ⊥ }
    ensures number_of_arguments { ProgramFits (with_main call_without_argument) → ⊥ }
    ensures block { ProgramFits (with_main exit_of_nothing) → ⊥ }
    ensures number { ProgramFits (with_main number_too_large) → ⊥ }
    ensures type_of_access { ProgramFits (with_main type_too_large) → ⊥ }
    ensures pointer { ProgramFits (with_main number_for_a_pointer) → ⊥ }
    ensures stored { ProgramFits (with_main number_stored_as_pointer) → ⊥ }
    ensures size { ProgramFits (with_main elements_of_no_size) → ⊥ }
    ensures object { ProgramFits (with_main foreign_object) → ⊥ }
{}

/// Nor does it with another table: another number of registers, no rivals, initial values that were not given.
pub fn another_table_breaks_it()
    ensures registers { ProgramFits (with_classes one_register_less) → ⊥ }
    ensures rivals { ProgramFits (with_classes without_rivals) → ⊥ }
    ensures starts { ProgramFits all_zero → ⊥ }
{}

/// Nor with other objects: a number and a pointer of one type, elements with bytes between them, an array of no elements, a member of
/// a union behind its start, members that lie in another order than they stand in, a structure without members.
pub fn another_object_breaks_it()
    ensures one_tree { ProgramFits two_trees_of_a_type → ⊥ }
    ensures stride { ProgramFits elements_with_gaps → ⊥ }
    ensures elements { ProgramFits no_elements → ⊥ }
    ensures union_member { ProgramFits union_with_a_gap → ⊥ }
    ensures members { ProgramFits members_out_of_order → ⊥ }
    ensures no_member { ProgramFits no_members → ⊥ }
{}

/// Nor with more functions than there may be.
pub fn more_functions_break_it()
    ensures defined { (functions : List PlainFunction) → 20000 < length functions → ProgramFits (with_functions functions) → ⊥ }
    ensures external { (externals : List PlainExternal) → 2 ^ 31 < 20000 + length externals → ProgramFits (with_externals externals) → ⊥ }
{}

/// Of a program that fits, sub-objects of one type have one tree.
pub fn one_tree_of_a_type()
    ensures { (p : PlainProgram) (i j : ℕ) (x y : PlainShape) → ProgramFits p → slice_get (all_shapes p) i ≡ Some x → slice_get (all_shapes p) j ≡ Some y → layout_number x ≡ layout_number y → erased x ≡ erased y }
{}

/// A view of the first function of the worked program fits.
pub fn worked_view_fits()
    ensures { ViewFits worked pick worked_view }
{}

/// It does not without a part for a called function or for an object that the function begins, with a register in two
/// clusters, or where the bounds of an argument go beyond its type, or one is missing.
pub fn another_view_breaks_it()
    ensures callee { ViewFits worked pick without_callee → ⊥ }
    ensures object { ViewFits worked pick without_object → ⊥ }
    ensures cluster { ViewFits worked pick in_two_clusters → ⊥ }
    ensures range { ViewFits worked pick beyond_range → ⊥ }
    ensures bound { ViewFits worked pick without_bound → ⊥ }
{}
