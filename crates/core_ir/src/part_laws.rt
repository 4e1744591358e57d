//! What fits of matrices, clusters, facts, contributions and artifacts, by worked values. Each law is the contract of a function
//! that does nothing.
ghost use Rattle.std.specs.Prelude.{◌≡◌, ℕ, List, [], ◌∷◌, Bool, Some, slice_get};
ghost use Rattle.core_ir.specs.BoundsFit.{BoundsFit, ClustersFit};
ghost use Rattle.core_ir.specs.Programs.{PlainFunction, PlainProgram};
ghost use Rattle.core_ir.specs.Steps.{in_order, PlainStep};
ghost use Rattle.core_ir.specs.Views.{PlainCallee, PlainView};
ghost use Rattle.core_ir.specs.ViewsFit.{facts_in, ArtifactFits, ContributionsFit, FactsFit, ViewFits};
ghost use Rattle.core_ir.specs.Worked.{main, pick, worked};
ghost use Rattle.core_ir.specs.WorkedArtifact.{callees, context_beyond_type, context_with_result, descending_writes, empty_write, external_called, of_no_call, result_of_arguments, result_without_bound, stranger_called, twice_called, with_call, with_no_argument, with_second_matrix, with_write_to_nothing, without_matrix, worked_artifact, worked_calls, worked_writes, write_beyond_type, write_to_nothing};
ghost use Rattle.core_ir.specs.WorkedBounds.{above_range, below_range, contradictory, descending, digits, empty_cluster, of_one_variable, out_of_order, seventeen, sixteen, too_great, too_small, with_fifth_register, with_register_twice, without_last_entry, without_register, without_upper_bound, worked_bounds, worked_clusters};
ghost use Rattle.core_ir.specs.WorkedFacts.{another_kind, another_range, another_result_register, beyond_offsets, beyond_type, call_of_external, call_of_pick, copy, empty_interval, external_of_another_kind, external_with_range, facts_of_pick, load_of_member, no_function, no_leaf_class, no_parts, no_region_class, numbers_part, of_another_length, of_two_parameters, offset_part, pick_part, result_for_arguments_alone, s1_part, s2_part, said_defined, said_external, sets_but_one, start_of_block, step_alone, with_callees, with_classes, with_first_set, with_leaves, with_sets, without_a_leaf, without_a_register, without_layout, without_rivals, without_parts_of_pick, worked_facts};
ghost use Rattle.core_ir.specs.WorkedView.{external, worked_view};

/// A matrix over two digits fits.
pub fn worked_bounds_fit()
    ensures { BoundsFit digits worked_bounds }
{}

/// It does not with another number of variables or of entries, with a bound beyond 2^81 either way, without a solution, where a
/// variable may leave its range above or below, or without a bound against zero.
pub fn another_bound_breaks_it()
    ensures size { BoundsFit digits of_one_variable → ⊥ }
    ensures entries { BoundsFit digits without_last_entry → ⊥ }
    ensures greatest { BoundsFit digits too_great → ⊥ }
    ensures least { BoundsFit digits too_small → ⊥ }
    ensures solution { BoundsFit digits contradictory → ⊥ }
    ensures above { BoundsFit digits above_range → ⊥ }
    ensures below { BoundsFit digits below_range → ⊥ }
    ensures bound { BoundsFit digits without_upper_bound → ⊥ }
{}

/// Clusters of four registers fit, and a single one of sixteen does.
pub fn worked_clusters_fit()
    ensures four { ClustersFit 4 worked_clusters }
    ensures sixteen { ClustersFit 16 sixteen }
{}

/// They do not with an empty cluster, one of seventeen registers, one that does not ascend, one with a register that is not there,
/// in another order, or with a register that stands in none or in two.
pub fn another_cluster_breaks_them()
    ensures empty { ClustersFit 0 empty_cluster → ⊥ }
    ensures seventeen { ClustersFit 17 seventeen → ⊥ }
    ensures ascending { ClustersFit 4 descending → ⊥ }
    ensures register { ClustersFit 4 with_fifth_register → ⊥ }
    ensures order { ClustersFit 4 out_of_order → ⊥ }
    ensures none { ClustersFit 4 without_register → ⊥ }
    ensures two { ClustersFit 4 with_register_twice → ⊥ }
{}

/// A view that fits has facts that fit each step of its function.
pub fn a_view_has_facts()
    ensures { (p : PlainProgram) (f : PlainFunction) (view : PlainView) (rising : Bool) (k : ℕ) (step : PlainStep) → slice_get (in_order f.body) k ≡ Some step → ViewFits p f view → FactsFit p f step (facts_in view rising) }
{}

/// Facts fit a call through a register, an object copy, a call of an external function and the start of an object; a step that
/// looks at no part wants none.
pub fn worked_facts_fit()
    ensures call { FactsFit worked main call_of_pick worked_facts }
    ensures copy { FactsFit worked main copy worked_facts }
    ensures external { FactsFit worked pick call_of_external facts_of_pick }
    ensures object { FactsFit worked pick start_of_block facts_of_pick }
    ensures no_part { FactsFit worked main step_alone no_parts }
{}

/// They do not with a set less, or with a set that does not ascend or names a region or a function that is not there.
pub fn another_set_breaks_facts()
    ensures count { FactsFit worked main call_of_pick (with_sets sets_but_one) → ⊥ }
    ensures ascending { FactsFit worked main call_of_pick (with_sets (with_first_set (8 ∷ 5 ∷ []))) → ⊥ }
    ensures region { FactsFit worked main call_of_pick (with_sets (with_first_set (13 ∷ []))) → ⊥ }
    ensures function { FactsFit worked main call_of_pick (with_sets (with_first_set (2147483651 ∷ []))) → ⊥ }
{}

/// Nor without the part of a called function, with parts out of order or of no function, or where a part says something else of
/// its function than the program.
pub fn another_callee_breaks_facts()
    ensures there { FactsFit worked main call_of_pick (with_callees []) → ⊥ }
    ensures order { FactsFit worked main call_of_pick (with_callees (external ∷ pick_part ∷ [])) → ⊥ }
    ensures function { FactsFit worked main call_of_pick (with_callees (pick_part ∷ no_function ∷ [])) → ⊥ }
    ensures kind { FactsFit worked main call_of_pick (with_callees (another_kind ∷ [])) → ⊥ }
    ensures defined { FactsFit worked main call_of_pick (with_callees (said_external ∷ [])) → ⊥ }
    ensures parameters { FactsFit worked main call_of_pick (with_callees (of_two_parameters ∷ [])) → ⊥ }
    ensures ranges { FactsFit worked main call_of_pick (with_callees (another_range ∷ [])) → ⊥ }
    ensures result_register { FactsFit worked main call_of_pick (with_callees (another_result_register ∷ [])) → ⊥ }
    ensures clusters { FactsFit worked main call_of_pick (with_callees (without_a_register ∷ [])) → ⊥ }
    ensures result { FactsFit worked main call_of_pick (with_callees (result_for_arguments_alone ∷ [])) → ⊥ }
    ensures external_kind { FactsFit worked main call_of_pick (with_callees (pick_part ∷ external_of_another_kind ∷ [])) → ⊥ }
    ensures external { FactsFit worked main call_of_pick (with_callees (pick_part ∷ said_defined ∷ [])) → ⊥ }
    ensures external_ranges { FactsFit worked main call_of_pick (with_callees (pick_part ∷ external_with_range ∷ [])) → ⊥ }
{}

/// Nor with an interval that is empty, leaves its range or is of no leaf class, or with intervals out of order.
pub fn another_interval_breaks_facts()
    ensures order { FactsFit worked main call_of_pick (with_leaves (numbers_part ∷ offset_part ∷ [])) → ⊥ }
    ensures ends { FactsFit worked main call_of_pick (with_leaves (empty_interval ∷ [])) → ⊥ }
    ensures number { FactsFit worked main call_of_pick (with_leaves (beyond_type ∷ [])) → ⊥ }
    ensures offset { FactsFit worked main call_of_pick (with_leaves (beyond_offsets ∷ [])) → ⊥ }
    ensures leaf { FactsFit worked main call_of_pick (with_leaves (no_leaf_class ∷ [])) → ⊥ }
{}

/// Nor without the part of a region class at whose address a step looks or of an object that it begins, with parts out of order or
/// of no region class, or where a part says something else of its class than the program.
pub fn another_class_breaks_facts()
    ensures copied { FactsFit worked main copy (with_classes (s2_part ∷ [])) → ⊥ }
    ensures loaded { FactsFit worked main load_of_member worked_facts → ⊥ }
    ensures object { FactsFit worked pick start_of_block without_parts_of_pick → ⊥ }
    ensures order { FactsFit worked main copy (with_classes (s2_part ∷ s1_part ∷ [])) → ⊥ }
    ensures region { FactsFit worked main call_of_pick (with_classes (no_region_class ∷ [])) → ⊥ }
    ensures length { FactsFit worked main copy (with_classes (s1_part ∷ of_another_length ∷ [])) → ⊥ }
    ensures leaves { FactsFit worked main copy (with_classes (s1_part ∷ without_a_leaf ∷ [])) → ⊥ }
    ensures rivals { FactsFit worked main call_of_pick (with_classes (without_rivals ∷ [])) → ⊥ }
    ensures layouts { FactsFit worked main copy (with_classes (s1_part ∷ without_layout ∷ [])) → ⊥ }
{}

/// Contributions of a function that calls another one with 3 or 4 fit, and so do none.
pub fn worked_contributions_fit()
    ensures some { ContributionsFit worked callees worked_calls worked_writes }
    ensures none { (p : PlainProgram) (parts : List PlainCallee) → ContributionsFit p parts [] [] }
{}

/// They do not with two for one callee, with one to an external function or to one of which nothing is said, with another number of
/// matrices than the callee's clusters ask for, for an argument that has no value, or with intervals that facts may not have either.
pub fn another_contribution_breaks_them()
    ensures order { ContributionsFit worked callees twice_called worked_writes → ⊥ }
    ensures external { ContributionsFit worked callees external_called worked_writes → ⊥ }
    ensures stranger { ContributionsFit worked callees stranger_called worked_writes → ⊥ }
    ensures matrix { ContributionsFit worked callees without_matrix worked_writes → ⊥ }
    ensures second { ContributionsFit worked callees with_second_matrix worked_writes → ⊥ }
    ensures argument { ContributionsFit worked callees with_no_argument worked_writes → ⊥ }
    ensures write_order { ContributionsFit worked callees worked_calls descending_writes → ⊥ }
    ensures ends { ContributionsFit worked callees worked_calls empty_write → ⊥ }
    ensures range { ContributionsFit worked callees worked_calls write_beyond_type → ⊥ }
    ensures leaf { ContributionsFit worked callees worked_calls write_to_nothing → ⊥ }
{}

/// An artifact of a function that is called with 0 to 9 fits its view, and so does that of one that is never called.
pub fn worked_artifact_fits()
    ensures called { ArtifactFits worked pick worked_view worked_artifact }
    ensures never { ArtifactFits worked pick worked_view of_no_call }
{}

/// It does not with a context or a result of another form or beyond the ranges, or with contributions that do not fit.
pub fn another_artifact_breaks_it()
    ensures context { ArtifactFits worked pick worked_view context_with_result → ⊥ }
    ensures context_range { ArtifactFits worked pick worked_view context_beyond_type → ⊥ }
    ensures result { ArtifactFits worked pick worked_view result_of_arguments → ⊥ }
    ensures result_bound { ArtifactFits worked pick worked_view result_without_bound → ⊥ }
    ensures call { ArtifactFits worked pick worked_view with_call → ⊥ }
    ensures write { ArtifactFits worked pick worked_view with_write_to_nothing → ⊥ }
{}
