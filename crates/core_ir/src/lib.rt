//! The core program, on which the analysis works, and the types of the analysis: what a task reads, and the artifact that it
//! leaves.
#![tactic(auto)]

mod artifacts;
mod bodies;
mod classes;
mod laws;
mod order;
mod part_laws;
mod program;
mod shapes;
mod statics;
mod steps;
mod trees;
mod views;

pub use artifacts::{Artifact, Bounds, CallPart, Constraint, Solution, Stored, WritePart};
pub use bodies::StepList;
pub use classes::{ClassTable, FunctionNodes, LayoutPart, PartClass, RegionClass};
pub use laws::{
    another_object_breaks_it, another_table_breaks_it, another_view_breaks_it,
    more_functions_break_it, one_step_breaks_it, one_text_order, one_tree_of_a_type,
    worked_program_fits, worked_view_fits,
};
pub use order::in_order;
pub use part_laws::{
    a_view_has_facts, another_artifact_breaks_it, another_bound_breaks_it,
    another_callee_breaks_facts, another_class_breaks_facts, another_cluster_breaks_them,
    another_contribution_breaks_them, another_interval_breaks_facts, another_set_breaks_facts,
    worked_artifact_fits, worked_bounds_fit, worked_clusters_fit, worked_contributions_fit,
    worked_facts_fit,
};
pub use program::{CoreProgram, CoreSite, ExternalName, Function, Register};
pub use shapes::{Part, Shape, ShapeForm};
pub use statics::{StaticLeaf, StaticUnion, StaticValue};
pub use steps::{Callee, Cond, Leaf, Operand, Step, Value};
pub use trees::ShapeList;
pub use views::{CalleePart, ClassPart, Effects, Facts, LeafPart, View};
