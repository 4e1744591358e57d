ghost use Rattle.std.specs.Prelude.{◌≡◌, ◌≢◌, ◌<◌, ◌^◌, ◌++◌, ◌∷◌, [], ℕ, List, Some, slice_get, true};
ghost use Rattle.core_ir.specs.BoundsFit.{ClustersFit};
ghost use Rattle.core_ir.specs.Plain.{Clusters, PlainArtifact, PlainStored, Summary};
ghost use Rattle.core_ir.specs.Programs.{PlainFunction, PlainProgram};
ghost use Rattle.core_ir.specs.ProgramsFit.{ProgramFits};
ghost use Rattle.core_ir.specs.Views.{PlainView};
ghost use Rattle.core_ir.specs.ViewsFit.{ArtifactFits, ViewFits};
ghost use Rattle.artifact_codec.specs.Spelling.{spelling};
ghost use Rattle.artifact_codec.specs.Demands.{IsStored, meets};

/// Bytes spell at most one value.
pub fn spellings_are_unique()
    ensures { (v w : PlainStored) → IsStored v → IsStored w → spelling v ≡ spelling w → v ≡ w }
{}

/// No spelling is a proper prefix of another.
pub fn no_spelling_begins_another()
    ensures { (v w : PlainStored) (rest : List ℕ) → IsStored v → IsStored w → spelling v ++ rest ≡ spelling w → rest ≡ [] }
{}

/// The single byte 6 is no spelling.
pub fn six_is_no_spelling()
    ensures { (v : PlainStored) → spelling v ≢ 6 ∷ [] }
{}

/// An artifact that fits a view of a function meets the demands, so it can be written.
pub fn artifacts_that_fit_meet_the_demands()
    ensures { (p : PlainProgram) (i : ℕ) (f : PlainFunction) (view : PlainView) (a : PlainArtifact) → ProgramFits p → slice_get p.functions i ≡ Some f → ViewFits p f view → ArtifactFits p f view a → meets (Summary a) ≡ true }
{}

/// So do clusters that fit fewer than 2^32 registers.
pub fn clusters_that_fit_meet_the_demands()
    ensures { (count : ℕ) (clusters : List (List ℕ)) → count < 2 ^ 32 → ClustersFit count clusters → meets (Clusters clusters) ≡ true }
{}
