//! What holds of every record. Each law is the contract of a function that does nothing.
ghost use Rattle.std.specs.Prelude.{◌≡◌, List, ℕ, Some};
ghost use Rattle.tables.specs.Replays.{artifact_in};
ghost use Rattle.tables.specs.Shelves.{Shelved};
ghost use Rattle.tables.specs.Sound.{record_body};
ghost use Rattle.tables.specs.Works.{IsNoMark};

/// The record of an artifact stands for that artifact where it is read back over the same shelf.
pub fn a_record_stands_for_its_artifact()
    ensures { (shelf : Shelved) (round task : ℕ) (artifact : List ℕ) → IsNoMark artifact → artifact_in shelf round task (record_body shelf round task artifact) ≡ Some artifact }
{}
