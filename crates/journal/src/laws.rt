//! What holds of every image. Each law is the contract of a function that does nothing.
ghost use Rattle.std.specs.Prelude.{◌≡◌, List, ℕ};
ghost use Rattle.journal.specs.declared.digests.Digests.{Digests};
ghost use Rattle.journal.specs.declared.header.Front.{Front};
ghost use Rattle.journal.specs.Format.{Entry};
ghost use Rattle.journal.specs.Headers.{BeginsWith};
ghost use Rattle.journal.specs.Lists.{HoldsList};

/// An image holds one list of records.
pub fn one_list()
    ensures { (digests : Digests) (entries others : List Entry) (image : List ℕ) → HoldsList digests entries image → HoldsList digests others image → entries ≡ others }
{}

/// Each image begins in one way: with an unfinished header, with none, with that of another source, or with one that
/// opening accepts.
pub fn one_beginning()
    ensures some { (digests : Digests) (image : List ℕ) → (front : Front) × BeginsWith digests image front }
    ensures only { (digests : Digests) (image : List ℕ) (front other : Front) → BeginsWith digests image front → BeginsWith digests image other → front ≡ other }
{}
