//! What holds over every run: any list of claims, publications, returns, expirations, new rounds and crashes, from the
//! first round on. Each law is the contract of a function that does nothing.
ghost use Rattle.std.specs.Prelude.{◌≡◌, ℕ, ◌+◌, ◌<◌, ◌++◌, ◌∷◌, [], List, IsSome, Some, length, slice_get, slice_index};
ghost use Rattle.lease_table.specs.declared.event.Event.TheVariants as events;
ghost use Rattle.lease_table.specs.declared.standing.Abandoned.TheVariants.{Freed};
ghost use Rattle.lease_table.specs.declared.standing.Claimed.TheVariants.{Work};
ghost use Rattle.lease_table.specs.declared.standing.Published.TheVariants.{Stored};
ghost use Rattle.lease_table.specs.declared.standing.Standing.TheVariants.{Done};
ghost use Rattle.lease_table.specs.Events.{after};
ghost use Rattle.lease_table.specs.Standings.{standing_at};
ghost use Rattle.lease_table.specs.Runs.{World, Step, Claim, Runs, begun, artifact_of, StaysDone, HasNoCrash, IsTicketBelow, IsReopened, IsInRoundOrder, Publication};
ghost use Rattle.lease_table.specs.Machine.{Machine, started, lease_end, Keeps, Claims, Publishes, Abandons, Expires, Advances, Ends};

/// A published artifact never changes, and a crash keeps it.
pub fn artifacts_stay()
    ensures { (tasks : ℕ) (steps later : List Step) (mid new : World) → Runs (begun tasks) steps mid → Runs mid later new →
        (round task : ℕ) (artifact : List ℕ) → artifact_of mid.published round task ≡ Some artifact →
        artifact_of new.published round task ≡ Some artifact }
{}

/// A task that is done stays done until its round is followed, with its ticket as long as no crash comes.
pub fn done_tasks_stay()
    ensures { (tasks : ℕ) (steps later : List Step) (mid new : World) → Runs (begun tasks) steps mid → Runs mid later new →
        (task ticket : ℕ) → slice_get mid.machine.tasks task ≡ Some (Done ticket) →
        StaysDone mid.machine.round task ticket later new }
{}

/// No round begins before each task of those before it is published.
pub fn rounds_are_full()
    ensures { (tasks : ℕ) (steps : List Step) (new : World) → Runs (begun tasks) steps new →
        (round task : ℕ) → round < new.machine.round → task < slice_index new.rounds round →
        IsSome (artifact_of new.published round task) }
{}

/// No ticket is given twice: between two crashes each claim's ticket is above that of each claim before it, and above
/// each that stands.
pub fn tickets_rise()
    ensures claims { (tasks : ℕ) (steps between : List Step) (mid new : World)
        (now term task ticket now' term' task' ticket' : ℕ) → Runs (begun tasks) steps mid →
        Runs mid (Claim now term (Work task ticket) ∷ between ++ Claim now' term' (Work task' ticket') ∷ []) new →
        HasNoCrash between → ticket < ticket' }
    ensures standings { (tasks : ℕ) (steps : List Step) (new : World) → Runs (begun tasks) steps new →
        (task : ℕ) → task < length new.machine.tasks → IsTicketBelow new.machine.next_ticket (standing_at new.machine.tasks task) }
{}

/// A crash is the first round and then one `keep` for each publication in order, with a new round before it where it is of
/// the next one: that makes the machine that a crash leaves.
pub fn kept_one_by_one()
    ensures start { (tasks : ℕ) (rounds : List ℕ) → IsReopened (tasks ∷ rounds) [] (started tasks) }
    ensures keep { (rounds : List ℕ) (published : List Publication) (old new : Machine) (task : ℕ) (artifact : List ℕ) →
        IsReopened rounds published old → Keeps task old new →
        IsReopened rounds (record { round = old.round; task = task; artifact = artifact } ∷ published) new }
    ensures next_round { (rounds : List ℕ) (published : List Publication) (old mid new : Machine) (task : ℕ) (artifact : List ℕ) →
        IsInRoundOrder published → IsReopened rounds published old →
        Advances (slice_index rounds (old.round + 1)) old mid → Keeps task mid new →
        IsReopened rounds (record { round = mid.round; task = task; artifact = artifact } ∷ published) new }
{}

/// Each step that changes the machine is an event, which makes of the machine what the step leaves.
pub fn steps_are_events()
    ensures keep { (task : ℕ) (old new : Machine) → Keeps task old new → new ≡ after old (events.Kept task) }
    ensures claim { (now term task ticket : ℕ) (old new : Machine) → Claims now term old (Work task ticket) new →
        new ≡ after old (events.Claimed task (lease_end now term)) }
    ensures publish { (round task ticket : ℕ) (old new : Machine) → Publishes round task ticket old Stored new →
        new ≡ after old (events.Published round task ticket) }
    ensures abandon { (round task ticket : ℕ) (old new : Machine) → Abandons round task ticket old Freed new →
        new ≡ after old (events.Abandoned task) }
    ensures expire { (now freed : ℕ) (old new : Machine) → Expires now old freed new → new ≡ after old (events.Expired now) }
    ensures advance { (tasks : ℕ) (old new : Machine) → Advances tasks old new → new ≡ after old (events.Advanced tasks) }
    ensures ends { (old new : Machine) → Ends old new → new ≡ after old events.Ended }
{}
