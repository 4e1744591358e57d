/// The artifacts of rounds that are done.
pub trait Artifacts {
    /// The artifact of a task, none where the round is not kept or the task is not done.
    fn get(&self, round: u32, task: u32) -> Option<&[u8]>;

    /// The first round that is done and has the artifacts of the round before it, task by task.
    fn still(&self) -> Option<u32>;
}
