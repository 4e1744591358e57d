/// A place that each worker passes between the claim of a task and its computation.
pub trait Gate {
    fn at(&self, worker: u32, round: u32, task: u32);
}
