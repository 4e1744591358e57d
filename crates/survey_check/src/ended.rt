/// How a call ended: its exit status, and the disk, where one was opened.
#[derive(Drop)]
pub struct Ended<D: Drop> {
    pub status: u8,
    pub disk: Option<D>,
}
