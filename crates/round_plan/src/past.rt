use round_facts::Artifacts;
use tables::Shelf;

/// The artifacts that tables keep, as the analysis reads them.
#[derive(Clone, Copy)]
pub(crate) struct Past<'a> {
    pub(crate) shelf: &'a Shelf,
}

impl<'a> Artifacts for Past<'a> {
    fn get(&self, round: u32, task: u32) -> Option<&[u8]> {
        self.shelf.get(round, task)
    }

    fn still(&self) -> Option<u32> {
        self.shelf.still()
    }
}
