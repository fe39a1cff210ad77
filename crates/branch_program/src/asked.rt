// Who hears of a run whose words ask for it.
use branch_progress::{Listener, Progress};

/// A listener, which hears only where the words of the run ask to be told more.
#[derive(Drop)]
pub(crate) struct Asked<'l, L> {
    pub(crate) listener: &'l mut L,
    pub(crate) is_verbose: bool,
}

impl<L: Listener> Listener for Asked<'_, L> {
    fn hear(&mut self, progress: Progress) {
        if self.is_verbose {
            self.listener.hear(progress);
        }
    }
}
