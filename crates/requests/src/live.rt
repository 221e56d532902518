//! Who is told how a run or a search goes on.
use machine::{Progress, Silent};
use outcomes::Gauge;

/// Who is told how a run goes on, and how a search does.
pub trait Live: Progress {
    /// A search has met so many states.
    fn tell_states(&mut self, states: usize);
}

impl Live for Silent {
    fn tell_states(&mut self, _states: usize) {}
}

/// The gauge of a search, which hands on what it is told.
#[derive(Drop)]
pub(crate) struct StateGauge<'p, P> {
    pub(crate) progress: &'p mut P,
}

impl<P: Live> Gauge for StateGauge<'_, P> {
    fn tell(&mut self, states: usize) {
        self.progress.tell_states(states);
    }
}
