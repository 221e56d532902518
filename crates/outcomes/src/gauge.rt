/// After how many states that were expanded a search tells how it goes on.
pub const GAUGE_INTERVAL: usize = 4096;

/// Who is told how a search goes on.
pub trait Gauge {
    /// So many states were met. It is told at the first state that is expanded, and then once in [`GAUGE_INTERVAL`] of them.
    fn tell(&mut self, states: usize);
}

/// Tells how many states were met, if it is due at a place.
pub(crate) fn tell_if_due<G: Gauge>(gauge: &mut G, place: usize, states: usize) {
    if place % GAUGE_INTERVAL == 0 {
        gauge.tell(states);
    }
}

/// What nobody is told.
#[derive(Clone, Copy, Debug)]
pub struct Untold;

impl Gauge for Untold {
    fn tell(&mut self, _states: usize) {}
}
