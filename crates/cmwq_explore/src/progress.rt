//! Who is told how far a search is.

/// Who is told how far a search is.
pub trait Progress {
    /// So many states were seen, and so deep lies the one whose choices are tried now.
    fn tell(&mut self, states: usize, depth: u16);
}

/// It does nothing with it.
#[derive(Clone, Copy)]
pub struct Silent;

impl Progress for Silent {
    fn tell(&mut self, _states: usize, _depth: u16) {}
}
