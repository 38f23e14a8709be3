//! The numbers that an image begins with.

/// The numbers of a scenario, and how many queues, works and actors it has.
#[derive(Clone, Copy)]
pub(crate) struct Head {
    pub(crate) cpus: u8,
    pub(crate) workers: u8,
    pub(crate) steps: u32,
    pub(crate) flushes: u16,
    pub(crate) queues: u8,
    pub(crate) works: u16,
    pub(crate) actors: u8,
}
