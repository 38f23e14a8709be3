//! The limits of a scenario, of a history and of the ticket lock. They are this project's own; the kernel has `WQ_MAX_ACTIVE`
//! (512) alone.

/// The most bytes of a name.
pub const MAX_NAME: usize = 15;

/// The most CPUs.
pub const MAX_CPUS: u8 = 16;

/// The most workers of one worker pool.
pub const MAX_WORKERS: u8 = 64;

/// The number that stands for the rescuer of a work's queue where that of a worker stands. No worker of a pool has it.
pub const RESCUER: u8 = 255;

/// The most flushes that a scenario can give.
pub const MAX_FLUSHES: u16 = 1024;

/// The most queues.
pub const MAX_QUEUES: usize = 32;

/// The most works.
pub const MAX_WORKS: usize = 256;

/// The most actors.
pub const MAX_ACTORS: usize = 16;

/// How much more often a work can be disabled than enabled, at most.
pub const MAX_DEPTH: u16 = 65_535;

/// The greatest `max_active` of a queue; the kernel's `WQ_MAX_ACTIVE`.
pub const MAX_MAX_ACTIVE: u16 = 512;

/// The most operations of a body, its `finish` included.
pub const MAX_OPS: usize = 64;

/// The most lines of an actor.
pub const MAX_LINES: usize = 4096;

/// How often one line can stand, at most.
pub const MAX_TIMES: u32 = 65535;

/// The most ticks of one `burn` or `sleep`.
pub const MAX_TICKS: u32 = 1_000_000;

/// The most bytes of a scenario's text.
pub const MAX_TEXT: usize = 4_194_304;

/// The most instructions that a scenario can have accepted and spent.
pub const MAX_STEPS: u32 = 4_294_967_295;

/// The most entries of a history, and the most instructions that one run issues.
pub const MAX_HISTORY: u32 = 1_048_576;

/// The most passes of one lock that are out at once.
pub const MAX_PASSES: u32 = 64;

/// The most tickets that one lock can give, 2^62.
pub const MAX_TICKETS: u64 = 4_611_686_018_427_387_904;
