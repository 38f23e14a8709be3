//! The parts of a scenario by their names.
ghost use Rattle.cmwq_types.specs.Scenario.{actor_named, queue_named, work_named};
ghost use Rattle.std.specs.Prelude.{◌≡◌, ◌<◌, IfSome, length};

use crate::scenario::Scenario;

impl Scenario {
    /// Returns the number of the work item of this name, from 0, if there is one.
    pub fn work_named(&self, name: &[u8]) -> Option<usize>
        ensures named { result ≡ work_named self.now name.now }
        ensures in_range { IfSome result (λ w. w < length self.now.works) }
    {
        self.works
            .iter()
            .position(|work| work.name.as_bytes() == name)
    }

    /// Returns the number of the queue of this name, from 0, if there is one.
    pub fn queue_named(&self, name: &[u8]) -> Option<usize>
        ensures named { result ≡ queue_named self.now name.now }
        ensures in_range { IfSome result (λ queue. queue < length self.now.queues) }
    {
        self.queues
            .iter()
            .position(|queue| queue.name.as_bytes() == name)
    }

    /// Returns the number of the caller of this name, from 0, if there is one.
    pub fn actor_named(&self, name: &[u8]) -> Option<usize>
        ensures named { result ≡ actor_named self.now name.now }
        ensures in_range { IfSome result (λ actor. actor < length self.now.actors) }
    {
        self.actors
            .iter()
            .position(|actor| actor.name.as_bytes() == name)
    }
}
