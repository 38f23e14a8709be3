//! Limits and the freeze, and the works that have room after a change of them.
ghost use Rattle.cmwq_table.specs.Moves.{fill_everywhere, fill_freezable, set_max, thaw};
ghost use Rattle.cmwq_table.specs.Ready.{most_everywhere};
ghost use Rattle.std.specs.Prelude.{◌≡◌, ◌<◌, ◌≤◌, ◌+◌, ◌^◌, length};

use crate::going::Going;
use crate::parts::Parts;

impl<P: Parts> Going<P> {
    /// Sets the queue's `max`, and activates what has room now. Nothing that is active is thrown out.
    pub fn set_max_active(&mut self, queue: u8, max: u16)
        requires queue { queue < length self.old.scenario.queues }
        requires stamps { self.old.state.next < 2 ^ 61 }
        ensures { self.new ≡ record self.old { state = set_max self.old.scenario self.old.state queue max } }
    {
        self.parts.set_max(queue, max);
        self.fill_everywhere(queue);
    }

    /// Ends the freeze, and activates what has room now.
    pub fn thaw(&mut self)
        requires { self.old.state.next < 2 ^ 60 }
        ensures { self.new ≡ record self.old { state = thaw self.old.scenario self.old.state } }
    {
        self.parts.set_frozen(false);
        self.fill_freezable();
    }

    /// Fills the queue in each pool, pools rising.
    fn fill_everywhere(&mut self, queue: u8)
        requires { self.old.state.next < 2 ^ 61 }
        ensures filled { self.new ≡ record self.old { state = fill_everywhere self.old.scenario queue self.old.state } }
        ensures stamps { self.new.state.next ≤ self.old.state.next + most_everywhere }
    {
        for pool in 0..self.parts.scenario().pool_count() {
            self.fill(queue, pool);
        }
    }

    /// Fills each freezable queue in each pool, queues rising.
    fn fill_freezable(&mut self)
        requires { self.old.state.next < 2 ^ 60 }
        ensures { self.new ≡ record self.old { state = fill_freezable self.old.scenario (length self.old.scenario.queues) self.old.state } }
    {
        for queue in 0..self.parts.scenario().queues.len() as u8 {
            if self.parts.scenario().flags_of(queue).freezable {
                self.fill_everywhere(queue);
            }
        }
    }
}
