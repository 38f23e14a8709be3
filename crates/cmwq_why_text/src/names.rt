//! The names of works and queues, by their numbers.
ghost use Rattle.cmwq_reasons.specs.Reasons.{work_of};
ghost use Rattle.cmwq_why_text.specs.WhyText.{name_of, queue_name};
ghost use Rattle.std.specs.Prelude.{◌≡◌};

use crate::wording::Wording;
use cmwq_reasons::Instance;
use cmwq_table::Reads;

impl<R: Reads> Wording<'_, R> {
    /// The name of a work, or no text where no work has the number.
    pub fn name(&self, w: u16) -> &str
        ensures { result.now ≡ name_of (R.loaded self.now.machine.now) w }
    {
        self.machine.scenario().work_name(w as usize)
    }

    /// The name of the instance's work.
    pub(crate) fn instance_name(&self, instance: Instance) -> &str
        ensures { result.now ≡ name_of (R.loaded self.now.machine.now) (work_of instance) }
    {
        match instance {
            Instance::Pending(w) | Instance::Running(w) => self.name(w.0),
        }
    }

    /// The name of a work's queue, or no text where there is none.
    pub(crate) fn queue_name(&self, w: usize) -> &str
        ensures { result.now ≡ queue_name (R.loaded self.now.machine.now) w }
    {
        let scenario = self.machine.scenario();
        scenario.queue_name(scenario.queue_of(w) as usize)
    }
}
