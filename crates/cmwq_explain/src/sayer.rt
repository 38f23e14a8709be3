//! What says something of a machine's states.
ghost use Rattle.cmwq_explain.specs.Changes.{words_said};
ghost use Rattle.cmwq_table.specs.State.{State};
ghost use Rattle.cmwq_types.specs.Contents.{ScenarioContents};
ghost use Rattle.std.specs.Prelude.{◌≡◌, Bool, IfOk, List, Option, ℕ};

use cmwq_table::Reads;
use cmwq_types::NoMemory;
use std::alloc::Global;

/// What says something of a machine's states.
pub trait Sayer: Drop {
    /// What is said of a state, which may be the run's last, with its line end; `None` where nothing is to be said yet.
    ghost says: { Self → ScenarioContents → Bool → State → Option (List ℕ) };

    /// What is said of the machine's state, and whether that is the run's last. The only error is want of memory.
    fn say<R: Reads>(
        &self,
        alloc: Global,
        machine: &R,
        is_last: bool,
    ) -> Result<Option<String>, NoMemory>
        ensures said { IfOk result (λ said. words_said said ≡ says self.now (R.loaded machine.now) is_last (R.state machine.now)) };
}
