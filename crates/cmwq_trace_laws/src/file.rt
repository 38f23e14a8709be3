//! The file of a run's events.
ghost use Rattle.cmwq_trace_laws.specs.FileLaws.{TellsEachRun};

use crate::events::time_never_falls;
use cmwq_trace_data::laws::file_is_read_back;

/// What is read of the file of a run, by the lengths and places that stand in it, is what the events of the run tell, CPU by CPU: of each
/// valid scenario, whatever its instructions, as many as a run may have.
pub fn file_of_a_run_is_read_back()
    ensures { TellsEachRun }
{
    time_never_falls();
    file_is_read_back();
}
