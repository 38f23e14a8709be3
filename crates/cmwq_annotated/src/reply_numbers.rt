//! The numbers in a reply fit their types, so they have at most twenty digits.
ghost use Rattle.cmwq_annotated.specs.ReplyNumbers.{IsNumberedPlace, IsNumberedRun, IsReply, IsTime};

use cmwq_types::{Mode, Place, Reply, WorkRun};

/// The numbers of the reply fit.
pub fn fit(reply: Reply)
    ensures { IsReply reply }
{
    match reply {
        Reply::Found(state) => {
            place_fits(state.place);
            run_fits(state.run);
        }
        _ => {}
    }
}

/// The numbers of the place fit.
fn place_fits(place: Option<Place>)
    ensures { IsNumberedPlace place }
{
    match place {
        Some(Place::Timer { due: _, cpu: _ }) => {}
        Some(Place::Inactive(_)) => {}
        Some(Place::Listed(_)) => {}
        Some(Place::Deferred(_)) => {}
        None => {}
    }
}

/// The numbers of the run fit.
fn run_fits(run: Option<WorkRun>)
    ensures { IsNumberedRun run }
{
    if let Some(run) = run {
        let _numbers = (run.pool, run.worker);
        mode_fits(run.mode);
    }
}

fn mode_fits(mode: Mode)
    ensures { IsTime mode }
{
    match mode {
        Mode::Runnable => {}
        Mode::Asleep(_) => {}
    }
}
