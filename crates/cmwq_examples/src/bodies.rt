//! Worked examples of bodies that delay, mod and cancel works, as theorems over the definitions.
#![tactic(auto, unfolding(cmwq_table::specs::Events::reply_line, cmwq_table::specs::Table::table))]

ghost use Rattle.cmwq_examples.specs.Bodies.{after_no_ticks, after_no_ticks_lines, debounce, debounce_lines, disabled, disabled_lines, finds_others, finds_others_lines, mods_make_room, mods_make_room_lines, on_their_cpu, on_their_cpu_lines, poll, poll_cancelled, poll_cancelled_lines, poll_lines, room_cancelled, room_cancelled_lines, timer_cancelled, timer_cancelled_lines, until_behind_a_body, until_behind_a_body_lines, watchdog, watchdog_lines};
ghost use Rattle.cmwq_examples.specs.Rows.{printed};
ghost use Rattle.cmwq_types.specs.Faults.{IsValid};
ghost use Rattle.std.specs.Prelude.{◌≡◌};

/// A poll arms itself by a delay. Disabled, it is taken off, and can't arm itself again; flushed, it is over.
pub fn poll_is_ended_by_disabling()
    ensures { printed poll ≡ poll_lines }
{}

/// A cancel_sync that finds the poll running waits for it, but the poll has armed itself again by then.
pub fn poll_outlives_a_cancel_sync()
    ensures { printed poll_cancelled ≡ poll_cancelled_lines }
{}

/// Each interrupt's work pushes the handler's timer forward, which runs once, behind the last.
pub fn bounces_push_their_handler_off()
    ensures { printed debounce ≡ debounce_lines }
{}

/// A watchdog that its feeder pushes forward fires once the feeder stops.
pub fn watchdog_fires_once_its_feeder_stops()
    ensures { printed watchdog ≡ watchdog_lines }
{}

/// A body cancels another work's timer, and finds it not pending the second time.
pub fn bodies_cancel_timers()
    ensures { printed timer_cancelled ≡ timer_cancelled_lines }
{}

/// Where a body cancels a listed work, the next inactive work of its queue is activated.
pub fn cancel_in_a_body_lets_the_next_in()
    ensures { printed room_cancelled ≡ room_cancelled_lines }
{}

/// An until goes on across a timer that a body sets.
pub fn until_crosses_a_timer_of_a_body()
    ensures { printed until_behind_a_body ≡ until_behind_a_body_lines }
{}

/// After no ticks a body's delay or mod places the work at once. A delay of a pending work does nothing, a mod places it anew.
pub fn no_ticks_in_a_body_place_at_once()
    ensures { printed after_no_ticks ≡ after_no_ticks_lines }
{}

/// A body leaves a disabled work as it is.
pub fn disabled_works_are_left_by_bodies()
    ensures { printed disabled ≡ disabled_lines }
{}

/// A body's delay and mod are on the CPU of the pool in which it runs, and on CPU 0 from an unbound pool.
pub fn bodies_place_on_their_cpu()
    ensures { printed on_their_cpu ≡ on_their_cpu_lines }
{}

/// What a body finds of another work is that one's, whether it is itself pending or disabled or not.
pub fn bodies_find_others_as_they_are()
    ensures { printed finds_others ≡ finds_others_lines }
{}

/// A listed work that a body mods gives up its place to the next of its queue, and is queued anew, behind it.
pub fn mods_in_bodies_make_room()
    ensures { printed mods_make_room ≡ mods_make_room_lines }
{}

/// Each of these scenarios is valid.
pub fn bodies_are_valid()
    ensures poll { IsValid poll }
    ensures poll_cancelled { IsValid poll_cancelled }
    ensures debounce { IsValid debounce }
    ensures watchdog { IsValid watchdog }
    ensures timer_cancelled { IsValid timer_cancelled }
    ensures room_cancelled { IsValid room_cancelled }
    ensures until_behind_a_body { IsValid until_behind_a_body }
    ensures after_no_ticks { IsValid after_no_ticks }
    ensures disabled { IsValid disabled }
    ensures on_their_cpu { IsValid on_their_cpu }
    ensures finds_others { IsValid finds_others }
    ensures mods_make_room { IsValid mods_make_room }
{}
