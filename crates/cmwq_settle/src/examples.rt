//! Worked examples of the definitions, as theorems: when small machines are quiet, and the lines of `next`.
ghost use Rattle.cmwq_settle.specs.Examples.{delay_b, a_queued, b_queued, never_quiet, two_works};
ghost use Rattle.cmwq_settle.specs.Quiet.{NeverQuiet, Settles};
ghost use Rattle.cmwq_table.specs.Counts.{is_quiet};
ghost use Rattle.cmwq_settle.specs.Settled.{next_line, next_lines};
ghost use Rattle.cmwq_table.specs.Table.{run};
ghost use Rattle.std.specs.Prelude.{◌≡◌, [], ◌∷◌, false};

/// A machine on which nothing was queued is quiet at once.
pub fn machine_at_its_start_is_quiet()
    ensures { Settles (two_works 9) [] 0 }
{}

/// One work burns, and the other waits for it: the machine is quiet once both have finished, with the last step.
pub fn machine_is_quiet_when_its_works_have_finished()
    ensures { Settles (two_works 9) (a_queued ∷ b_queued ∷ []) 7 }
{}

/// A work that runs isn't pending, and keeps the machine from being quiet.
pub fn running_work_is_to_finish()
    ensures { Settles (two_works 9) (b_queued ∷ []) 2 }
{}

/// Nor is a machine quiet on which only a timer runs: it fires, and then the work starts and finishes.
pub fn timer_is_to_fire()
    ensures timer { is_quiet (two_works 9) (run (two_works 9) (delay_b ∷ [])) ≡ false }
    ensures fires { Settles (two_works 9) (delay_b ∷ []) 4 }
{}

/// With a step less than the two works take their machine never is quiet.
pub fn steps_end_before_the_machine_is_quiet()
    ensures { NeverQuiet (two_works 8) (a_queued ∷ b_queued ∷ []) }
{}

/// A work that queues itself keeps its machine from ever being quiet.
pub fn work_that_queues_itself_is_never_done()
    ensures { NeverQuiet (never_quiet 20) (a_queued ∷ []) }
{}

/// No line has more than 65,535 `next`, and none has 0.
pub fn lines_are_as_full_as_they_can_be()
    ensures none { next_lines 0 ≡ [] }
    ensures one { next_lines 1 ≡ next_line 1 ∷ [] }
    ensures full { next_lines 65535 ≡ next_line 65535 ∷ [] }
    ensures rest { next_lines 65536 ≡ next_line 65535 ∷ next_line 1 ∷ [] }
    ensures many { next_lines 131075 ≡ next_line 65535 ∷ next_line 65535 ∷ next_line 5 ∷ [] }
{}
