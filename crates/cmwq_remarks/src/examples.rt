//! Worked examples of the definitions, as theorems.
ghost use Rattle.cmwq_examples.specs.Declare.{enqueue, ordered, times, unbound};
ghost use Rattle.cmwq_grammar.specs.Cutting.{lines_of};
ghost use Rattle.cmwq_remarks.specs.Examples.{intensive_alone, beside, body_with, declared_and_cancelled, five_lines, four_lines, intensive_queue, one_left, one_pending, one_step, queued_and_thawed, quiet_in_line_5, refused_twice, remarks_behind, three_lines, trapping, two_left, two_refused, two_spent, intensive_without_works, with_actor};
ghost use Rattle.cmwq_remarks.specs.LineNumbers.{line_at, number_from, number_of_last};
ghost use Rattle.cmwq_remarks.specs.Notes.{is_intensive_beside, notes_from, queues_itself};
ghost use Rattle.cmwq_remarks.specs.Remarks.{first_refusal, pending_line, refusal_count, refused_line, remarks_of};
ghost use Rattle.cmwq_remarks.specs.Traps.{has_few_steps};
ghost use Rattle.cmwq_drawing.specs.declared.drawing.Drawing.{Drawing};
ghost use Rattle.cmwq_question.specs.declared.question.Inquiry.{Inquiry};
ghost use Rattle.cmwq_tasks.specs.declared.task.RunKind.TheVariants as kind;
ghost use Rattle.cmwq_tasks.specs.declared.task.Task.TheVariants as task;
ghost use Rattle.cmwq_types.specs.Fields.{work_id};
ghost use Rattle.cmwq_types.specs.Scenario.{plain_flags};
ghost use Rattle.cmwq_types.specs.declared.instr.Instr.TheVariants as instr;
ghost use Rattle.cmwq_types.specs.declared.scenario.Op.TheVariants as op;
ghost use Rattle.std.specs.Prelude.{◌≡◌, ◌∷◌, ◌++◌, [], Some, codes, false, true};

/// Blank lines and comments are counted, and aren't among those that have words.
pub fn blank_lines_and_comments_are_counted()
    ensures first { number_from 1 (lines_of four_lines) 0 ≡ 2 }
    ensures second { number_from 1 (lines_of four_lines) 1 ≡ 4 }
    ensures last { number_of_last four_lines 1 0 ≡ 4 }
{}

/// An instruction that stands three times has the places 0 to 2, and the next one place 3.
pub fn line_has_as_many_places_as_it_stands_times()
    ensures first { line_at three_lines 0 ≡ 0 }
    ensures third { line_at three_lines 2 ≡ 0 }
    ensures fourth { line_at three_lines 3 ≡ 1 }
    ensures fifth { line_at three_lines 4 ≡ 2 }
{}

/// Refusals are counted, and the first one is that of the least place.
pub fn refusals_are_counted()
    ensures count { refusal_count refused_twice ≡ 2 }
    ensures first { first_refusal 0 refused_twice ≡ Some 1 }
    ensures one { refused_line 1 7 ≡ codes "1 instruction was refused, in line 7\n" }
    ensures two { refused_line 2 7 ≡ codes "2 instructions were refused, the first in line 7\n" }
{}

/// Where nothing is pending nothing is told.
pub fn pending_works_are_told_by_their_number()
    ensures none { pending_line 0 ≡ [] }
    ensures one { pending_line 1 ≡ codes "1 work item is pending; --settle continues until the machine is quiet\n" }
    ensures two { pending_line 2 ≡ codes "2 work items are pending; --settle continues until the machine is quiet\n" }
{}

/// Behind a run it is told what was refused, and what is pending, unless the run goes on; behind a picture and an answer what is pending alone, and
/// nothing behind what runs nothing.
pub fn remarks_follow_their_task()
    ensures run { remarks_behind (task.Run kind.Plain) queued_and_thawed ≡ two_refused ++ one_pending }
    ensures told { remarks_behind (task.Run kind.Told) queued_and_thawed ≡ two_refused ++ one_pending }
    ensures settled { remarks_behind (task.Run kind.Settled) queued_and_thawed ≡ two_refused }
    ensures told_settled { remarks_behind (task.Run kind.ToldSettled) queued_and_thawed ≡ two_refused }
    ensures drawn { (drawing : Drawing) → drawing.settle ≡ false → remarks_behind (task.Draw drawing) queued_and_thawed ≡ one_pending }
    ensures settled_drawn { (drawing : Drawing) → drawing.settle ≡ true → remarks_behind (task.Draw drawing) queued_and_thawed ≡ [] }
    ensures asked { (inquiry : Inquiry) → inquiry.settle ≡ false → remarks_behind (task.Why inquiry) queued_and_thawed ≡ one_pending }
    ensures settled_asked { (inquiry : Inquiry) → inquiry.settle ≡ true → remarks_behind (task.Why inquiry) queued_and_thawed ≡ [] }
    ensures listed { remarks_behind task.List queued_and_thawed ≡ [] }
    ensures settled_text { remarks_behind task.Settle queued_and_thawed ≡ [] }
{}

/// Where the actor lets the machine move, works that run count too; and nothing is told of a scenario of several actors.
pub fn works_that_run_are_left_too()
    ensures moves { remarks_behind (task.Run kind.Plain) (enqueue 0 0 ∷ enqueue 1 0 ∷ times instr.Next 1 ∷ []) ≡ two_left }
    ensures settled { remarks_behind (task.Run kind.Settled) (enqueue 0 0 ∷ enqueue 1 0 ∷ times instr.Next 1 ∷ []) ≡ [] }
    ensures actors { remarks_of (task.Run kind.Plain) five_lines beside [] ≡ [] }
{}

/// A `quiet` without a count is told if a work is still there behind it; one with a count isn't, nor one behind which nothing is left.
pub fn lines_that_end_early_are_told()
    ensures early { remarks_behind (task.Run kind.Plain) (enqueue 0 0 ∷ times instr.Quiet 1 ∷ []) ≡ quiet_in_line_5 ++ one_left }
    ensures counted { remarks_behind (task.Run kind.Plain) (enqueue 0 0 ∷ times instr.Quiet 2 ∷ []) ≡ one_left }
    ensures done { remarks_behind (task.Run kind.Plain) (times instr.Quiet 1 ∷ []) ≡ [] }
    ensures settled { remarks_behind (task.Run kind.Settled) (enqueue 0 0 ∷ times instr.Quiet 1 ∷ []) ≡ [] }
{}

/// Where one step is there, both of two `next` behind a `queue` are refused as Spent.
pub fn spent_steps_are_told()
    ensures { remarks_of (task.Run kind.Plain) five_lines one_step (record { name = codes "t"; lines = enqueue 0 0 ∷ times instr.Next 2 ∷ [] } ∷ [])
        ≡ two_refused ++ two_spent ++ one_left }
{}

/// Steps are few if the actors have more instructions, questions aside.
pub fn steps_are_few_for_more_instructions()
    ensures few { has_few_steps (with_actor (enqueue 0 0 ∷ times instr.Next 9 ∷ [])) ≡ true }
    ensures enough { has_few_steps (with_actor (enqueue 0 0 ∷ times instr.Next 8 ∷ [])) ≡ false }
    ensures questions { has_few_steps (with_actor (enqueue 0 0 ∷ times instr.Busy 100 ∷ [])) ≡ false }
{}

/// Nothing is noted of a CPU-intensive queue without works, nor where its works have the CPUs for themselves, or need none.
pub fn intensive_queue_is_noted_beside_others_alone()
    ensures beside { is_intensive_beside (intensive_queue plain_flags) 1 ≡ true }
    ensures unbound { is_intensive_beside (intensive_queue unbound) 1 ≡ false }
    ensures ordered { is_intensive_beside (intensive_queue ordered) 1 ≡ false }
    ensures plain { is_intensive_beside beside 0 ≡ false }
    ensures without_works { is_intensive_beside intensive_without_works 1 ≡ false }
    ensures alone { is_intensive_beside intensive_alone 1 ≡ false }
{}

/// A body that delays or mods its own work queues it; one that cancels it doesn't, nor does one that delays another.
pub fn bodies_that_delay_themselves_queue_themselves()
    ensures delays { queues_itself (body_with (op.Delay (work_id 0) 5)) 0 ≡ true }
    ensures mods { queues_itself (body_with (op.Mod (work_id 0) 0)) 0 ≡ true }
    ensures cancels { queues_itself (body_with (op.Cancel (work_id 0))) 0 ≡ false }
    ensures delays_another { queues_itself (body_with (op.Delay (work_id 1) 5)) 0 ≡ false }
    ensures mods_another { queues_itself (body_with (op.Mod (work_id 1) 0)) 0 ≡ false }
{}

/// A queue is noted where it is declared, and a work that queues itself where it is cancelled, with the lines' numbers; a work that is
/// queued, another's cancel, and a queue whose flags are plain aren't.
pub fn notes_stand_at_their_lines()
    ensures { notes_from beside (codes "f") 1 (lines_of declared_and_cancelled)
        ≡ codes "f:2: note: c: other work items start beside its own, but burn only after these sleep or finish; a kernel time-slices the CPU\nf:4: note: a: cancel_sync lets it queue itself again, and a kernel's doesn't; disable, flush and enable do as a kernel's\n" }
{}

/// A CPU that isn't there is noted in lines of actors, and a line without a count; the ticks of a body's `delay` aren't, nor a queue that is declared.
pub fn traps_are_noted_at_their_lines()
    ensures { notes_from beside (codes "f") 1 (lines_of trapping)
        ≡ codes "f:3: note: a: the run refuses its CPU; cpus is 1 and CPUs count from 0, so there is no CPU 1: queue WORK CPU\nf:5: note: a: the run refuses its CPU; cpus is 1 and CPUs count from 0, so there is no CPU 5: delay WORK CPU N\nf:6: note: quiet: without a count it makes at most one move; write quiet * 100 to continue until no work item is pending or running\nf:8: note: until: without a count it makes at most one move; write until 5 * 100 to continue until tick 5\nf:9: note: wait: without a count it makes at most one move; write wait 0 * 100 to continue until flush 0 is done\n" }
{}
