//! Worked examples of dumps and of debugging. Each function's contract gives one dump, or the answers
//! to some commands. No other crate depends on this one.
//!
//! Proved: worked examples of dumps and sessions.
#![tactic(auto)]

ghost use Rattle.cmwq_debug.specs.Checkpoints.{entered, left_out, no_checkpoints, passed, turn_for};
ghost use Rattle.cmwq_debug_examples.specs.Debugged.{activation, activation_answers, activation_breaks, at_even_multiples, commands_answered, commands_over_a_tick, chain_answers, chain_questions, disabled_breaks, disabled_breaks_answers, each_event, each_event_answers, each_event_breaks, ended_session, event_breaks, event_breaks_answers, hold_answers, hold_questions, list_answers, list_questions, all_instrs, many_breaks, many_breaks_answers, next_events, next_events_answers, one_missing, one_tick, quiet_end, refusal_breaks, refusal_breaks_answers, refusals, rescuer_breaks, rescuer_breaks_answers, said_at_ended_terminal, said_at_terminal, said_in_ended_session, said_over_a_tick, short_orders, short_words, spread_at, there_and_back, there_and_back_answers, timers_from_bodies, timers_from_bodies_answers, timers_from_bodies_breaks, typed_commands};
ghost use Rattle.cmwq_debug_lines.specs.Orders.{order_of};
ghost use Rattle.cmwq_debug_lines.specs.Prompt.{debugged};
ghost use Rattle.cmwq_debug_lines.specs.declared.manner.Manner.TheVariants.{Plain, Prompted};
ghost use Rattle.cmwq_debug_examples.specs.Dumps.{dumped, many_kinds, many_kinds_dump, many_kinds_lines, many_kinds_pool_1, pool_dumped, busy_cpus, two_cpus_dump, busy_cpus_lines};
ghost use Rattle.cmwq_examples.specs.Rows.{disabled_twice, pressed, queues_itself, three_works};
ghost use Rattle.cmwq_reason_examples.specs.Waiting.{chain, hold};
ghost use Rattle.cmwq_types.specs.Faults.{IsValid};
ghost use Rattle.std.specs.Prelude.{◌≡◌, [], map};

/// A dump with a line of each kind: memory is short, idle workers by their last use, sleepers by the tick at which they wake,
/// timers that run out together by their setting, disabled works by their numbers, and a flush that is done beside one that
/// isn't.
pub fn dump_tells_every_kind()
    ensures { dumped many_kinds many_kinds_lines ≡ many_kinds_dump }
{}

/// The part of one pool in that dump.
pub fn dump_of_a_pool_is_its_part()
    ensures { pool_dumped many_kinds many_kinds_lines 1 ≡ many_kinds_pool_1 }
{}

/// A dump of two CPUs and the unbound pools: the works of each group stand by what the format says, not by their numbers,
/// and a timer has its CPU.
pub fn dump_keeps_each_order()
    ensures { dumped busy_cpus busy_cpus_lines ≡ two_cpus_dump }
{}

/// The kernel document's scenario: at position 12 one work burns, one sleeps and one waits. What is refused leaves
/// the debugger where it stands.
pub fn debugger_goes_there_and_back()
    ensures { commands_answered (three_works 3 41) (all_instrs (three_works 3 41)) there_and_back ≡ there_and_back_answers }
{}

/// An event of two kinds matches a break on each; the lowest is said; a cleared one matches no more, and the next
/// break takes its place.
pub fn lowest_break_is_said()
    ensures { commands_answered queues_itself (all_instrs queues_itself) event_breaks ≡ event_breaks_answers }
{}

/// A break on each kind of event stops a run at its work's event, and at no other work's; from there on, steps are counted
/// and pools are dumped.
pub fn each_kind_of_event_is_met()
    ensures { commands_answered each_event (all_instrs each_event) each_event_breaks ≡ each_event_answers }
{}

/// A break on `queues` stops a run where the body of its work finds another one disabled, and not at the work that is
/// disabled; the dump there has the depth.
pub fn disabled_work_is_not_queued()
    ensures { commands_answered disabled_twice (all_instrs disabled_twice) disabled_breaks ≡ disabled_breaks_answers }
{}

/// A break on `delays`, `mods` or `cancels` stops a run at each such event of its work, whatever came of it, and not at those that
/// name its work.
pub fn timers_from_bodies_are_met()
    ensures { commands_answered timers_from_bodies (all_instrs timers_from_bodies) timers_from_bodies_breaks ≡ timers_from_bodies_answers }
{}

/// A break on `starts` stops a run where a rescuer takes its work; the dump there says that memory is short, and names no worker
/// for the work. After the relief the machine is dumped as ever.
pub fn rescuer_starts_its_work()
    ensures { commands_answered pressed (all_instrs pressed) rescuer_breaks ≡ rescuer_breaks_answers }
{}

/// A break on a time is for the instruction that makes the time so, never for one that is refused then.
pub fn refused_instruction_makes_no_time()
    ensures { commands_answered queues_itself refusals refusal_breaks ≡ refusal_breaks_answers }
{}

/// A break on activation stops a run where a work that was inactive is listed: not where one is listed as it is placed, nor where one is placed anew
/// in the stead of an inactive instance.
pub fn activated_work_was_inactive()
    ensures { commands_answered activation (all_instrs activation) activation_breaks ≡ activation_answers }
{}

/// The breaks are listed by their numbers, each as it was given.
pub fn breaks_are_listed_as_they_were_given()
    ensures { commands_answered activation (all_instrs activation) list_questions ≡ list_answers }
{}

/// A word that begins one command's word alone is that command, and one that begins several is none; words behind it aren't cut short. A step is one where
/// no number stands.
pub fn words_may_be_cut_short()
    ensures { map (order_of activation) short_words ≡ short_orders }
{}

/// What stands behind `quit` isn't answered.
pub fn quit_ends_the_session()
    ensures { debugged Plain activation (all_instrs activation) ended_session ≡ said_in_ended_session }
{}

/// At a terminal a prompt stands before each command, and behind a move the instruction that was carried out last and what a run prints of it: nothing behind
/// what is refused, and nothing at the start. Where the commands end, the prompt's line does; behind `quit` nothing is said.
pub fn terminal_has_a_prompt()
    ensures to_the_end { debugged Prompted activation (all_instrs activation) typed_commands ≡ said_at_terminal }
    ensures quit { debugged Prompted activation (all_instrs activation) ended_session ≡ said_at_ended_terminal }
{}

/// A prompt, and what a run prints of the last instruction, have the time there; a tick that passes prints nothing.
pub fn prompt_has_the_time_there()
    ensures { debugged Prompted one_tick (all_instrs one_tick) commands_over_a_tick ≡ said_over_a_tick }
{}

/// The way to the next event goes past what prints nothing: a work that is queued, a tick, and what has come; where no line is left, it goes to the
/// end. No break stops it.
pub fn next_event_prints_a_line()
    ensures { commands_answered quiet_end (all_instrs quiet_end) next_events ≡ next_events_answers }
{}

/// There are sixteen places for breaks; a work that isn't there is told before that they are taken.
pub fn seventeenth_break_is_refused()
    ensures { commands_answered queues_itself [] many_breaks ≡ many_breaks_answers }
{}

/// A flush that wasn't given yet is refused; then its lines go down the chain of waits, and a work's line is one of them.
pub fn flush_waits_in_a_chain()
    ensures { commands_answered chain (all_instrs chain) chain_questions ≡ chain_answers }
{}

/// A flush waits for two works while the first one has its queue's place, and is done when both have ended. Looking back tells
/// of the state there.
pub fn flush_is_done()
    ensures { commands_answered hold (all_instrs hold) hold_questions ≡ hold_answers }
{}

/// The scenarios that stand here are valid.
pub fn scenarios_are_valid()
    ensures many_kinds { IsValid many_kinds }
    ensures busy_cpus { IsValid busy_cpus }
    ensures each_event { IsValid each_event }
    ensures activation { IsValid activation }
    ensures one_tick { IsValid one_tick }
    ensures quiet_end { IsValid quiet_end }
    ensures timers_from_bodies { IsValid timers_from_bodies }
{}

/// Checkpoints on a long way there and back, where there is memory for each: at each 64th position, until there would be more than 256 of
/// them; then those at odd multiples of 64 are dropped, and they go on at each 128th. Another way over them makes none anew.
pub fn checkpoints_stand_further_apart_on_a_long_way()
    ensures first { passed no_checkpoints 0 1000 ≡ spread_at 15 64 }
    ensures full { passed (spread_at 15 64) 999 15385 ≡ spread_at 256 64 }
    ensures thinned { passed (spread_at 256 64) 16384 64 ≡ spread_at 128 128 }
    ensures again { passed (spread_at 128 128) 0 16384 ≡ spread_at 128 128 }
{}

/// A checkpoint that was missing goes between the others, and one for which there is no memory is missing. Where all that are held stand at
/// even multiples, there is room once they are thinned twice.
pub fn missing_checkpoint_is_made_on_another_way()
    ensures between { entered one_missing 128 ≡ spread_at 3 64 }
    ensures no_memory { left_out (spread_at 15 64) 1024 ≡ spread_at 15 64 }
    ensures twice { entered at_even_multiples 32896 ≡ spread_at 128 256 }
{}

/// A way back begins at a checkpoint at the position, else at the one before it, and in front of all at the start.
pub fn way_back_begins_at_the_nearest_checkpoint()
    ensures there { turn_for (spread_at 15 64) 960 ≡ 960 }
    ensures before { turn_for (spread_at 15 64) 959 ≡ 896 }
    ensures start { turn_for (spread_at 15 64) 63 ≡ 0 }
{}
