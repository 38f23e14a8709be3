//! Runs in which the premises of the laws hold, as theorems over the definitions: no law is met for want of a case.
#![tactic(auto, unfolding(cmwq_table::specs::Table::table))]

ghost use Rattle.cmwq_burning.specs.Burning.{IsCarriedOut, IsUnderWay, ticks_burned, burns_before, burns_of_body, state_then};
ghost use Rattle.cmwq_burning.specs.Examples.{at_its_next, both_listed, burns_again, burns_twice, for_a_tick, listed, listed_once, shares_cpu, through_its_turn, through_its_wait, to_its_end, to_its_last, to_its_next};
ghost use Rattle.cmwq_table.specs.Laws.{reply_to, state_after};
ghost use Rattle.cmwq_table.specs.State.{running_at};
ghost use Rattle.cmwq_types.specs.Faults.{IsValid};
ghost use Rattle.std.specs.Prelude.{◌≡◌, Some};

use cmwq_types::{Event, Instr, Mode, Reply};

/// Each of these scenarios is valid.
pub fn examples_are_of_valid_scenarios()
    ensures burns_twice { IsValid burns_twice }
    ensures shares_cpu { IsValid shares_cpu }
    ensures burns_again { IsValid burns_again }
{}

/// A work burns for two ticks, sleeps for one, and burns for one more: three ticks of four.
pub fn sleeping_work_burns_nothing()
    ensures carried_out { IsCarriedOut burns_twice listed 0 Instr.Next to_its_end Instr.Next }
    ensures time { (state_then burns_twice listed Instr.Next to_its_end).time ≡ 4 }
    ensures ticks_burned { ticks_burned burns_twice (state_after burns_twice listed Instr.Next) to_its_end 0 ≡ 3 }
    ensures body { burns_of_body burns_twice 0 ≡ 3 }
{}

/// After its first tick it has burned for one and has one left, which is what stands before its place in the body.
pub fn work_burns_the_rest_of_its_burn()
    ensures under_way { IsUnderWay burns_twice listed 0 Instr.Next for_a_tick }
    ensures ticks_burned { ticks_burned burns_twice (state_after burns_twice listed Instr.Next) for_a_tick 0 ≡ 1 }
    ensures left { running_at (state_then burns_twice listed Instr.Next for_a_tick) 0
        ≡ Some (record { born = 0; pool = 0; worker = 0; pc = 1; left = 1; mode = Mode.Runnable; stamp = 1 }) }
    ensures before { burns_before burns_twice 0 1 ≡ 2 }
{}

/// Of two works that are runnable one burns: a work is awake for two ticks in which the other one has the CPU, and has burned
/// for one tick by then.
pub fn waiting_work_burns_nothing()
    ensures under_way { IsUnderWay shares_cpu both_listed 0 Instr.Next through_its_wait }
    ensures time { (state_then shares_cpu both_listed Instr.Next through_its_wait).time ≡ 4 }
    ensures ticks_burned { ticks_burned shares_cpu (state_after shares_cpu both_listed Instr.Next) through_its_wait 0 ≡ 1 }
    ensures other { ticks_burned shares_cpu (state_after shares_cpu both_listed Instr.Next) through_its_wait 1 ≡ 3 }
{}

/// When its turn has come it has burned for two ticks of five, as its body says.
pub fn work_burns_when_its_turn_comes()
    ensures carried_out { IsCarriedOut shares_cpu both_listed 0 Instr.Next through_its_turn Instr.Next }
    ensures time { (state_then shares_cpu both_listed Instr.Next through_its_turn).time ≡ 5 }
    ensures ticks_burned { ticks_burned shares_cpu (state_after shares_cpu both_listed Instr.Next) through_its_turn 0 ≡ 2 }
    ensures body { burns_of_body shares_cpu 0 ≡ 2 }
{}

/// One instruction ends an instance and starts the next one, which burns its body anew.
pub fn next_instance_burns_anew()
    ensures reply { reply_to burns_again at_its_next Instr.Next ≡ Reply.Event (record { 0 = 0 }) Event.FinishesAndStarts }
    ensures first { IsCarriedOut burns_again listed_once 0 Instr.Next to_its_next Instr.Next }
    ensures first_burned { ticks_burned burns_again (state_after burns_again listed_once Instr.Next) to_its_next 0 ≡ 2 }
    ensures second { IsCarriedOut burns_again at_its_next 0 Instr.Next to_its_last Instr.Next }
    ensures second_burned { ticks_burned burns_again (state_after burns_again at_its_next Instr.Next) to_its_last 0 ≡ 2 }
    ensures body { burns_of_body burns_again 0 ≡ 2 }
{}
