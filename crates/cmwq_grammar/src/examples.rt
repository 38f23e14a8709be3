//! Short texts, as theorems over the definitions: what reading them gives.
ghost use Rattle.cmwq_grammar.specs.Examples.{AfterBodyIs, DeclaredIs, FaultIs, FirstLineIs, InActorIs, InBodyIs, OfferedAre, ReadsAs, sixteen_actor_lines, actor_t, after_head, cut_after, delaying_scenario, disabling_lines, free_head, head_lines, in_actor_t, in_body_a, itself_lines, long_body, head_alone, one_work, pressing_lines, queue_alone, queue_q, queue_with_memory, itself_scenario, sixteen_actors, with_bad_byte};
ghost use Rattle.cmwq_types.specs.Listing.{listing, text_of_lines};
ghost use Rattle.std.specs.Prelude.{◌≡◌, ◌∷◌, ◌++◌, [], codes, take};

use crate::why::Why;
use cmwq_types::Fault;

/// A text that ends too early has its fault after its last line; a number out of its limits has it in
/// the line.
pub fn early_end_is_a_missing_word()
    ensures empty { FaultIs [] 1 Why.MissingWord }
    ensures cpus_alone { FaultIs (codes "cpus 16") 2 Why.MissingWord }
    ensures too_many_cpus { FaultIs (codes "cpus 17") 1 (Why.Fault Fault.Range) }
{}

/// The second of two queues of one name is a duplicate.
pub fn second_queue_of_a_name_is_a_duplicate()
    ensures { FaultIs (after_head (codes "queue q max 1" ∷ codes "queue q max 2" ∷ [])) 6 (Why.Fault Fault.Duplicate) }
{}

/// An actor can't begin before the open body's `finish`.
pub fn actor_in_an_open_body_is_a_bad_body()
    ensures { FaultIs (after_head (codes "queue q max 1" ∷ codes "work a q" ∷ codes "body a" ∷ codes "burn 1"
        ∷ codes "actor t" ∷ [])) 9 (Why.Fault Fault.BadBody) }
{}

/// Carriage returns, tabs, comments and blank lines are free, and don't stand in the listing.
pub fn spaces_and_comments_are_free()
    ensures read { ReadsAs free_head head_alone }
    ensures listed { listing head_alone ≡ text_of_lines head_lines }
{}

/// The listing of a scenario reads as that scenario.
pub fn listing_reads_as_its_scenario()
    ensures listed { listing itself_scenario ≡ cut_after 13 }
    ensures read { ReadsAs (cut_after 13) itself_scenario }
{}

/// That listing, cut after so many lines: in the head and before a body a word is missing, an open body
/// is bad, and elsewhere the text may end.
pub fn cut_listing_ends_well_or_not()
    ensures cut_0 { FaultIs (cut_after 0) 1 Why.MissingWord }
    ensures cut_1 { FaultIs (cut_after 1) 2 Why.MissingWord }
    ensures cut_2 { FaultIs (cut_after 2) 3 Why.MissingWord }
    ensures cut_3 { FaultIs (cut_after 3) 4 Why.MissingWord }
    ensures cut_4 { ReadsAs (cut_after 4) (queue_alone []) }
    ensures cut_5 { ReadsAs (cut_after 5) (queue_alone queue_q) }
    ensures cut_6 { FaultIs (cut_after 6) 7 Why.MissingWord }
    ensures cut_7 { FaultIs (cut_after 7) 8 (Why.Fault Fault.BadBody) }
    ensures cut_8 { FaultIs (cut_after 8) 9 (Why.Fault Fault.BadBody) }
    ensures cut_9 { ReadsAs (cut_after 9) (one_work []) }
    ensures cut_10 { ReadsAs (cut_after 10) (one_work (actor_t [])) }
    ensures cut_11 { ReadsAs (cut_after 11) (one_work (actor_t (take 1 itself_lines))) }
    ensures cut_12 { ReadsAs (cut_after 12) (one_work (actor_t (take 2 itself_lines))) }
{}

/// A work is disabled and enabled by its name, as often as the line says.
pub fn disable_and_enable_are_read()
    ensures { ReadsAs (in_actor_t (codes "disable a * 2" ∷ codes "enable a" ∷ [])) (one_work (actor_t disabling_lines)) }
{}

/// A body delays, mods and cancels a work by its name, on no CPU of its own choice, after 0 to 1,000,000 ticks.
pub fn bodies_delay_mod_and_cancel()
    ensures read { ReadsAs (in_body_a (codes "delay a 0" ∷ codes "delay a 1000000" ∷ codes "mod a 7" ∷ codes "cancel a" ∷ codes "finish" ∷ [])) delaying_scenario }
    ensures listed { listing delaying_scenario ≡ in_body_a (codes "delay a 0" ∷ codes "delay a 1000000" ∷ codes "mod a 7" ∷ codes "cancel a" ∷ codes "finish" ∷ []) }
{}

/// The flag `mem_reclaim` stands beside any other, and memory pressure begins and ends by a word alone.
pub fn memory_is_told_of()
    ensures flag { ReadsAs (after_head (codes "queue q max 1 mem_reclaim ordered" ∷ [])) (record head_alone { queues = queue_with_memory }) }
    ensures listed { listing (record head_alone { queues = queue_with_memory }) ≡ after_head (codes "queue q max 1 ordered mem_reclaim" ∷ []) }
    ensures words { ReadsAs (in_actor_t (codes "pressure * 2" ∷ codes "relief" ∷ [])) (one_work (actor_t pressing_lines)) }
{}

/// A byte that isn't UTF-8 is the first fault of its line.
pub fn bad_byte_is_the_first_fault_of_its_line()
    ensures { FaultIs with_bad_byte 8 Why.BadUtf8 }
{}

/// In the head only the next of the four words can stand, and its number has its limits.
pub fn reasons_in_the_head()
    ensures no_first_word { FirstLineIs (codes "foo") Why.BadWord }
    ensures not_the_next { FirstLineIs (codes "workers 1") Why.Misplaced }
    ensures no_number { FirstLineIs (codes "cpus") Why.MissingWord }
    ensures no_digits { FirstLineIs (codes "cpus x") Why.BadNumber }
    ensures leading_zero { FirstLineIs (codes "cpus 01") Why.BadNumber }
    ensures eleven_digits { FirstLineIs (codes "cpus 10000000000") Why.BadNumber }
    ensures ten_digits { FirstLineIs (codes "cpus 9999999999") (Why.Fault Fault.Range) }
    ensures range_before_extra { FirstLineIs (codes "cpus 17 x") (Why.Fault Fault.Range) }
    ensures extra { FirstLineIs (codes "cpus 16 x") Why.ExtraWord }
{}

/// Of a queue the flags are judged before its `max`; a work's queue is declared.
pub fn reasons_in_declarations()
    ensures no_name { DeclaredIs (codes "queue") Why.MissingWord }
    ensures bad_name { DeclaredIs (codes "queue Q") Why.BadName }
    ensures duplicate_first { DeclaredIs (codes "queue q") (Why.Fault Fault.Duplicate) }
    ensures no_max { DeclaredIs (codes "queue r") Why.MissingWord }
    ensures not_max { DeclaredIs (codes "queue r 1") Why.BadWord }
    ensures no_number { DeclaredIs (codes "queue r max") Why.MissingWord }
    ensures no_digits { DeclaredIs (codes "queue r max x") Why.BadNumber }
    ensures eleven_digits { DeclaredIs (codes "queue r max 10000000000") Why.BadNumber }
    ensures ten_digits { DeclaredIs (codes "queue r max 9999999999") (Why.Fault Fault.BadFlags) }
    ensures max_0 { DeclaredIs (codes "queue r max 0") (Why.Fault Fault.BadFlags) }
    ensures max_513 { DeclaredIs (codes "queue r max 513") (Why.Fault Fault.BadFlags) }
    ensures no_flag { DeclaredIs (codes "queue r max 0 fast") Why.BadWord }
    ensures flag_twice { DeclaredIs (codes "queue r max 0 highpri unbound highpri") (Why.Fault Fault.Duplicate) }
    ensures ordered { DeclaredIs (codes "queue r max 2 ordered") (Why.Fault Fault.BadFlags) }
    ensures mem_reclaim_twice { DeclaredIs (codes "queue r max 1 mem_reclaim mem_reclaim") (Why.Fault Fault.Duplicate) }
    ensures no_queue { DeclaredIs (codes "work a") Why.MissingWord }
    ensures bad_queue { DeclaredIs (codes "work a Q") Why.BadName }
    ensures unknown_queue { DeclaredIs (codes "work a r") (Why.Fault Fault.Unknown) }
    ensures extra { DeclaredIs (codes "work a q q") Why.ExtraWord }
    ensures no_body_yet { DeclaredIs (codes "body a") Why.Misplaced }
    ensures no_operation_yet { DeclaredIs (codes "burn 1") Why.Misplaced }
{}

/// A body's operations; only `finish` ends the body.
pub fn reasons_in_bodies()
    ensures actor { InBodyIs (codes "actor t") (Why.Fault Fault.BadBody) }
    ensures body { InBodyIs (codes "body b") (Why.Fault Fault.BadBody) }
    ensures no_operation { InBodyIs (codes "freeze") Why.Misplaced }
    ensures disable { InBodyIs (codes "disable a") Why.Misplaced }
    ensures pressure { InBodyIs (codes "pressure") Why.Misplaced }
    ensures no_word { InBodyIs (codes "meet a") Why.BadWord }
    ensures no_ticks { InBodyIs (codes "burn 0") (Why.Fault Fault.Range) }
    ensures too_many_ticks { InBodyIs (codes "sleep 1000001") (Why.Fault Fault.Range) }
    ensures unknown { InBodyIs (codes "queue c 0") (Why.Fault Fault.Unknown) }
    ensures no_cpu { InBodyIs (codes "queue b") Why.MissingWord }
    ensures cpu { InBodyIs (codes "queue b 1") (Why.Fault Fault.Range) }
    ensures times { InBodyIs (codes "queue b 0 * 2") Why.ExtraWord }
    ensures delay_unknown { InBodyIs (codes "delay c 1000001") (Why.Fault Fault.Unknown) }
    ensures delay_no_ticks { InBodyIs (codes "delay b") Why.MissingWord }
    ensures delay_too_many_ticks { InBodyIs (codes "delay b 1000001") (Why.Fault Fault.Range) }
    ensures delay_cpu { InBodyIs (codes "delay b 0 5") Why.ExtraWord }
    ensures mod_unknown { InBodyIs (codes "mod c 0") (Why.Fault Fault.Unknown) }
    ensures mod_too_many_ticks { InBodyIs (codes "mod b 1000001") (Why.Fault Fault.Range) }
    ensures cancel_nothing { InBodyIs (codes "cancel") Why.MissingWord }
    ensures cancel_unknown { InBodyIs (codes "cancel c") (Why.Fault Fault.Unknown) }
    ensures cancel_extra { InBodyIs (codes "cancel b 0") Why.ExtraWord }
    ensures extra { InBodyIs (codes "finish 1") Why.ExtraWord }
{}

/// Bodies stand in the order of declaration, and all of them before the actors.
pub fn reasons_after_a_body()
    ensures unknown { AfterBodyIs (codes "body c") (Why.Fault Fault.Unknown) }
    ensures had_it { AfterBodyIs (codes "body a") Why.Misplaced }
    ensures actor { AfterBodyIs (codes "actor t") Why.Misplaced }
    ensures queue { AfterBodyIs (codes "queue r max 1") Why.Misplaced }
    ensures work { AfterBodyIs (codes "work c q") Why.Misplaced }
{}

/// An actor's line: an instruction, and how often it stands.
pub fn reasons_in_actors()
    ensures duplicate { InActorIs (codes "actor t") (Why.Fault Fault.Duplicate) }
    ensures no_instruction { InActorIs (codes "burn 1") Why.Misplaced }
    ensures body { InActorIs (codes "body a") Why.Misplaced }
    ensures unknown { InActorIs (codes "cancel b") (Why.Fault Fault.Unknown) }
    ensures disable { InActorIs (codes "disable") Why.MissingWord }
    ensures enable { InActorIs (codes "enable b") (Why.Fault Fault.Unknown) }
    ensures pressure { InActorIs (codes "pressure 1") Why.ExtraWord }
    ensures relief { InActorIs (codes "relief a") Why.ExtraWord }
    ensures unknown_queue { InActorIs (codes "flush_queue a") (Why.Fault Fault.Unknown) }
    ensures cpu { InActorIs (codes "queue a 256") (Why.Fault Fault.Range) }
    ensures ticks { InActorIs (codes "delay a 255 4294967296") (Why.Fault Fault.Range) }
    ensures no_ticks { InActorIs (codes "mod a 0") Why.MissingWord }
    ensures pool { InActorIs (codes "step 256") (Why.Fault Fault.Range) }
    ensures flush { InActorIs (codes "ask 65536") (Why.Fault Fault.Range) }
    ensures max { InActorIs (codes "set_max q 4294967296") (Why.Fault Fault.Range) }
    ensures extra { InActorIs (codes "next 8") Why.ExtraWord }
    ensures no_times { InActorIs (codes "next *") Why.MissingWord }
    ensures times_0 { InActorIs (codes "next * 0") (Why.Fault Fault.Range) }
    ensures too_many_times { InActorIs (codes "next * 65536") (Why.Fault Fault.Range) }
    ensures bad_times { InActorIs (codes "next * x") Why.BadNumber }
    ensures extra_times { InActorIs (codes "next * 2 *") Why.ExtraWord }
{}

/// One actor, or one operation that isn't `finish`, over its limit is too many.
pub fn one_over_a_limit_is_too_many()
    ensures actors { ReadsAs (after_head sixteen_actor_lines) (record head_alone { actors = sixteen_actors }) }
    ensures actor { FaultIs (after_head (sixteen_actor_lines ++ codes "actor t" ∷ [])) 21 (Why.Fault Fault.TooMany) }
    ensures operation { FaultIs (after_head (long_body ++ codes "burn 1" ∷ [])) 71 (Why.Fault Fault.TooMany) }
    ensures finish { FaultIs (after_head (long_body ++ codes "finish" ∷ codes "finish" ∷ [])) 72 Why.Misplaced }
{}

/// After the head a queue or an actor may stand, but no work yet; in a body any operation, and with one left only `finish`.
pub fn lines_go_on_with_what_has_room()
    ensures head { OfferedAre head_lines (codes "queue" ∷ codes "actor" ∷ []) }
    ensures body { OfferedAre (head_lines ++ codes "queue q max 1" ∷ codes "work a q" ∷ codes "body a" ∷ [])
        (codes "burn" ∷ codes "sleep" ∷ codes "queue" ∷ codes "delay" ∷ codes "mod" ∷ codes "cancel" ∷ codes "finish" ∷ []) }
    ensures operation { OfferedAre (head_lines ++ long_body) (codes "finish" ∷ []) }
{}
