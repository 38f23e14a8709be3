//! What requests put where.
ghost use Rattle.cmwq_actors.specs.Interleaving.{Interleaves, scripts_of};
ghost use Rattle.cmwq_command.specs.Carried.{HasCarriedOut, Store};
ghost use Rattle.cmwq_command_examples.specs.Examples.{DebugsOnFirst, HasWords, LeadsOnFirst, Path, Puts, PutsNothing, TaskFindsNoFault, TaskPuts};
ghost use Rattle.cmwq_command_line.specs.CommandLine.{version_line};
ghost use Rattle.cmwq_debug_lines.specs.declared.manner.Manner.{Manner};
ghost use Rattle.cmwq_debug_session.specs.Told.{IsDebugged};
ghost use Rattle.cmwq_draw.specs.Drawn.{IsDrawing};
ghost use Rattle.cmwq_explain.specs.Explained.{AreChanges};
ghost use Rattle.cmwq_grammar.specs.Grammar.{Spells};
ghost use Rattle.cmwq_image.specs.Versions.{IsImageOf};
ghost use Rattle.cmwq_interleaving.specs.Plays.{IsFull, Left};
ghost use Rattle.cmwq_request.specs.Request.{request_words};
ghost use Rattle.cmwq_language.specs.Page.{language_page};
ghost use Rattle.cmwq_settle.specs.Settled.{IsSettledIf};
ghost use Rattle.cmwq_settle.specs.Settling.{IsFollowedOutput, IsSettledListing};
ghost use Rattle.cmwq_outcome.specs.Starter.{first_lines, first_scenario};
ghost use Rattle.cmwq_streams.specs.declared.error.PlayError.TheVariants as errors;
ghost use Rattle.cmwq_drawing.specs.declared.drawing.Drawing.{Drawing};
ghost use Rattle.cmwq_question.specs.declared.question.Inquiry.{Inquiry};
ghost use Rattle.cmwq_tell.specs.RunTold.{IsToldIf};
ghost use Rattle.cmwq_types.specs.Contents.{ScenarioContents};
ghost use Rattle.cmwq_types.specs.Listing.{listing};
ghost use Rattle.cmwq_verdict.specs.declared.looks.Look.{Look};
ghost use Rattle.std.specs.Io.KnownBytes.{Appends};
ghost use Rattle.std.specs.Prelude.{◌≡◌, ◌∷◌, [], ℕ, Bool, Err, List, None, Ok, Option, Some, codes, false, true};

use cmwq_grammar::laws::text_spells_one_scenario;
use cmwq_outcome::first_scenario_prints;
use cmwq_reports::{Format, TraceForm};
use cmwq_request::request::Request;
use cmwq_tasks::{RunKind, Task};

/// The words of each request: the command's, and then the file's.
pub fn each_request_has_its_words()
    ensures run { HasWords (λ file. Request.Do file (Task.Run RunKind.Plain)) (λ name. codes "run" ∷ name ∷ []) }
    ensures settled { HasWords (λ file. Request.Do file (Task.Run RunKind.Settled)) (λ name. codes "run" ∷ codes "--settle" ∷ name ∷ []) }
    ensures told { HasWords (λ file. Request.Do file (Task.Run RunKind.Told)) (λ name. codes "run" ∷ codes "--tell" ∷ name ∷ []) }
    ensures both { HasWords (λ file. Request.Do file (Task.Run RunKind.ToldSettled)) (λ name. codes "run" ∷ codes "--settle" ∷ codes "--tell" ∷ name ∷ []) }
    ensures settle { HasWords (λ file. Request.Do file Task.Settle) (λ name. codes "settle" ∷ name ∷ []) }
    ensures list { HasWords (λ file. Request.Do file Task.List) (λ name. codes "list" ∷ name ∷ []) }
    ensures times { HasWords (λ file. Request.Do file (Task.Times (record { format = Format.Json; whom = true }))) (λ name. codes "times" ∷ codes "--json" ∷ codes "--whom" ∷ name ∷ []) }
    ensures trace { HasWords (λ file. Request.Do file (Task.Trace TraceForm.Json)) (λ name. codes "trace" ∷ codes "--json" ∷ name ∷ []) }
    ensures text { HasWords (λ file. Request.Do file (Task.Trace TraceForm.Text)) (λ name. codes "trace" ∷ codes "--text" ∷ name ∷ []) }
    ensures show { HasWords (λ file. Request.Do file Task.Show) (λ name. codes "show" ∷ name ∷ []) }
    ensures debug { HasWords (λ file. Request.Debug file false) (λ name. codes "debug" ∷ name ∷ []) }
    ensures settled_debug { HasWords (λ file. Request.Debug file true) (λ name. codes "debug" ∷ codes "--settle" ∷ name ∷ []) }
    ensures play { HasWords (λ file. Request.Play file 7) (λ name. codes "play" ∷ name ∷ codes "--capacity" ∷ codes "7" ∷ []) }
    ensures new { request_words (Request.New None) ≡ codes "new" ∷ [] }
    ensures language { request_words Request.Language ≡ codes "help" ∷ codes "scenario" ∷ [] }
    ensures version { request_words Request.Version ≡ codes "--version" ∷ [] }
{}

/// A task on a file that has the first scenario's text puts on the output what the task is for, and nothing on the writer for faults.
pub fn tasks_put_what_they_come_to()
    ensures run { TaskPuts (Task.Run RunKind.Plain) (λ text. text ≡ first_lines) }
    ensures settled { TaskPuts (Task.Run RunKind.Settled) (λ text. IsFollowedOutput first_scenario text) }
    ensures told { TaskPuts (Task.Run RunKind.Told) (λ text. IsToldIf false first_scenario text) }
    ensures both { TaskPuts (Task.Run RunKind.ToldSettled) (λ text. IsToldIf true first_scenario text) }
    ensures settle { TaskPuts Task.Settle (λ text. IsSettledListing first_scenario text) }
    ensures list { TaskPuts Task.List (λ text. text ≡ listing first_scenario) }
    ensures draw { (drawing : Drawing) → TaskPuts (Task.Draw drawing) (λ text. IsDrawing drawing first_scenario text) }
    ensures why { (inquiry : Inquiry) → TaskPuts (Task.Why inquiry) (λ text. AreChanges inquiry first_scenario text) }
{
    text_spells_one_scenario();
    first_scenario_prints();
}

/// The image of a scenario is shown as its listing.
#[tactic(auto, using(crate::proofs::RequestLemmas::show_puts))]
pub fn shown_image_is_listed()
    ensures { (store : Store) (file : Path) (bytes : List ℕ) → store file.now ≡ Some bytes
        → Puts store (Request.Do file Task.Show) (λ text. (S : ScenarioContents) × IsImageOf bytes S × (text ≡ listing S)) }
{}

/// No fault is told of a good text by what lists or runs it.
pub fn good_texts_have_no_fault()
    ensures run { TaskFindsNoFault (Task.Run RunKind.Plain) }
    ensures told { TaskFindsNoFault (Task.Run RunKind.Told) }
    ensures list { TaskFindsNoFault Task.List }
{}

/// What a debugger says and what a play leaves go to the output too, what a play leaves also where its history is full.
pub fn debuggers_and_plays_put_what_they_come_to()
    ensures debug { (manner : Manner) (settle : Bool) → DebugsOnFirst manner settle
        (λ input output output_now. (T : ScenarioContents) × IsSettledIf settle first_scenario T × IsDebugged manner input output output_now T) }
    ensures play { (capacity : ℕ) → LeadsOnFirst (λ file. Request.Play file capacity) (Ok 0)
        (λ input output output_now. Left first_scenario (λ history. Interleaves (scripts_of first_scenario) history) output output_now) }
    ensures full { (capacity : ℕ) → LeadsOnFirst (λ file. Request.Play file capacity) (Err errors.Full)
        (λ input output output_now. Left first_scenario (λ history. IsFull first_scenario capacity history) output output_now) }
{
    text_spells_one_scenario();
}

/// So do a new scenario, the page on scenarios and the version.
#[tactic(auto, using(crate::proofs::RequestLemmas::new_puts, crate::proofs::RequestLemmas::language_puts, crate::proofs::RequestLemmas::version_puts))]
pub fn new_and_version_go_to_the_output()
    ensures new { (store : Store) → Puts store (Request.New None) (λ text. Spells text first_scenario) }
    ensures language { (store : Store) → Puts store Request.Language (λ text. text ≡ language_page) }
    ensures version { (store : Store) (look : Look) (manner : Manner) (logic : List ℕ) (input output output_now errors errors_now : Option (List ℕ)) (failed : Bool)
        → HasCarriedOut store look manner logic input output output_now errors errors_now failed Request.Version (Ok 0)
        → (errors_now ≡ errors) × Appends output output_now (version_line logic) }
{}

/// What goes to a file goes to no stream.
#[tactic(auto, using(crate::proofs::RequestLemmas::new_file_puts, crate::proofs::RequestLemmas::asm_puts))]
pub fn requests_for_files_put_nothing()
    ensures new { (store : Store) (file : Path) → PutsNothing store (Request.New (Some file)) }
    ensures asm { (store : Store) (file out : Path) → PutsNothing store (Request.Asm file out) }
{}
