//! What a play leaves can be run: the law is the contract of a function with an empty body.
ghost use Rattle.cmwq_engine.specs.History.{instrs_of};
ghost use Rattle.cmwq_engine.specs.declared.history.Entry.{Entry};
ghost use Rattle.cmwq_play.specs.PlayTexts.{IsRun};
ghost use Rattle.cmwq_interleaving.specs.Played.{played};
ghost use Rattle.cmwq_interleaving.specs.Plays.{IsLeft};
ghost use Rattle.cmwq_table.specs.Events.{events};
ghost use Rattle.cmwq_types.specs.Contents.{ScenarioContents};
ghost use Rattle.cmwq_types.specs.declared.limits.TheConstants.{MAX_HISTORY};
ghost use Rattle.std.specs.Prelude.{◌≤◌, ℕ, List, Some, length};

/// Whoever runs the text that a play leaves gets the lines that stand in it: those that the history's instructions print.
pub fn text_of_a_play_prints_its_lines()
    ensures { (S : ScenarioContents) (history : List Entry) (text : List ℕ) → IsLeft S history text → length history ≤ MAX_HISTORY
        → IsRun (Some text) (events (played S (instrs_of history)) (instrs_of history)) }
{}
