//! What being quiet means, and what settling keeps: each function's contract is a law. The functions do nothing.
ghost use Rattle.cmwq_play.specs.PlayTexts.{IsRun};
ghost use Rattle.cmwq_settle.specs.Quiet.{NeverQuiet, Settles};
ghost use Rattle.cmwq_table.specs.Counts.{is_quiet};
ghost use Rattle.cmwq_settle.specs.Settling.{IsSettledRun, IsSettledText};
ghost use Rattle.cmwq_table.specs.Table.{run};
ghost use Rattle.cmwq_types.specs.Contents.{ScenarioContents};
ghost use Rattle.cmwq_types.specs.Faults.{IsValid};
ghost use Rattle.cmwq_types.specs.declared.instr.Instr.{Instr};
ghost use Rattle.cmwq_types.specs.declared.instr.Instr.TheVariants as instr;
ghost use Rattle.cmwq_types.specs.declared.limits.TheConstants.{MAX_HISTORY};
ghost use Rattle.std.specs.Prelude.{◌≡◌, ◌≤◌, ◌+◌, ◌⊎◌, ◌++◌, ℕ, List, Some, false, length, replicate, true};

use cmwq_grammar::laws::{listing_spells_its_scenario, text_spells_one_scenario};

/// Either the machine is quiet after a least number of `next`, or it never is, and not both. There is one such number at most.
pub fn machine_settles_or_never_is_quiet()
    ensures either { (S : ScenarioContents) (instrs : List Instr) → ((n : ℕ) × Settles S instrs n) ⊎ NeverQuiet S instrs }
    ensures not_both { (S : ScenarioContents) (instrs : List Instr) (n : ℕ) → Settles S instrs n → NeverQuiet S instrs → ⊥ }
    ensures one { (S : ScenarioContents) (instrs : List Instr) (m n : ℕ) → Settles S instrs m → Settles S instrs n → m ≡ n }
{}

/// No number of `next` at all, within the instructions that one run issues, makes a machine quiet earlier than the least one, nor one
/// that never is quiet: a `next` that is refused since the steps are spent changes nothing.
pub fn spent_steps_make_no_machine_quiet()
    ensures least { (S : ScenarioContents) (instrs : List Instr) (n : ℕ) → IsValid S → length instrs + n ≤ MAX_HISTORY
        → is_quiet S (run S (instrs ++ replicate n instr.Next)) ≡ true → (k : ℕ) × Settles S instrs k × (k ≤ n) }
    ensures never { (S : ScenarioContents) (instrs : List Instr) (n : ℕ) → IsValid S → length instrs + n ≤ MAX_HISTORY
        → NeverQuiet S instrs → is_quiet S (run S (instrs ++ replicate n instr.Next)) ≡ false }
{}

/// Whoever runs what `settle_text` writes of a text gets the lines that `run_settled` writes of it.
pub fn settled_text_prints_the_settled_run()
    ensures { (text written printed : List ℕ) → IsSettledText (Some text) written → IsSettledRun (Some text) printed → IsRun (Some written) printed }
{
    listing_spells_its_scenario();
    text_spells_one_scenario();
}
