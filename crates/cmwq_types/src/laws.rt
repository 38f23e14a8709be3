//! Laws: each is the contract of a function with an empty body.
ghost use Rattle.cmwq_types.specs.Contents.{ScenarioContents};
ghost use Rattle.cmwq_types.specs.Faults.{fault_unless, names_declared, op_fault, or_else, within};
ghost use Rattle.cmwq_types.specs.Fields.{fields_of, instr_of, queue_id, shape_of, used, word_of, work_id};
ghost use Rattle.cmwq_types.specs.Listing.{instr_words, op_line};
ghost use Rattle.cmwq_types.specs.Listing.WrittenLine.{Words};
ghost use Rattle.cmwq_types.specs.Operations.{op_fields_of, op_shape_of, op_with, op_word_of};
ghost use Rattle.cmwq_types.specs.Scenario.{queue_at, work_at};
ghost use Rattle.cmwq_types.specs.declared.check.Fault.TheVariants as fault;
ghost use Rattle.cmwq_types.specs.declared.fields.Fields.{Fields};
ghost use Rattle.cmwq_types.specs.declared.instr.Instr.TheVariants as instr;
ghost use Rattle.cmwq_types.specs.declared.instr.Instr.{Instr};
ghost use Rattle.cmwq_types.specs.declared.limits.TheConstants.{MAX_TICKS};
ghost use Rattle.cmwq_types.specs.declared.mnemonic.Mnemonic.{Mnemonic};
ghost use Rattle.cmwq_types.specs.declared.operation.OpWord.{OpWord};
ghost use Rattle.cmwq_types.specs.declared.scenario.Op.TheVariants as op;
ghost use Rattle.cmwq_types.specs.declared.scenario.Op.{Op};
ghost use Rattle.std.specs.Fmt.{decimal};
ghost use Rattle.std.specs.Prelude.{◌≡◌, ◌∷◌, [], ℕ, codes, length, nat_le, nat_lt};

/// An instruction is that of its word and its operands, and the instruction of a word and operands has this word and,
/// of the operands, those of the word's shape.
#[tactic(auto, using(crate::proofs::FieldLemmas::instr_again, crate::proofs::FieldLemmas::word_again, crate::proofs::FieldLemmas::fields_again))]
pub fn instructions_are_their_fields()
    ensures instr { (i : Instr) → instr_of (word_of i) (fields_of i) ≡ i }
    ensures word { (m : Mnemonic) (f : Fields) → word_of (instr_of m f) ≡ m }
    ensures fields { (m : Mnemonic) (f : Fields) → fields_of (instr_of m f) ≡ used (shape_of m) f }
{}

/// An operation is that of its word and its operands, and the operation of a word and operands has this word and,
/// of the operands, those of the word's shape.
#[tactic(auto, using(crate::proofs::FieldLemmas::op_again, crate::proofs::FieldLemmas::op_word_again, crate::proofs::FieldLemmas::op_fields_again))]
pub fn operations_are_their_fields()
    ensures op { (o : Op) → op_with (op_word_of o) (op_fields_of o) ≡ o }
    ensures word { (m : OpWord) (f : Fields) → op_word_of (op_with m f) ≡ m }
    ensures fields { (m : OpWord) (f : Fields) → op_fields_of (op_with m f) ≡ used (op_shape_of m) f }
{}

/// What the shapes say of an operation of each: its line in a listing, and its fault.
pub fn operations_are_listed_by_shape()
    ensures alone { (S : ScenarioContents) → op_line S op.Finish ≡ Words (codes "finish" ∷ []) }
    ensures ticks { (S : ScenarioContents) (ticks : ℕ) → op_line S (op.Burn ticks) ≡ Words (codes "burn" ∷ decimal ticks ∷ []) }
    ensures work { (S : ScenarioContents) (w : ℕ) → op_line S (op.Cancel (work_id w)) ≡ Words (codes "cancel" ∷ (work_at S w).name ∷ []) }
    ensures work_cpu { (S : ScenarioContents) (w cpu : ℕ) → op_line S (op.Queue (work_id w) cpu) ≡ Words (codes "queue" ∷ (work_at S w).name ∷ decimal cpu ∷ []) }
    ensures work_ticks { (S : ScenarioContents) (w ticks : ℕ) → op_line S (op.Delay (work_id w) ticks) ≡ Words (codes "delay" ∷ (work_at S w).name ∷ decimal ticks ∷ []) }
    ensures ticks_fault { (S : ScenarioContents) (ticks : ℕ) → op_fault S (op.Sleep ticks) ≡ fault_unless (within 1 MAX_TICKS ticks) fault.Range }
    ensures work_fault { (S : ScenarioContents) (w : ℕ) → op_fault S (op.Cancel (work_id w)) ≡ fault_unless (nat_lt w (length S.works)) fault.Unknown }
    ensures work_cpu_fault { (S : ScenarioContents) (w cpu : ℕ)
        → op_fault S (op.Queue (work_id w) cpu) ≡ or_else (fault_unless (nat_lt w (length S.works)) fault.Unknown) (fault_unless (nat_lt cpu S.cpus) fault.Range) }
    ensures work_ticks_fault { (S : ScenarioContents) (w ticks : ℕ)
        → op_fault S (op.Mod (work_id w) ticks) ≡ or_else (fault_unless (nat_lt w (length S.works)) fault.Unknown) (fault_unless (nat_le ticks MAX_TICKS) fault.Range) }
{}

/// What the shapes say of an instruction of each: its words in a listing, and whether what it names is declared.
pub fn instructions_are_listed_by_shape()
    ensures alone { (S : ScenarioContents) → instr_words S instr.Freeze ≡ codes "freeze" ∷ [] }
    ensures work { (S : ScenarioContents) (w : ℕ) → instr_words S (instr.Cancel (work_id w)) ≡ codes "cancel" ∷ (work_at S w).name ∷ [] }
    ensures work_cpu { (S : ScenarioContents) (w cpu : ℕ) → instr_words S (instr.Queue (work_id w) cpu) ≡ codes "queue" ∷ (work_at S w).name ∷ decimal cpu ∷ [] }
    ensures work_cpu_ticks { (S : ScenarioContents) (w cpu ticks : ℕ)
        → instr_words S (instr.Delay (work_id w) cpu ticks) ≡ codes "delay" ∷ (work_at S w).name ∷ decimal cpu ∷ decimal ticks ∷ [] }
    ensures queue { (S : ScenarioContents) (q : ℕ) → instr_words S (instr.FlushQueue (queue_id q)) ≡ codes "flush_queue" ∷ (queue_at S q).name ∷ [] }
    ensures queue_number { (S : ScenarioContents) (q max : ℕ)
        → instr_words S (instr.SetMax (queue_id q) max) ≡ codes "set_max" ∷ (queue_at S q).name ∷ decimal max ∷ [] }
    ensures pool { (S : ScenarioContents) (pool : ℕ) → instr_words S (instr.Step pool) ≡ codes "step" ∷ decimal pool ∷ [] }
    ensures flush { (S : ScenarioContents) (flush : ℕ) → instr_words S (instr.Ask flush) ≡ codes "ask" ∷ decimal flush ∷ [] }
    ensures time { (S : ScenarioContents) (time : ℕ) → instr_words S (instr.Until time) ≡ codes "until" ∷ decimal time ∷ [] }
    ensures work_declared { (S : ScenarioContents) (w cpu : ℕ) → names_declared S (instr.Queue (work_id w) cpu) ≡ nat_lt w (length S.works) }
    ensures queue_declared { (S : ScenarioContents) (q : ℕ) → names_declared S (instr.FlushQueue (queue_id q)) ≡ nat_lt q (length S.queues) }
{}
