//! The laws of texts, each the contract of a function with an empty body.
ghost use Rattle.cmwq_grammar.specs.Comments.{comments, listing_room};
ghost use Rattle.cmwq_grammar.specs.FaultLaw.{Begins, IsFault};
ghost use Rattle.cmwq_grammar.specs.Grammar.{Spells};
ghost use Rattle.cmwq_grammar.specs.Instructions.{Makes, OfNumber, OfQueue, OfWork, operands_of};
ghost use Rattle.cmwq_grammar.specs.Meaning.{FaultAt, reads};
ghost use Rattle.cmwq_grammar.specs.Offers.{GoesOnWith, IsNextAfter, words_of_next};
ghost use Rattle.cmwq_grammar.specs.declared.next.Next.{Next};
ghost use Rattle.cmwq_types.specs.Contents.{ScenarioContents};
ghost use Rattle.cmwq_types.specs.Faults.{IsValid};
ghost use Rattle.cmwq_types.specs.Listing.{listing};
ghost use Rattle.cmwq_types.specs.Values.{IsScenario};
ghost use Rattle.cmwq_types.specs.declared.instr.Instr.TheVariants as instr;
ghost use Rattle.cmwq_types.specs.declared.limits.TheConstants.{MAX_TEXT};
ghost use Rattle.cmwq_types.specs.declared.mnemonic.Mnemonic.TheVariants as mnemonic;
ghost use Rattle.std.specs.List.{list_any};
ghost use Rattle.std.specs.Prelude.{◌≡◌, ◌≤◌, ◌+◌, ◌↔◌, ◌++◌, ℕ, Err, IsTrue, List, Ok, length};
ghost use Rattle.std.specs.Str.{IsUtf8, bytes_eq};

/// What is read is spelled so: a text that reads as a scenario spells it.
pub fn read_text_spells_its_scenario()
    ensures { (text : List ℕ) (S : ScenarioContents) → reads text ≡ Ok S → Spells text S }
{}

/// What is spelled so is read: a text that spells a scenario reads as it.
pub fn spelled_text_reads_as_its_scenario()
    ensures { (text : List ℕ) (S : ScenarioContents) → Spells text S → reads text ≡ Ok S }
{}

/// A text spells one scenario at most.
pub fn text_spells_one_scenario()
    ensures { (text : List ℕ) (S T : ScenarioContents) → Spells text S → Spells text T → S ≡ T }
{}

/// The listing of a valid scenario spells it, and so reads as it. So each such listing has room in a text.
pub fn listing_spells_its_scenario()
    ensures spelled { (S : ScenarioContents) → IsValid S → IsScenario S → Spells (listing S) S }
    ensures read { (S : ScenarioContents) → IsValid S → IsScenario S → reads (listing S) ≡ Ok S }
{}

/// Comments may follow a listing, as far as a text has room for them: the whole spells the same scenario. A listing leaves room
/// by how many actors it has.
pub fn comments_may_follow_a_listing()
    ensures room { (S : ScenarioContents) → IsValid S → IsScenario S → length (listing S) ≤ listing_room (length S.actors) }
    ensures spelled { (S : ScenarioContents) (notes : List ℕ) → IsValid S → IsScenario S → IsUtf8 (comments notes)
        → length (comments notes) + listing_room (length S.actors) ≤ MAX_TEXT → Spells (listing S ++ comments notes) S }
{}

/// Where reading fails is the first fault of the text: the first line such that no scenario's text begins with
/// the lines up to it, for the table's reason; or the end, where a text may not end there.
pub fn reading_fails_at_the_first_fault()
    ensures { (text : List ℕ) (fault : FaultAt) → reads text ≡ Err fault ↔ IsFault text fault }
{}

/// After lines with which some scenario's text begins, the table has just the words that a further line may begin with: those with
/// which some scenario's text goes on.
pub fn table_has_the_words_that_go_on()
    ensures there { (lines : List (List ℕ)) → Begins lines → (next : Next) × IsNextAfter lines next }
    ensures words { (lines : List (List ℕ)) (next : Next) (word : List ℕ) → Begins lines → IsNextAfter lines next
        → IsTrue (list_any (bytes_eq word) (words_of_next next)) ↔ GoesOnWith lines word }
{}

/// What stands behind a word of each shape, and the instruction that it makes.
pub fn operands_go_by_the_shape()
    ensures alone { operands_of mnemonic.Freeze ≡ Makes instr.Freeze }
    ensures work { operands_of mnemonic.Cancel ≡ OfWork (λ w. Makes (instr.Cancel w)) }
    ensures work_cpu { operands_of mnemonic.Queue ≡ OfWork (λ w. OfNumber 255 (λ cpu. Makes (instr.Queue w cpu))) }
    ensures work_cpu_ticks { operands_of mnemonic.Delay ≡ OfWork (λ w. OfNumber 255 (λ cpu. OfNumber 4294967295 (λ ticks. Makes (instr.Delay w cpu ticks)))) }
    ensures queue { operands_of mnemonic.FlushQueue ≡ OfQueue (λ q. Makes (instr.FlushQueue q)) }
    ensures queue_number { operands_of mnemonic.SetMax ≡ OfQueue (λ q. OfNumber 4294967295 (λ max. Makes (instr.SetMax q max))) }
    ensures pool { operands_of mnemonic.Step ≡ OfNumber 255 (λ pool. Makes (instr.Step pool)) }
    ensures flush { operands_of mnemonic.Ask ≡ OfNumber 65535 (λ flush. Makes (instr.Ask flush)) }
{}
