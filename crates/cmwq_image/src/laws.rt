//! Laws of images, each the contract of a function with an empty body.
ghost use Rattle.cmwq_image.specs.FaultMeaning.{Means};
ghost use Rattle.cmwq_image.specs.Image.{image, instr_word, op_word, word};
ghost use Rattle.cmwq_image.specs.ImageFault.{GivesRead, reading};
ghost use Rattle.cmwq_image.specs.Limits.{AreBytes, HasSize};
ghost use Rattle.cmwq_image.specs.Versions.{BodiesNeverDelay, HasVersion, IsImageOf, MemoryIsAmple, NeverDisables, NeverGoesOn};
ghost use Rattle.cmwq_types.specs.Values.{IsScenario};
ghost use Rattle.cmwq_image.specs.Worked.{beginning_with, disabling_scenario, ending_with, in_version, reclaiming_scenario, with_op_tag, worked_image, worked_scenario};
ghost use Rattle.cmwq_image.specs.declared.error.ImageError.{ImageError};
ghost use Rattle.cmwq_image.specs.declared.error.ImageError.TheVariants as errors;
ghost use Rattle.cmwq_image.specs.declared.version.TheConstants.{FIRST_VERSION, SECOND_VERSION, THIRD_VERSION, VERSION};
ghost use Rattle.cmwq_types.specs.Contents.{ScenarioContents};
ghost use Rattle.cmwq_types.specs.Faults.{IsValid};
ghost use Rattle.cmwq_types.specs.Fields.{queue_id, work_id};
ghost use Rattle.cmwq_types.specs.declared.check.Fault.TheVariants.{Range, Unknown};
ghost use Rattle.cmwq_types.specs.declared.instr.Instr.TheVariants as instr;
ghost use Rattle.cmwq_types.specs.declared.scenario.Op.TheVariants as op;
ghost use Rattle.std.specs.Prelude.{◌≡◌, ◌↔◌, ◌≤◌, ◌<◌, ◌++◌, ◌∷◌, [], Err, List, Ok, length, slice_set, take, ℕ};

use crate::error::ImageError;
use crate::image_reading::read;
use crate::writing::write;
use cmwq_types::Scenario;
use std::alloc::Global;

/// Bytes are read as a scenario exactly where they are its image, of whichever version, and it is valid.
pub fn images_are_read()
    ensures { (bytes : List ℕ) (S : ScenarioContents) → AreBytes bytes → (reading bytes ≡ Ok S) ↔ (IsScenario S × IsValid S × IsImageOf bytes S) }
{}

/// What is written in a version that has the scenario's flags, operations and instructions is read again.
#[tactic(auto, using(crate::proofs::ReadingLemmas::reading_again))]
pub fn written_is_read()
    ensures { (S : ScenarioContents) (version : ℕ) → IsScenario S → IsValid S → HasVersion S version → reading (image version S) ≡ Ok S }
{}

/// The version that is written has each scenario's flags, operations and instructions. The third one has them exactly
/// where no actor gives `until`, `wait` or `quiet` and no body delays, mods or cancels a work; the second one exactly
/// where besides no queue has the flag `mem_reclaim` and no actor gives `pressure` or `relief`; the first one exactly
/// where besides no actor disables or enables a work.
pub fn versions_of_a_scenario()
    ensures newest { (S : ScenarioContents) → HasVersion S VERSION }
    ensures third { (S : ScenarioContents) → HasVersion S THIRD_VERSION ↔ (NeverGoesOn S × BodiesNeverDelay S) }
    ensures second { (S : ScenarioContents) → HasVersion S SECOND_VERSION ↔ (NeverGoesOn S × BodiesNeverDelay S × MemoryIsAmple S) }
    ensures first { (S : ScenarioContents) → HasVersion S FIRST_VERSION ↔ (NeverGoesOn S × BodiesNeverDelay S × MemoryIsAmple S × NeverDisables S) }
{}

/// Writes the scenario and reads it again: it comes back, unless memory runs out. This stands on what `write`
/// and `read` say and on nothing else of them.
#[tactic(auto, using(crate::proofs::VersionLemmas::newest_image))]
pub fn read_back(alloc: Global, scenario: &Scenario) -> Result<Scenario, ImageError>
    requires { IsValid scenario.now }
    ensures { GivesRead (λ again. again) result (Ok scenario.now) }
{
    let bytes = write(alloc, scenario)?;
    read(alloc, &bytes)
}

/// Each image is that of one scenario, whatever its version. The scenarios needn't be valid, but have no more parts
/// than an image can have, and no empty body.
pub fn image_has_one_scenario()
    ensures { (bytes : List ℕ) (S T : ScenarioContents) → IsScenario S → HasSize S → IsScenario T → HasSize T → IsImageOf bytes S → IsImageOf bytes T → S ≡ T }
{}

/// What each fault says of the bytes, in words of images alone.
#[tactic(auto, using(crate::proofs::ReadingLemmas::means))]
pub fn faults_have_meanings()
    ensures { (bytes : List ℕ) (fault : ImageError) → AreBytes bytes → reading bytes ≡ Err fault → Means bytes fault }
{}

/// No image is longer than 923,058 bytes. The scenario needn't be valid, but has no more parts than an image can
/// have, and no empty body; a valid one is so.
pub fn image_is_at_most_923058_bytes()
    ensures sized { (bytes : List ℕ) (S : ScenarioContents) → IsScenario S → HasSize S → IsImageOf bytes S → length bytes ≤ 923058 }
    ensures valid { (bytes : List ℕ) (S : ScenarioContents) → IsScenario S → IsValid S → IsImageOf bytes S → length bytes ≤ 923058 }
{}

/// No image is longer than 923,058 bytes, so what stands behind the first 923,059 bytes changes nothing: these, or
/// more of them, are read as all the bytes are, as the same scenario or with the same fault.
#[tactic(auto, using(crate::proofs::FrontLemmas::far_bytes))]
pub fn far_bytes_change_no_reading()
    ensures { (n : ℕ) (bytes : List ℕ) → 923058 < n → reading (take n bytes) ≡ reading bytes }
{}

/// The word of an instruction of each shape: its tag, its operands, and zeros.
pub fn instructions_are_words()
    ensures alone { instr_word instr.Freeze ≡ word 25 0 0 0 }
    ensures work { (w : ℕ) → instr_word (instr.Cancel (work_id w)) ≡ word 19 0 w 0 }
    ensures work_cpu { (w cpu : ℕ) → instr_word (instr.Queue (work_id w) cpu) ≡ word 16 cpu w 0 }
    ensures work_cpu_ticks { (w cpu ticks : ℕ) → instr_word (instr.Delay (work_id w) cpu ticks) ≡ word 17 cpu w ticks }
    ensures queue { (q : ℕ) → instr_word (instr.FlushQueue (queue_id q)) ≡ word 23 0 q 0 }
    ensures queue_number { (q max : ℕ) → instr_word (instr.SetMax (queue_id q) max) ≡ word 24 0 q max }
    ensures pool { (pool : ℕ) → instr_word (instr.Step pool) ≡ word 28 pool 0 0 }
    ensures flush { (flush : ℕ) → instr_word (instr.Ask flush) ≡ word 31 0 flush 0 }
    ensures time { (time : ℕ) → instr_word (instr.Until time) ≡ word 38 0 0 time }
{}

/// The word of an operation that names a work: its tag, a CPU where it has one, the work, and its ticks, or zeros.
pub fn operations_are_words()
    ensures queue { (w cpu : ℕ) → op_word (op.Queue (work_id w) cpu) ≡ word 3 cpu w 0 }
    ensures delay { (w ticks : ℕ) → op_word (op.Delay (work_id w) ticks) ≡ word 5 0 w ticks }
    ensures mod_of_work { (w ticks : ℕ) → op_word (op.Mod (work_id w) ticks) ≡ word 6 0 w ticks }
    ensures cancel { (w : ℕ) → op_word (op.Cancel (work_id w)) ≡ word 7 0 w 0 }
{}

/// The worked image is the image of the worked scenario, which is valid; with 1, 2 or 3 in its byte 5 it is that of an
/// older version.
pub fn worked_image_is_written()
    ensures image { image VERSION worked_scenario ≡ worked_image }
    ensures first { image FIRST_VERSION worked_scenario ≡ in_version 1 }
    ensures second { image SECOND_VERSION worked_scenario ≡ in_version 2 }
    ensures third { image THIRD_VERSION worked_scenario ≡ in_version 3 }
    ensures size { length worked_image ≡ 126 }
    ensures valid { IsValid worked_scenario }
{}

/// It reads as that scenario; changed in one place, it has the fault of that place.
#[tactic(auto, unfolding(crate::specs::ImageFault::reading, crate::specs::ImageFault::scenario_at, crate::specs::ImageFault::read_head, crate::specs::ImageFault::read_queue, crate::specs::ImageFault::read_work, crate::specs::ImageFault::read_op, crate::specs::ImageFault::read_actor, crate::specs::ImageFault::read_line, crate::specs::ImageFault::read_instr))]
pub fn worked_image_is_read()
    ensures read { reading worked_image ≡ Ok worked_scenario }
    ensures version_1 { reading (in_version 1) ≡ Ok worked_scenario }
    ensures version_2 { reading (in_version 2) ≡ Ok worked_scenario }
    ensures version_3 { reading (in_version 3) ≡ Ok worked_scenario }
    ensures empty { reading [] ≡ Err errors.Magic }
    ensures shorter { reading (take 125 worked_image) ≡ Err errors.Truncated }
    ensures longer { reading (worked_image ++ 0 ∷ []) ≡ Err errors.Extra }
    ensures zero_byte { reading (slice_set worked_image 37 1) ≡ Err (errors.BadField 37) }
    ensures cpus { reading (slice_set worked_image 6 17) ≡ Err (errors.Fault Range) }
    ensures version_0 { reading (in_version 0) ≡ Err errors.Version }
    ensures version_5 { reading (in_version 5) ≡ Err errors.Version }
    ensures disable { reading (slice_set worked_image 114 34) ≡ Ok disabling_scenario }
    ensures disable_in_1 { reading (slice_set (in_version 1) 114 34) ≡ Err (errors.BadField 114) }
    ensures disable_in_2 { reading (slice_set (in_version 2) 114 34) ≡ Ok disabling_scenario }
    ensures pressure { reading (slice_set worked_image 114 36) ≡ Ok (ending_with instr.Pressure) }
    ensures pressure_in_2 { reading (slice_set (in_version 2) 114 36) ≡ Err (errors.BadField 114) }
    ensures relief { reading (slice_set worked_image 114 37) ≡ Ok (ending_with instr.Relief) }
    ensures relief_in_2 { reading (slice_set (in_version 2) 114 37) ≡ Err (errors.BadField 114) }
    ensures mem_reclaim { reading (slice_set (in_version 3) 36 32) ≡ Ok reclaiming_scenario }
    ensures mem_reclaim_in_1 { reading (slice_set (in_version 1) 36 32) ≡ Err (errors.BadField 36) }
    ensures mem_reclaim_in_2 { reading (slice_set (in_version 2) 36 32) ≡ Err (errors.BadField 36) }
    ensures mem_reclaim_in_5 { reading (slice_set (in_version 5) 36 32) ≡ Err errors.Version }
    ensures quiet { reading (slice_set worked_image 114 40) ≡ Ok (ending_with instr.Quiet) }
    ensures quiet_in_3 { reading (slice_set (in_version 3) 114 40) ≡ Err (errors.BadField 114) }
    ensures until_in_3 { reading (slice_set (in_version 3) 114 38) ≡ Err (errors.BadField 114) }
    ensures until { reading (slice_set worked_image 114 38) ≡ Ok (ending_with (instr.Until 0)) }
    ensures wait { reading (slice_set worked_image 114 39) ≡ Ok (ending_with (instr.Wait 0)) }
    ensures delay { reading (with_op_tag 5 worked_image) ≡ Ok (beginning_with (op.Delay (work_id 0) 0)) }
    ensures delay_in_1 { reading (with_op_tag 5 (in_version 1)) ≡ Err (errors.BadField 56) }
    ensures delay_in_3 { reading (with_op_tag 5 (in_version 3)) ≡ Err (errors.BadField 56) }
    ensures delay_9_ticks { reading (slice_set (with_op_tag 5 worked_image) 63 9) ≡ Ok (beginning_with (op.Delay (work_id 0) 9)) }
    ensures delay_on_a_cpu { reading (slice_set (with_op_tag 5 worked_image) 57 1) ≡ Err (errors.BadField 57) }
    ensures delay_too_many_ticks { reading (slice_set (with_op_tag 5 worked_image) 60 1) ≡ Err (errors.Fault Range) }
    ensures mod_0 { reading (with_op_tag 6 worked_image) ≡ Ok (beginning_with (op.Mod (work_id 0) 0)) }
    ensures mod_in_2 { reading (with_op_tag 6 (in_version 2)) ≡ Err (errors.BadField 56) }
    ensures mod_in_3 { reading (with_op_tag 6 (in_version 3)) ≡ Err (errors.BadField 56) }
    ensures mod_of_no_work { reading (slice_set (with_op_tag 6 worked_image) 59 1) ≡ Err (errors.Fault Unknown) }
    ensures cancel { reading (with_op_tag 7 worked_image) ≡ Ok (beginning_with (op.Cancel (work_id 0))) }
    ensures cancel_in_3 { reading (with_op_tag 7 (in_version 3)) ≡ Err (errors.BadField 56) }
    ensures cancel_with_ticks { reading (slice_set (with_op_tag 7 worked_image) 63 9) ≡ Err (errors.BadField 60) }
    ensures op_tag_8 { reading (with_op_tag 8 worked_image) ≡ Err (errors.BadField 56) }
    ensures tag_41 { reading (slice_set worked_image 114 41) ≡ Err (errors.BadField 114) }
{}
