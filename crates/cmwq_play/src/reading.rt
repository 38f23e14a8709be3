//! Reading a whole input, and the scenario that it spells.
ghost use Rattle.cmwq_grammar.specs.Grammar.{Spells};
ghost use Rattle.cmwq_play.specs.Commands.{Answers, Reads};
ghost use Rattle.cmwq_play.specs.PlayTexts.{IsSpelled, IsTextFault};
ghost use Rattle.cmwq_types.specs.Contents.{ScenarioContents};
ghost use Rattle.cmwq_types.specs.declared.limits.TheConstants.{MAX_TEXT};
ghost use Rattle.std.specs.Io.KnownBytes.{Consumes, IsAtEnd, Keeps};
ghost use Rattle.std.specs.Prelude.{◌≡◌, ◌≤◌, ◌+◌, ◌↔◌, ◌⊎◌, ◌≢◌, ◌++◌, Err, IfErr, IfOk, IfSome, List, Ok, OnErr, OnOk, Some, [], false, length, true, ℕ};

use cmwq_asm::assemble;
use cmwq_streams::{PlayError, Source};
use cmwq_types::{MAX_TEXT, Scenario};
use std::alloc::Global;

/// Reads a scenario's text, and gives the scenario that it spells.
///
/// It answers `Asm` with the text's fault exactly where the text spells none. At most one byte more
/// is read than the 4,194,304 that a text may have.
pub fn read_text<R: Source>(alloc: Global, reader: &mut R) -> Result<Scenario, PlayError>
    requires { R.failed reader.old ≡ false }
    ensures reads { Reads (R.remaining reader.old) (R.remaining reader.new) (R.failed reader.new) result }
    ensures answers { Answers IsSpelled IsTextFault (R.remaining reader.old) result }
    // The scenario is the one that the text spells.
    ensures found { IfOk result (λ scenario. IsSpelled (R.remaining reader.old) scenario) }
    ensures only { IfSome (R.remaining reader.old) (λ text. (S : ScenarioContents) → Spells text S → IfOk result (λ scenario. scenario ≡ S)) }
    ensures no_write { result ≢ Err PlayError.Write }
{
    let text = read_whole(alloc, reader)?;
    assembled(alloc, &text)
}

/// The scenario that the text spells, or the text's fault.
fn assembled(alloc: Global, text: &[u8]) -> Result<Scenario, PlayError>
    ensures answers { Answers IsSpelled IsTextFault (Some text.now) result }
    ensures found { IfOk result (λ scenario. Spells text.now scenario) }
    ensures only { (S : ScenarioContents) → Spells text.now S → IfOk result (λ scenario. scenario ≡ S) }
    ensures no_read { result ≢ Err PlayError.Read }
    ensures no_write { result ≢ Err PlayError.Write }
{
    let scenario = assemble(alloc, text)?;
    Ok(scenario)
}

/// Reads all that the source has: at most one byte more than a text may have. The error is `Read` exactly where the source failed,
/// and else `NoMemory`.
pub fn read_whole<R: Source>(alloc: Global, reader: &mut R) -> Result<Vec<u8>, PlayError>
    requires { R.failed reader.old ≡ false }
    ensures whole { IfOk result (λ text. length text.items ≤ MAX_TEXT → IfSome (R.remaining reader.old) (λ input. input ≡ text.items)) }
    ensures bounded { IfOk result (λ text. length text.items ≤ MAX_TEXT + 1) }
    ensures front { IfOk result (λ text. Consumes (R.remaining reader.old) (R.remaining reader.new) text.items) }
    ensures reads { Reads (R.remaining reader.old) (R.remaining reader.new) (R.failed reader.new) result }
    ensures other { IfErr result (λ error. (error ≡ PlayError.Read) ⊎ (error ≡ PlayError.NoMemory)) }
{
    let mut text = Vec::new(alloc);
    read_to_end(reader, &mut empty_chunk(), &mut text)?;
    Ok(text)
}

/// Reads all that the source has by way of the chunk: at most one byte more than a text may have.
fn read_to_end<R: Source>(
    reader: &mut R,
    chunk: &mut [u8; 4096],
    text: &mut Vec<u8>,
) -> Result<(), PlayError>
    requires sound { R.failed reader.old ≡ false }
    requires empty { text.old.items ≡ [] }
    ensures whole { OnOk result (length text.new.items ≤ MAX_TEXT → IfSome (R.remaining reader.old) (λ input. input ≡ text.new.items)) }
    ensures bounded { OnOk result (length text.new.items ≤ MAX_TEXT + 1) }
    ensures front { OnOk result (Consumes (R.remaining reader.old) (R.remaining reader.new) text.new.items) }
    ensures reads { Reads (R.remaining reader.old) (R.remaining reader.new) (R.failed reader.new) result }
    ensures other { IfErr result (λ error. (error ≡ PlayError.Read) ⊎ (error ≡ PlayError.NoMemory)) }
{
    for _turn in 0..MAX_TEXT + 1 {
        if read_some(reader, chunk, text)? == 0 || text.len() > MAX_TEXT {
            return Ok(());
        }
    }
    unreachable!()
}

/// Reads some bytes more behind the text by way of the chunk, and says how many: none only at the end. The text has at most 4,194,304
/// bytes before, and one more behind that at most.
///
/// The error is `Read` exactly where the source failed, and else `NoMemory`; the text is then as it was.
pub fn read_some<R: Source>(
    reader: &mut R,
    chunk: &mut [u8; 4096],
    text: &mut Vec<u8>,
) -> Result<usize, PlayError>
    requires sound { R.failed reader.old ≡ false }
    requires short { length text.old.items ≤ MAX_TEXT }
    ensures read { IfOk result (λ n. (bytes : List ℕ) × (text.new.items ≡ text.old.items ++ bytes) × (length bytes ≡ n)
        × Consumes (R.remaining reader.old) (R.remaining reader.new) bytes) }
    ensures bounded { length text.new.items ≤ MAX_TEXT + 1 }
    ensures end { result ≡ Ok 0 → IsAtEnd (R.remaining reader.new) }
    ensures same { OnErr result (text.new.items ≡ text.old.items) }
    ensures few { IfSome (R.remaining reader.old) (λ bytes. IfSome (R.remaining reader.new)
        (λ rest. length bytes + length text.old.items ≤ length rest + MAX_TEXT + 1)) }
    ensures failed { (result ≡ Err PlayError.Read) ↔ (R.failed reader.new ≡ true) }
    ensures unread { result ≡ Err PlayError.Read → Keeps (R.remaining reader.old) (R.remaining reader.new) }
    ensures why { IfErr result (λ error. (error ≡ PlayError.Read) ⊎ (error ≡ PlayError.NoMemory)) }
{
    let room = (MAX_TEXT + 1 - text.len()).min(4096);
    match reader.pull(&mut chunk[..room]) {
        Ok(n) => {
            text.extend_from_slice(&chunk[..n])?;
            Ok(n)
        }
        Err(_) => Err(PlayError::Read),
    }
}

/// Room for what one read gives. To clear it takes about as long as to read it, so a long text is read by one.
pub fn empty_chunk() -> [u8; 4096] {
    [0u8; 4096]
}
