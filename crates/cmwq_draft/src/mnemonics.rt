//! The word that an actor's line begins with.
ghost use Rattle.cmwq_types.specs.Mnemonics.{mnemonic_of};
ghost use Rattle.std.specs.Prelude.{◌≡◌};

use cmwq_scan::is_same;
use cmwq_types::Mnemonic;

/// The mnemonic that is spelled so, if there is one.
#[inline(always)]
#[tactic(auto, using(crate::proofs::MnemonicLemmas::spelled_so))]
pub(crate) fn read_mnemonic(word: &[u8]) -> Option<Mnemonic>
    ensures { result ≡ mnemonic_of word.now }
{
    let likely = likely_mnemonic(word);
    if is_same(word, likely.as_bytes()) {
        Some(likely)
    } else {
        Mnemonic::read(word)
    }
}

/// The mnemonic that a word of its first letter and its length is likely to be, or of its third letter. Nothing is claimed of it.
#[inline(always)]
fn likely_mnemonic(word: &[u8]) -> Mnemonic {
    match (word.first(), word.len()) {
        (Some(b'd'), 5) => Mnemonic::Delay,
        (Some(b'd'), _) => Mnemonic::Disable,
        (Some(b'm'), _) => Mnemonic::Mod,
        (Some(b'c'), 6) => Mnemonic::Cancel,
        (Some(b'c'), _) => Mnemonic::CancelSync,
        (Some(b'f'), 4) => Mnemonic::Fire,
        (Some(b'f'), 5) => Mnemonic::Flush,
        (Some(b'f'), 6) => Mnemonic::Freeze,
        (Some(b'f'), 11) => Mnemonic::FlushQueue,
        (Some(b'f'), _) => Mnemonic::FlushDelayed,
        (Some(b's'), 4) => Mnemonic::Step,
        (Some(b's'), 5) => Mnemonic::State,
        (Some(b's'), _) => Mnemonic::SetMax,
        (Some(b't'), _) => Mnemonic::Tick,
        (Some(b'n'), _) => Mnemonic::Next,
        (Some(b'a'), _) => Mnemonic::Ask,
        (Some(b'b'), _) => Mnemonic::Busy,
        (Some(b'e'), _) => Mnemonic::Enable,
        (Some(b'p'), _) => Mnemonic::Pressure,
        (Some(b'r'), _) => Mnemonic::Relief,
        (Some(b'u'), _) => Mnemonic::Until,
        (Some(b'w'), _) => Mnemonic::Wait,
        (Some(b'q'), 5) if word.get(2) == Some(&b'i') => Mnemonic::Quiet,
        _ => Mnemonic::Queue,
    }
}
