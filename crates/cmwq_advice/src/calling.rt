//! A name that isn't declared, and those that are.
ghost use Rattle.cmwq_advice.specs.Advice.{called_by, name_list, names_line, uncalled};
ghost use Rattle.std.specs.Prelude.{◌≡◌, ◌++◌, ◌<◌, IfOk, OnOk, Some, length, map};

use crate::line::line_of;
use crate::on_scenario::bytes_of;
use cmwq_fitting::nearest;
use cmwq_types::NoMemory;
use std::alloc::Global;

/// Returns the line that no work or actor of the file's scenario, as the kind says, is called so. It has the names of those that are declared, first the one
/// that is most like the word.
pub(crate) fn names_line(
    alloc: Global,
    file: &str,
    kind: &str,
    names: &[&[u8]],
    word: &[u8],
) -> Result<Vec<u8>, NoMemory>
    ensures { IfOk result (λ line. line.items ≡ names_line file.now kind.now (map (λ name. name.now) names.now) word.now) }
{
    match nearest(names, word) {
        Some(k) => called_by(alloc, file, kind, word, names, k),
        None => line_of(alloc, &[file, " has no ", kind, "s"]),
    }
}

/// Returns the line with the names, this one first.
#[tactic(auto, using(crate::proofs::NameLemmas::taken, crate::proofs::NameLemmas::dropped, crate::proofs::NameLemmas::named))]
fn called_by(
    alloc: Global,
    file: &str,
    kind: &str,
    word: &[u8],
    names: &[&[u8]],
    k: usize,
) -> Result<Vec<u8>, NoMemory>
    requires { k < length names.now }
    ensures { IfOk result (λ line. line.items ≡ called_by file.now kind.now word.now (map (λ name. name.now) names.now) (Some k)) }
{
    let mut line = uncalled(alloc, file, kind, word)?;
    line.extend_from_slice(names[k])?;
    push_names(&mut line, names.split_at(k).0)?;
    push_names(&mut line, names.split_at(k + 1).1)?;
    line.push(b'\n')?;
    Ok(line)
}

/// Returns the line up to the names.
fn uncalled(alloc: Global, file: &str, kind: &str, word: &[u8]) -> Result<Vec<u8>, NoMemory>
    ensures { IfOk result (λ line. line.items ≡ uncalled file.now kind.now word.now) }
{
    let mut line = bytes_of(alloc, "  no ")?;
    line.extend_from_slice(kind.as_bytes())?;
    line.extend_from_slice(b" of ")?;
    line.extend_from_slice(file.as_bytes())?;
    line.extend_from_slice(b" is called ")?;
    line.extend_from_slice(word)?;
    line.extend_from_slice(b"; the nearest first: ")?;
    Ok(line)
}

/// Appends the names, each behind a comma.
fn push_names(line: &mut Vec<u8>, names: &[&[u8]]) -> Result<(), NoMemory>
    ensures { OnOk result (line.new.items ≡ line.old.items ++ name_list (map (λ name. name.now) names.now)) }
{
    for name in names {
        line.extend_from_slice(b", ")?;
        line.extend_from_slice(*name)?;
    }
    Ok(())
}
