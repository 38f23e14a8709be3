//! Lines of words, as bytes.
ghost use Rattle.cmwq_types.specs.Listing.{line_text};
ghost use Rattle.std.specs.List.{flat_map, join_with_byte};
ghost use Rattle.std.specs.Prelude.{◌≡◌, ◌++◌, ◌∷◌, OnOk, map};

use cmwq_types::NoMemory;

/// Writes the first word and the others, with one space between them.
pub(crate) fn push_words(text: &mut Vec<u8>, first: &[u8], others: &[&[u8]]) -> Result<(), NoMemory>
    ensures { OnOk result (text.new.items ≡ text.old.items ++ join_with_byte 32 (first.now ∷ map (λ word. word.now) others.now)) }
{
    text.extend_from_slice(first)?;
    push_others(text, others)?;
    Ok(())
}

/// Writes a line of the first word and the others.
pub(crate) fn push_line(text: &mut Vec<u8>, first: &[u8], others: &[&[u8]]) -> Result<(), NoMemory>
    ensures { OnOk result (text.new.items ≡ text.old.items ++ line_text (first.now ∷ map (λ word. word.now) others.now)) }
{
    push_words(text, first, others)?;
    text.push(b'\n')?;
    Ok(())
}

/// Writes each word behind a space.
pub(crate) fn push_others(text: &mut Vec<u8>, words: &[&[u8]]) -> Result<(), NoMemory>
    ensures { OnOk result (text.new.items ≡ text.old.items ++ flat_map (λ word. 32 ∷ word) (map (λ word. word.now) words.now)) }
{
    for word in words {
        text.push(b' ')?;
        text.extend_from_slice(word)?;
    }
    Ok(())
}
