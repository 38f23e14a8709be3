//! Numbers, lowest byte first, and zeros.
ghost use Rattle.cmwq_trace_data.specs.Entries.{number};
ghost use Rattle.cmwq_trace_data.specs.TraceData.{sized};
ghost use Rattle.std.specs.Int.{w16, w32, w64};
ghost use Rattle.std.specs.Prelude.{◌≡◌, ◌++◌, OnOk, replicate};

use cmwq_types::NoMemory;

/// Writes a number in two bytes.
#[tactic(auto, unfolding(crate::specs::Entries::number))]
pub(crate) fn push_u16(bytes: &mut Vec<u8>, n: u16) -> Result<(), NoMemory>
    ensures { OnOk result (bytes.new.items ≡ bytes.old.items ++ number w16 n) }
{
    bytes.extend_from_slice(&n.to_le_bytes())?;
    Ok(())
}

/// Writes the low four bytes of a number.
#[tactic(auto, unfolding(crate::specs::Entries::number))]
pub(crate) fn push_u32(bytes: &mut Vec<u8>, n: u128) -> Result<(), NoMemory>
    ensures { OnOk result (bytes.new.items ≡ bytes.old.items ++ number w32 n) }
{
    let all = n.to_le_bytes();
    bytes.extend_from_slice(&all[..4])?;
    Ok(())
}

/// Writes the low eight bytes of a number.
#[tactic(auto, unfolding(crate::specs::Entries::number))]
pub(crate) fn push_u64(bytes: &mut Vec<u8>, n: u128) -> Result<(), NoMemory>
    ensures { OnOk result (bytes.new.items ≡ bytes.old.items ++ number w64 n) }
{
    let all = n.to_le_bytes();
    bytes.extend_from_slice(&all[..8])?;
    Ok(())
}

/// Writes so many zeros.
pub(crate) fn push_zeros(bytes: &mut Vec<u8>, count: usize) -> Result<(), NoMemory>
    ensures { OnOk result (bytes.new.items ≡ bytes.old.items ++ replicate count 0) }
{
    let Some(len) = bytes.len().checked_add(count) else {
        return Err(NoMemory);
    };
    bytes.resize(len, 0)?;
    Ok(())
}

/// Writes the length of the text in four bytes, and the text.
pub(crate) fn push_sized_u32(bytes: &mut Vec<u8>, text: &[u8]) -> Result<(), NoMemory>
    ensures { OnOk result (bytes.new.items ≡ bytes.old.items ++ sized w32 text.now) }
{
    push_u32(bytes, text.len() as u128)?;
    bytes.extend_from_slice(text)?;
    Ok(())
}

/// Writes the length of the text in eight bytes, and the text.
pub(crate) fn push_sized_u64(bytes: &mut Vec<u8>, text: &[u8]) -> Result<(), NoMemory>
    ensures { OnOk result (bytes.new.items ≡ bytes.old.items ++ sized w64 text.now) }
{
    push_u64(bytes, text.len() as u128)?;
    bytes.extend_from_slice(text)?;
    Ok(())
}
