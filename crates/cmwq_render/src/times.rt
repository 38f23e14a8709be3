//! The times over the columns of a picture.
ghost use Rattle.cmwq_render.specs.Times.{column_count, header, padded_to, time_count, time_step, times_above};
ghost use Rattle.std.specs.Prelude.{◌≡◌, ◌≤◌, IfOk, OnOk, slice_index_or, string_bytes};

use cmwq_types::NoMemory;
use std::alloc::Global;

/// How many columns a picture has that begin and end at these times.
pub fn column_count(edges: &[u64]) -> usize
    ensures { result ≡ column_count edges.now }
{
    edges.len().saturating_sub(1)
}

/// The time at the left edge of a column, in ticks; behind the last one that at its right edge.
pub fn time_at(edges: &[u64], column: usize) -> u64
    ensures { result ≡ slice_index_or edges.now column 0 }
{
    edges.get(column).copied().unwrap_or(0)
}

/// How many columns are between two times: 5, and 20 where a time has five digits or more, which need the room.
pub fn time_step(edges: &[u64]) -> usize
    ensures step { result ≡ time_step edges.now }
    ensures some { 5 ≤ result }
    ensures small { result ≤ 20 }
{
    let end = time_at(edges, column_count(edges));
    if end <= 9999 { 5 } else { 20 }
}

/// How many times stand over a picture: one over its left edge, and one for each so many columns that it has.
pub fn time_count(step: usize, edges: &[u64]) -> usize
    requires { 2 ≤ step }
    ensures { result ≡ time_count step edges.now }
{
    column_count(edges) / step + 1
}

/// The line of the times. The left edge is `width` bytes behind its start.
pub(crate) fn header(alloc: Global, edges: &[u64], width: usize) -> Result<String, NoMemory>
    ensures { IfOk result (λ line. string_bytes line ≡ header edges.now width) }
{
    let step = time_step(edges);
    let mut line = String::new(alloc);
    for number in 0..time_count(step, edges) {
        pad(&mut line, width as u128 + (number * step) as u128)?;
        let time = time_at(edges, number * step);
        write!(line, "{time}")?;
    }
    line.push('\n')?;
    Ok(line)
}

/// Puts spaces behind the text, up to this many bytes.
pub(crate) fn pad(text: &mut String, width: u128) -> Result<(), NoMemory>
    ensures { OnOk result (string_bytes text.new ≡ padded_to width (string_bytes text.old)) }
{
    let missing = width.saturating_sub(text.as_bytes().len() as u128);
    for _space in 0..missing {
        text.push(' ')?;
    }
    Ok(())
}
