//! How many instructions one run issues.
ghost use Rattle.cmwq_types.specs.Scenario.{expand_lines};
ghost use Rattle.cmwq_types.specs.declared.limits.TheConstants.{MAX_HISTORY};
ghost use Rattle.std.specs.Prelude.{◌≡◌, ◌<◌, ◌+◌, MatchOption, length};

use cmwq_types::{Line, MAX_HISTORY};

/// How many instructions more one run issues behind those of the lines. `None` exactly where these are more than the 1,048,576 that
/// one run issues.
pub fn room_behind(lines: &[Line]) -> Option<u32>
    ensures { MatchOption result (MAX_HISTORY < length (expand_lines lines.now)) (λ room. room + length (expand_lines lines.now) ≡ MAX_HISTORY) }
{
    let mut room = MAX_HISTORY;
    for line in lines {
        if line.times > room {
            return None;
        }
        room -= line.times;
    }
    Some(room)
}
