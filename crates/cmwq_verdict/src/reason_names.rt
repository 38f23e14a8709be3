//! The names of reasons.
ghost use Rattle.cmwq_verdict.specs.Names.{fault_name, why_name};
ghost use Rattle.std.specs.Prelude.{◌≡◌, ◌≤◌, length};

use cmwq_grammar::Why;
use cmwq_types::Fault;

/// Why a line is refused, as one word.
pub fn why_name(why: Why) -> &'static str
    ensures name { result.now ≡ why_name why }
    ensures short { length result.now ≤ 20 }
{
    match why {
        Why::BadUtf8 => "BadUtf8",
        Why::BadWord => "BadWord",
        Why::BadName => "BadName",
        Why::BadNumber => "BadNumber",
        Why::MissingWord => "MissingWord",
        Why::ExtraWord => "ExtraWord",
        Why::Misplaced => "Misplaced",
        Why::TooLong => "TooLong",
        Why::Fault(fault) => fault_name(fault),
    }
}

/// The name of a scenario's fault.
pub fn fault_name(fault: Fault) -> &'static str
    ensures name { result.now ≡ fault_name fault }
    ensures short { length result.now ≤ 20 }
{
    match fault {
        Fault::Range => "Range",
        Fault::TooMany => "TooMany",
        Fault::Duplicate => "Duplicate",
        Fault::Unknown => "Unknown",
        Fault::BadBody => "BadBody",
        Fault::BadFlags => "BadFlags",
    }
}
