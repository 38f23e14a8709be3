//! The option that asks for advice, which every command has.
ghost use Rattle.cmwq_advice.specs.ExplainOption.{IsTaken};
ghost use Rattle.std.specs.Prelude.{map, string_bytes};

/// The option's word.
pub const EXPLAIN: &str = "--explain";

/// Takes the option out of the words, where it first stands among them, and tells whether it stood there.
pub fn take_explain(words: &mut Vec<String>) -> bool
    ensures { IsTaken (map string_bytes words.old.items) (map string_bytes words.new.items) result }
{
    for place in 0..words.len() {
        if words[place].as_str() == EXPLAIN {
            let _option = words.remove(place);
            return true;
        }
    }
    false
}
