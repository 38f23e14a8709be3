//! The words that commands begin with, and what may stand for them.
ghost use Rattle.cmwq_debug_lines.specs.Verbs.{first_spelled, help_lines, help_text, is_begun, only_begun, spelling, usage, verb_of};
ghost use Rattle.std.specs.List.{list_any};
ghost use Rattle.std.specs.Prelude.{◌≡◌, ◌++◌, IfOk, OnOk, string_bytes};

use cmwq_scan::is_word;
use cmwq_types::NoMemory;
use std::alloc::Global;

/// What the first word of a command tells. `spelling` of the specs is the table of them.
#[derive(Clone, Copy)]
pub enum Verb {
    Step,
    Back,
    Goto,
    Break,
    Clear,
    List,
    Run,
    Next,
    Dump,
    Why,
    Help,
    Quit,
}

const VERBS: [Verb; 12] = [
    Verb::Step,
    Verb::Back,
    Verb::Goto,
    Verb::Break,
    Verb::Clear,
    Verb::List,
    Verb::Run,
    Verb::Next,
    Verb::Dump,
    Verb::Why,
    Verb::Help,
    Verb::Quit,
];

impl Verb {
    /// What the word stands for: the verb that is spelled so, else the only one that begins with it.
    pub(crate) fn read(word: &[u8]) -> Option<Verb>
        ensures { result ≡ verb_of word.now }
    {
        match first_spelled(&VERBS, word) {
            Some(verb) => Some(verb),
            None => only_begun(&VERBS, word),
        }
    }

    /// How it is spelled.
    fn as_str(self) -> &'static str
        ensures { result.now ≡ spelling self }
    {
        match self {
            Verb::Step => "step",
            Verb::Back => "back",
            Verb::Goto => "goto",
            Verb::Break => "break",
            Verb::Clear => "clear",
            Verb::List => "list",
            Verb::Run => "run",
            Verb::Next => "next",
            Verb::Dump => "dump",
            Verb::Why => "why",
            Verb::Help => "help",
            Verb::Quit => "quit",
        }
    }

    /// What stands behind it, and what that does.
    fn usage(self) -> &'static str
        ensures { result.now ≡ usage self }
    {
        match self {
            Verb::Step => " [N]: goes forward by N instructions, or by 1",
            Verb::Back => " [N]: goes back by N instructions, or by 1",
            Verb::Goto => " K: goes to position K",
            Verb::Break => " work W event E | time T | refusal | activates W: makes a break",
            Verb::Clear => " I: removes break I",
            Verb::List => ": prints the breaks",
            Verb::Run => {
                ": goes forward up to the first instruction that a break matches, or to the end"
            }
            Verb::Next => {
                " event: goes forward up to the first instruction that prints a line, or to the end"
            }
            Verb::Dump => " [pool P]: prints the state, or what is in pool P",
            Verb::Why => " W | flush F: prints what work item W or flush F waits for",
            Verb::Help => {
                ": prints the commands; the first word may be cut short if it begins only one command"
            }
            Verb::Quit => ": ends the session",
        }
    }

    /// Whether its spelling begins with the word.
    fn is_begun(self, word: &[u8]) -> bool
        ensures { result ≡ is_begun word.now self }
    {
        self.as_str().as_bytes().starts_with(word)
    }
}

/// The commands, a line each. The only error is want of memory.
pub(crate) fn help_text(alloc: Global) -> Result<String, NoMemory>
    ensures { IfOk result (λ text. string_bytes text ≡ help_text) }
{
    let mut text = String::new(alloc);
    push_lines(&mut text, &VERBS)?;
    Ok(text)
}

/// Appends a line for each of these.
fn push_lines(text: &mut String, verbs: &[Verb]) -> Result<(), NoMemory>
    ensures { OnOk result (string_bytes text.new ≡ string_bytes text.old ++ help_lines verbs.now) }
{
    for verb in verbs {
        let (word, usage) = (verb.as_str(), verb.usage());
        writeln!(text, "{word}{usage}")?;
    }
    Ok(())
}

/// The first of these that is spelled so.
fn first_spelled(verbs: &[Verb], word: &[u8]) -> Option<Verb>
    ensures { result ≡ first_spelled verbs.now word.now }
{
    for verb in verbs {
        if is_word(word, verb.as_str().as_bytes()) {
            return Some(*verb);
        }
    }
    None
}

/// The only one of these that begins with the word; none where several do.
fn only_begun(verbs: &[Verb], word: &[u8]) -> Option<Verb>
    ensures { result ≡ only_begun verbs.now word.now }
{
    for i in 0..verbs.len() {
        if verbs[i].is_begun(word) {
            return if begin_any(&verbs[i + 1..], word) {
                None
            } else {
                Some(verbs[i])
            };
        }
    }
    None
}

/// Whether one of these begins with the word.
fn begin_any(verbs: &[Verb], word: &[u8]) -> bool
    ensures { result ≡ list_any (is_begun word.now) verbs.now }
{
    verbs.iter().any(|verb| verb.is_begun(word))
}
