//! The words that name the instructions, in texts, listings and commands.
ghost use Rattle.cmwq_types.specs.Mnemonics.{first_spelled, mnemonic_of, mnemonics, spelling};
ghost use Rattle.std.specs.Prelude.{◌≡◌};
ghost use Rattle.std.specs.Str.{bytes_eq};

/// The word that an instruction begins with. `spelling` of the specs is the table of them.
#[derive(Clone, Copy, PartialEq, Eq)]
pub enum Mnemonic {
    Queue,
    Delay,
    Mod,
    Cancel,
    CancelSync,
    Flush,
    FlushDelayed,
    FlushQueue,
    SetMax,
    Freeze,
    Thaw,
    Fire,
    Step,
    Tick,
    Next,
    Ask,
    Busy,
    State,
    Disable,
    Enable,
    Pressure,
    Relief,
    Until,
    Wait,
    Quiet,
}

const MNEMONICS: [Mnemonic; 25] = [
    Mnemonic::Queue,
    Mnemonic::Delay,
    Mnemonic::Mod,
    Mnemonic::Cancel,
    Mnemonic::CancelSync,
    Mnemonic::Flush,
    Mnemonic::FlushDelayed,
    Mnemonic::FlushQueue,
    Mnemonic::SetMax,
    Mnemonic::Freeze,
    Mnemonic::Thaw,
    Mnemonic::Fire,
    Mnemonic::Step,
    Mnemonic::Tick,
    Mnemonic::Next,
    Mnemonic::Ask,
    Mnemonic::Busy,
    Mnemonic::State,
    Mnemonic::Disable,
    Mnemonic::Enable,
    Mnemonic::Pressure,
    Mnemonic::Relief,
    Mnemonic::Until,
    Mnemonic::Wait,
    Mnemonic::Quiet,
];

impl Mnemonic {
    /// The mnemonic that is spelled so, if there is one.
    pub fn read(word: &[u8]) -> Option<Mnemonic>
        ensures { result ≡ mnemonic_of word.now }
    {
        first_spelled(&MNEMONICS, word)
    }

    /// All of them, in the order of the table.
    pub fn all() -> &'static [Mnemonic]
        ensures { result.now ≡ mnemonics }
    {
        &MNEMONICS
    }

    /// Whether it is spelled so.
    fn is_spelled(self, word: &[u8]) -> bool
        ensures { result ≡ bytes_eq word.now (spelling self) }
    {
        word == self.as_bytes()
    }

    /// How it is spelled, as bytes.
    pub fn as_bytes(self) -> &'static [u8]
        ensures { result.now ≡ spelling self }
    {
        self.as_str().as_bytes()
    }

    /// How it is spelled.
    pub fn as_str(self) -> &'static str
        ensures { result.now ≡ spelling self }
    {
        match self {
            Mnemonic::Queue => "queue",
            Mnemonic::Delay => "delay",
            Mnemonic::Mod => "mod",
            Mnemonic::Cancel => "cancel",
            Mnemonic::CancelSync => "cancel_sync",
            Mnemonic::Flush => "flush",
            Mnemonic::FlushDelayed => "flush_delayed",
            Mnemonic::FlushQueue => "flush_queue",
            Mnemonic::SetMax => "set_max",
            Mnemonic::Freeze => "freeze",
            Mnemonic::Thaw => "thaw",
            Mnemonic::Fire => "fire",
            Mnemonic::Step => "step",
            Mnemonic::Tick => "tick",
            Mnemonic::Next => "next",
            Mnemonic::Ask => "ask",
            Mnemonic::Busy => "busy",
            Mnemonic::State => "state",
            Mnemonic::Disable => "disable",
            Mnemonic::Enable => "enable",
            Mnemonic::Pressure => "pressure",
            Mnemonic::Relief => "relief",
            Mnemonic::Until => "until",
            Mnemonic::Wait => "wait",
            Mnemonic::Quiet => "quiet",
        }
    }
}

/// The first of these that is spelled so, if there is one.
fn first_spelled(mnemonics: &[Mnemonic], word: &[u8]) -> Option<Mnemonic>
    ensures { result ≡ first_spelled mnemonics.now word.now }
{
    for mnemonic in mnemonics {
        if mnemonic.is_spelled(word) {
            return Some(*mnemonic);
        }
    }
    None
}
