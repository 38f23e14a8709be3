//! What was said of a state.

use std::marker::Model;

/// What was said where it was last looked, if it was something.
#[derive(Drop)]
pub(crate) struct LastSaid(pub(crate) Option<String>);

impl Model for LastSaid {
    ghost use Rattle.cmwq_explain.specs.Changes.{words_said};
    ghost use Rattle.std.specs.Prelude.{List, Option, ℕ};

    ghost Value = { Option (List ℕ) };

    ghost view = { λ said. words_said said.0 };
}

impl LastSaid {
    ghost use Rattle.cmwq_explain.specs.Changes.{is_new};
    ghost use Rattle.std.specs.Prelude.{◌≡◌};

    /// Whether something else was said than this text, or nothing.
    pub(crate) fn is_new(&self, text: &str) -> bool
        ensures { result ≡ is_new self.now text.now }
    {
        match &self.0 {
            Some(said) => said.as_bytes() != text.as_bytes(),
            None => true,
        }
    }
}
