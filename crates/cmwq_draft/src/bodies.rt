//! The works of a text, some of which have their bodies.
ghost use Rattle.cmwq_grammar.specs.LineReasons.{all_have_bodies, with_works};
ghost use Rattle.cmwq_grammar.specs.Stages.{with_body};
ghost use Rattle.std.specs.Prelude.{◌≡◌, ◌<◌, [], IfOk, IsTrue, length};

use crate::draft::Draft;
use cmwq_types::{NoMemory, Op, WorkDecl};
use std::alloc::Global;
use std::marker::Model;

/// What was told before the bodies, and the first works with their bodies.
#[derive(Drop)]
pub struct Bodies<'t> {
    draft: Draft<'t>,
    /// The draft's first works, which have no bodies there.
    done: Vec<WorkDecl>,
}

impl<'t> Model for Bodies<'t> {
    ghost use Rattle.cmwq_draft.specs.Parts.{Bodied};
    ghost use Rattle.std.specs.Prelude.{◌≡◌, ◌≤◌, length, map, take};

    ghost Value = { Bodied };

    ghost view = { λ b. record { told = b.draft; done = b.done.items } };

    ghost invariant = { λ b. (length b.done.items ≤ length b.draft.works)
        × (map (λ work. work.name) b.done.items ≡ take (length b.done.items) (map (λ work. work.name) b.draft.works)) };
}

impl<'t> Bodies<'t> {
    /// No work has its body.
    pub fn new(alloc: Global, draft: Draft<'t>) -> Bodies<'t>
        ensures { result ≡ record { told = draft.entry; done = [] } }
    {
        Bodies {
            draft,
            done: Vec::new(alloc),
        }
    }

    /// What was told before the bodies.
    pub fn draft(&self) -> &Draft<'t>
        ensures { result.now ≡ self.now.told }
    {
        &self.draft
    }

    /// How many works have their bodies.
    pub fn count(&self) -> usize
        ensures { result ≡ length self.now.done }
    {
        self.done.len()
    }

    /// Whether each work has its body.
    pub fn are_complete(&self) -> bool
        ensures { result ≡ all_have_bodies self.now.told self.now.done }
    {
        self.done.len() == self.draft.works().len()
    }

    /// With the next work's body.
    pub fn with_body(mut self, body: Vec<Op>) -> Result<Bodies<'t>, NoMemory>
        requires { length self.done < length self.told.works }
        ensures { IfOk result (λ bodies. bodies
            ≡ record { told = self.entry.told; done = with_body self.entry.told self.entry.done body.items }) }
    {
        let work = &self.draft.works()[self.done.len()];
        let (name, queue) = (work.name, work.queue);
        self.done.push(WorkDecl { name, queue, body })?;
        Ok(self)
    }

    /// What was told, with the bodies of all works.
    pub fn into_draft(self) -> Draft<'t>
        requires { IsTrue (all_have_bodies self.told self.done) }
        ensures { result ≡ with_works self.entry.told self.entry.done }
    {
        self.draft.with_works(self.done)
    }
}
