//! A body and an actor that are open: their lines may go on.
ghost use Rattle.cmwq_grammar.specs.Instructions.{actor_names};
ghost use Rattle.std.specs.List.{list_any};
ghost use Rattle.std.specs.Prelude.{◌≡◌, ◌<◌, false, length};
ghost use Rattle.std.specs.Str.{bytes_eq};

use cmwq_draft::{Bodies, Draft};
use cmwq_scan::Named;
use cmwq_types::{Line, Op};

/// The next work's body, so far.
#[derive(Drop)]
pub(crate) struct OpenBody<'t> {
    pub(crate) bodies: Bodies<'t>,
    pub(crate) ops: Vec<Op>,
    ghost has_work: { length bodies.done < length bodies.told.works },
}

/// An actor, so far.
#[derive(Drop)]
pub(crate) struct OpenActor<'t> {
    pub(crate) draft: Draft<'t>,
    pub(crate) name: Named<'t>,
    pub(crate) lines: Vec<Line>,
    ghost is_new: { list_any (λ other. bytes_eq other name) (actor_names draft) ≡ false },
}
