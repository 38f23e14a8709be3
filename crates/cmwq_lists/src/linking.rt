//! Linking a work in and taking one out, where the ends of its list are at hand.
ghost use Rattle.cmwq_lists.specs.Cells.{back_moved, cell_at, freed, front_moved, joined, linked_cells, linked_ends, parted_ends, place_in, ranked, with_next, with_prev};
ghost use Rattle.cmwq_lists.specs.declared.link.TheConstants.{NOWHERE};
ghost use Rattle.slab.specs.Slab.{ContainsKey};
ghost use Rattle.std.specs.Prelude.{◌≡◌, ◌<◌, IfSome, None, Some};

use crate::link::Link;
use crate::list_cell::{Ends, ListCell};
use crate::node::Node;
use slab::Slab;

/// Where a work stands: in which list, and between whom.
#[derive(Clone, Copy)]
pub(crate) struct Place {
    pub(crate) list: usize,
    pub(crate) prev: Link,
    pub(crate) next: Link,
}

/// Has the work, or the front of the list, lead on to another.
#[inline(always)]
fn set_next(cells: &mut Slab<ListCell>, ends: &mut Ends, at: Link, to: Link)
    requires held { IfSome at (λ key. ContainsKey cells.old key) }
    ensures cells { cells.new ≡ with_next cells.old at to }
    ensures ends { ends.new ≡ front_moved ends.old at to }
{
    match at.target() {
        None => ends.front = to,
        Some(key) => cells[key].next = to,
    }
}

/// Has the work, or the back of the list, lead back to another.
#[inline(always)]
fn set_prev(cells: &mut Slab<ListCell>, ends: &mut Ends, at: Link, to: Link)
    requires held { IfSome at (λ key. ContainsKey cells.old key) }
    ensures cells { cells.new ≡ with_prev cells.old at to }
    ensures ends { ends.new ≡ back_moved ends.old at to }
{
    match at.target() {
        None => ends.back = to,
        Some(key) => cells[key].prev = to,
    }
}

/// Links a work that stands in no list in between these neighbours, and gives its key.
#[inline(always)]
pub(crate) fn link(
    cells: &mut Slab<ListCell>,
    ends: &mut Ends,
    list: u16,
    node: Node,
    prev: Link,
    next: Link,
) -> usize
    requires list { list < NOWHERE }
    requires number { node.work.0 < NOWHERE }
    requires work { ContainsKey cells.old node.work.0 }
    requires prev { IfSome prev (λ key. ContainsKey cells.old key) }
    requires next { IfSome next (λ key. ContainsKey cells.old key) }
    ensures key { result ≡ node.work.0 }
    ensures cells { cells.new ≡ linked_cells cells.old node.work.0 (ranked list node.order) prev next }
    ensures ends { ends.new ≡ linked_ends ends.old node.work.0 prev next }
{
    let key = node.work.0;
    set_next(cells, ends, prev, Link::to(key));
    set_prev(cells, ends, next, Link::to(key));
    cells[key as usize] = ListCell::new(list, node.order, prev, next);
    key as usize
}

/// Has the work stand in no list, and tells where it stood, if it stood in one. Its neighbours still lead to it.
#[inline(always)]
pub(crate) fn leave(cells: &mut Slab<ListCell>, key: usize) -> Option<Place>
    requires work { ContainsKey cells.old key }
    ensures place { result ≡ place_in (cell_at cells.old key) }
    ensures cells { cells.new ≡ freed cells.old key }
{
    let cell = &mut cells[key];
    let list = cell.list.target()?;
    cell.list = Link::nowhere();
    Some(Place {
        list,
        prev: cell.prev,
        next: cell.next,
    })
}

/// Has two works, or the ends of their list, lead to each other.
#[inline(always)]
pub(crate) fn join(cells: &mut Slab<ListCell>, ends: &mut Ends, prev: Link, next: Link)
    requires prev { IfSome prev (λ key. ContainsKey cells.old key) }
    requires next { IfSome next (λ key. ContainsKey cells.old key) }
    ensures cells { cells.new ≡ joined cells.old prev next }
    ensures ends { ends.new ≡ parted_ends ends.old prev next }
{
    set_next(cells, ends, prev, next);
    set_prev(cells, ends, next, prev);
}
