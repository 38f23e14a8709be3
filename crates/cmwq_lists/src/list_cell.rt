//! A work's cell: where the work stands, with its links.
ghost use Rattle.cmwq_lists.specs.Cells.{linked_cell, no_cell, order_stored, ranked};
ghost use Rattle.cmwq_lists.specs.declared.link.TheConstants.{NOWHERE};
ghost use Rattle.std.specs.Prelude.{◌≡◌, ◌<◌, ◌+◌, ◌*◌, ◌/◌, ◌%◌, ◌^◌, nat_lt};

use crate::link::Link;

/// The list in which a work stands, if it stands in one, the order by which it does, as its upper and its lower half,
/// which is four times as quick as one number of 128 bits, and its neighbours there.
#[derive(Clone, Copy)]
pub(crate) struct ListCell {
    pub(crate) high: u64,
    pub(crate) low: u64,
    pub(crate) list: Link,
    pub(crate) prev: Link,
    pub(crate) next: Link,
}

/// The first and the last work of a list.
#[derive(Clone, Copy)]
pub(crate) struct Ends {
    pub(crate) front: Link,
    pub(crate) back: Link,
}

impl ListCell {
    /// A work stands in the list by this order, between these neighbours.
    #[inline(always)]
    pub(crate) fn new(list: u16, order: u128, prev: Link, next: Link) -> ListCell
        requires list { list < NOWHERE }
        ensures { result ≡ linked_cell (ranked list order) prev next }
    {
        ListCell {
            high: (order >> 64) as u64,
            low: (order & 0xffff_ffff_ffff_ffff) as u64,
            list: Link::to(list),
            prev,
            next,
        }
    }

    /// A work stands in no list.
    pub(crate) fn free() -> ListCell
        ensures { result ≡ no_cell }
    {
        ListCell {
            high: 0,
            low: 0,
            list: Link::nowhere(),
            prev: Link::nowhere(),
            next: Link::nowhere(),
        }
    }

    /// The order by which the work stands, where it stands in a list.
    #[inline(always)]
    pub(crate) fn order(&self) -> u128
        ensures { result ≡ order_stored self.now }
    {
        let (high, low) = (self.high, self.low);
        u128::from(high) * (1 << 64) + u128::from(low)
    }
}
