//! Linked lists: the worked example.
ghost use Rattle.cmwq_lists.specs.ListContents.{no_ranks};
ghost use Rattle.std.specs.Prelude.{◌≡◌, length};

use crate::checking::same;
use cmwq_lists::{Lists, Node};
use cmwq_types::WorkId;
use std::process::Abort;
use std::test::Fail;

fn node(order: u128, work: u16) -> Node
    ensures { result ≡ record { order = order; work = record { 0 = work } } }
{
    Node {
        order,
        work: WorkId(work),
    }
}

/// Puts a node of order 5 and then one of order 3 into the first of two empty lists, and answers the last one's key.
fn put_two(rt: &impl Abort, lists: &mut Lists) -> usize
    requires { lists.old ≡ no_ranks 2 3 }
    ensures lists { lists.new.lists ≡ 2 }
    ensures works { length lists.new.ranks ≡ 3 }
{
    assert!(rt; !lists.contains(0));
    assert!(rt; lists.is_above(0, 5));
    lists.push_back(0, node(5, 0));
    assert!(rt; !lists.contains(1));
    assert!(rt; lists.is_apart(0, 3));
    lists.insert_by(0, node(3, 1))
}

/// The node of order 5 stands behind the one of this key, which is then popped.
fn check_order(rt: &impl Abort, lists: &mut Lists, key: usize)
    requires { lists.old.lists ≡ 2 }
{
    assert!(rt; lists.contains(key));
    same(rt, "the next", lists.next(key), Some(node(5, 0)));
    same(rt, "popped", lists.pop_front(0), Some(node(3, 1)));
    same(rt, "the front", lists.front(0), Some(node(5, 0)));
}

#[test]
fn the_lesser_order_stands_in_front_of_a_list_and_of_its_copy(rt: HostRuntime) -> Result<(), Fail> {
    let mut lists = Lists::new(rt.alloc(), 2, 3)?;
    let key = put_two(&rt, &mut lists);
    let mut copy = lists.copy()?;
    check_order(&rt, &mut lists, key);
    check_order(&rt, &mut copy, key);
    Ok(())
}
