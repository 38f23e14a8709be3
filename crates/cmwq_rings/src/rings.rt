//! The search for a ring.
ghost use Rattle.cmwq_rings.specs.Rings.{HasNoRing, IsRing, goes_in_ring, names_of, pairs_of};
ghost use Rattle.cmwq_rings.specs.Searching.{BeginsAt, BeginsNone, HasNoRingThrough, IsLast, IsTaken};
ghost use Rattle.std.specs.Prelude.{◌≡◌, ◌<◌, ◌+◌, IfOk, IfSome, MatchOption, OnSome, None, is_some, length};

use cmwq_exploration::Precedence;
use std::alloc::{AllocError, Global};

/// Actors each of whom has to end before the next begins, and the last before the first; `None` where there are none. The error is want of memory.
pub fn find_ring<'a>(
    alloc: Global,
    before: &[Precedence<'a>],
) -> Result<Option<Vec<&'a str>>, AllocError>
    ensures found { IfOk result (λ found. MatchOption found (HasNoRing (pairs_of before.now)) (λ ring. IsRing (pairs_of before.now) (names_of ring.items))) }
    ensures told { IfOk result (λ found. is_some found ≡ goes_in_ring (pairs_of before.now)) }
{
    for pair in before {
        let ring = ring_through(alloc, before, pair.first)?;
        if ring.is_some() {
            return Ok(ring);
        }
    }
    Ok(None)
}

/// The same, for rings that begin with this actor: it follows each pair once, and goes back where none is left.
fn ring_through<'a>(
    alloc: Global,
    before: &[Precedence<'a>],
    actor: &'a str,
) -> Result<Option<Vec<&'a str>>, AllocError>
    ensures { IfOk result (λ found. MatchOption found (HasNoRingThrough (pairs_of before.now) actor.now) (λ ring. IsRing (pairs_of before.now) (names_of ring.items))) }
{
    let mut left = before.to_vec(alloc)?;
    let mut path = Vec::new(alloc);
    path.push(actor)?;
    'search: while let Some(name) = path.pop() {
        if let Some(next) = take_next(&mut left, name) {
            path.push(name)?;
            if next == actor {
                return Ok(Some(path));
            }
            path.push(next)?;
        }
    }
    Ok(None)
}

/// Takes out a pair in which this actor has to end first, and gives who begins then; `None` where there is none.
fn take_next<'a>(left: &mut Vec<Precedence<'a>>, actor: &str) -> Option<&'a str>
    ensures none { result ≡ None → IsLast (pairs_of left.old.items) actor.now }
    ensures same { result ≡ None → left.new ≡ left.old }
    ensures taken { IfSome result (λ next. IsTaken (pairs_of left.old.items) (pairs_of left.new.items) actor.now next.now) }
    ensures fewer { OnSome result (length left.new.items + 1 ≡ length left.old.items) }
{
    let place = place_from(left, actor)?;
    Some(left.remove(place).then)
}

/// Where the first pair is in which this actor has to end first; `None` where there is none.
fn place_from(left: &[Precedence<'_>], actor: &str) -> Option<usize>
    ensures { MatchOption result (BeginsNone actor.now left.now (length left.now)) (λ place. (place < length left.now) × BeginsAt actor.now left.now place) }
{
    for place in 0..left.len() {
        if left[place].first == actor {
            return Some(place);
        }
    }
    None
}
