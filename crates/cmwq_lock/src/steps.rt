//! The atomic steps of the lock, one function each, over the two words and the slot of its table.
ghost use Rattle.std.specs.Prelude.{◌≡◌, ◌≢◌, ◌+◌, ◌^◌, ◌<◌, [], ◌∷◌, true, length, Some, None};
ghost use Rattle.cmwq_lock.specs.Views.{is_opener, is_out, is_waiting, is_inside, is_both, loaded_of, given, fresh, taken_back, joined, first_met, second_met};
ghost use Rattle.cmwq_lock.specs.Steps.{load_drawn, exchange_drawn, look_served, end_turn, compare_seen};
ghost use Rattle.cmwq_lock.specs.Rule.{IsLeftHeld};
ghost use Rattle.cmwq_lock.specs.Seats.{IsSeatOf};

use crate::kept::Kept;
use crate::views::{Held, SeatView};
use atomic_table::{Join, Play, Seat, Shared, Split, TableRule};
use std::marker::PhantomData;
use std::snapshot::Snapshot;

/// The word that counts the tickets drawn.
const DRAWN: usize = 0;

/// The word that counts the turns ended.
const SERVED: usize = 1;

/// The slot that has the value.
const SLOT: usize = 0;

pub struct TicketRule<T> {
    kept: PhantomData<T>,
}

impl<T: Kept> TableRule<Option<Held<T>>, SeatView<T::Origin, T::Entry>, Snapshot<T>>
    for TicketRule<T> {
    ghost use Rattle.cmwq_lock.specs.Rule.{IsRuled, opening_view};

    ghost holds = { λ key. IsRuled T.Kept (T.origin key.value) };

    ghost first = { λ key. opening_view (T.origin key.value) };
}

/// A seat at a lock's table.
pub type LockSeat<T> = Seat<Option<Held<T>>, SeatView<<T as Kept>::Origin, <T as Kept>::Entry>>;

/// The words and the slot of a lock.
pub type Words<T> = Shared<
    Option<Held<T>>,
    SeatView<<T as Kept>::Origin, <T as Kept>::Entry>,
    Snapshot<T>,
    TicketRule<T>,
>;

struct LoadDrawn;

impl<T: Kept> Play<Option<Held<T>>, SeatView<T::Origin, T::Entry>> for LoadDrawn {
    ghost then = { λ st m n after. load_drawn m n after };
}

struct ExchangeDrawn;

impl<T: Kept> Play<Option<Held<T>>, SeatView<T::Origin, T::Entry>> for ExchangeDrawn {
    ghost then = { λ st m n after. exchange_drawn T.Kept st.first m n after };
}

struct LookServed;

impl<T: Kept> Play<Option<Held<T>>, SeatView<T::Origin, T::Entry>> for LookServed {
    ghost then = { λ st m n after. look_served T.Kept m n after };
}

struct EndTurn;

impl<T: Kept> Play<Option<Held<T>>, SeatView<T::Origin, T::Entry>> for EndTurn {
    ghost then = { λ st m n after. end_turn T.Kept m after };
}

struct GivePass;

impl<O, E> Split<SeatView<O, E>> for GivePass {
    ghost left = { given };

    ghost right = { fresh };
}

struct TakePass;

impl<O, E> Join<SeatView<O, E>> for TakePass {
    ghost use Rattle.cmwq_lock.specs.declared.views.SeatView.TheVariants.{Spent};

    ghost both = { taken_back };

    ghost spent = { Spent };
}

struct CompareSeen;

impl<T: Kept> Play<Option<Held<T>>, SeatView<T::Origin, T::Entry>> for CompareSeen {
    ghost then = { λ st m n after. compare_seen m after };
}

struct JoinPasses;

impl<O, E> Join<SeatView<O, E>> for JoinPasses {
    ghost use Rattle.cmwq_lock.specs.declared.views.SeatView.TheVariants.{Spent};

    ghost both = { joined };

    ghost spent = { Spent };
}

struct PartPasses;

impl<O, E> Split<SeatView<O, E>> for PartPasses {
    ghost left = { first_met };

    ghost right = { second_met };
}

/// Loads `drawn` once.
pub(crate) fn load<T: Kept>(words: &Words<T>, seat: &mut LockSeat<T>) -> u64
    requires place { IsSeatOf words.now seat.old }
    requires out { is_out seat.old.me.0 ≡ true }
    ensures place { seat.new.table_id ≡ seat.old.table_id }
    ensures tells { load_drawn seat.old.me result seat.new.me }
{
    words.load::<LoadDrawn>(seat, DRAWN)
}

/// Exchanges `drawn` once, from what the seat loaded last to one more, and returns what it found.
pub(crate) fn exchange<T: Kept>(words: &Words<T>, seat: &mut LockSeat<T>, loaded: u64) -> u64
    requires place { IsSeatOf words.now seat.old }
    requires out { is_out seat.old.me.0 ≡ true }
    requires expects { loaded_of seat.old.me.0 ≡ loaded }
    requires room { loaded < 2 ^ 62 }
    ensures place { seat.new.table_id ≡ seat.old.table_id }
    ensures tells { exchange_drawn T.Kept loaded seat.old.me result seat.new.me }
{
    words.compare_exchange::<ExchangeDrawn>(seat, DRAWN, loaded, loaded + 1)
}

/// Looks at `served` once. Where it gives the seat's ticket the slot is taken.
pub(crate) fn look<T: Kept>(words: &Words<T>, seat: &mut LockSeat<T>) -> u64
    requires place { IsSeatOf words.now seat.old }
    requires waits { is_waiting seat.old.me.0 ≡ true }
    requires bare { length seat.old.me.1 ≡ 0 }
    ensures place { seat.new.table_id ≡ seat.old.table_id }
    ensures tells { look_served T.Kept seat.old.me result seat.new.me }
{
    words.load::<LookServed>(seat, SERVED)
}

/// Takes the value out of the slot that the seat has.
pub(crate) fn take_value<T: Kept>(words: &Words<T>, seat: &mut LockSeat<T>) -> Held<T>
    requires place { IsSeatOf words.now seat.old }
    requires full { (h : _) × (seat.old.me.1 ≡ (0, Some h) ∷ []) }
    ensures place { seat.new.table_id ≡ seat.old.table_id }
    ensures value { seat.old.me.1 ≡ (0, Some result) ∷ [] }
    ensures seat { seat.new.me ≡ (seat.old.me.0, (0, None) ∷ []) }
{
    words.exchange(seat, SLOT, None).unwrap()
}

/// Puts the value back into the slot that the seat has.
pub(crate) fn put_value<T: Kept>(words: &Words<T>, seat: &mut LockSeat<T>, held: Held<T>)
    requires place { IsSeatOf words.now seat.old }
    requires empty { seat.old.me.1 ≡ (0, None) ∷ [] }
    ensures place { seat.new.table_id ≡ seat.old.table_id }
    ensures seat { seat.new.me ≡ (seat.old.me.0, (0, Some held) ∷ []) }
{
    let empty = words.exchange(seat, SLOT, Some(held));
    let None = empty else { unreachable!() };
}

/// Ends the turn, and gives the slot back.
pub(crate) fn end<T: Kept>(words: &Words<T>, seat: &mut LockSeat<T>)
    requires place { IsSeatOf words.now seat.old }
    requires inside { is_inside seat.old.me.0 ≡ true }
    requires left { (h : _) × (seat.old.me.1 ≡ (0, Some h) ∷ []) × IsLeftHeld T.Kept seat.old.me.0 h }
    ensures place { seat.new.table_id ≡ seat.old.table_id }
    ensures tells { end_turn T.Kept seat.old.me seat.new.me }
{
    words.fetch_add::<EndTurn>(seat, SERVED, 1);
}

/// Makes the seat of the next pass.
pub(crate) fn give<T: Kept>(words: &Words<T>, opener: &mut LockSeat<T>) -> LockSeat<T>
    requires place { IsSeatOf words.now opener.old }
    requires opens { is_opener opener.old.me.0 ≡ true }
    ensures place { (opener.new.table_id ≡ opener.old.table_id) × (result.table_id ≡ opener.old.table_id) }
    ensures opener { opener.new.me ≡ (given opener.old.me.0, opener.old.me.1) }
    ensures pass { result.me ≡ (fresh opener.old.me.0, []) }
{
    words.split_seat::<GivePass>(opener)
}

/// Ends the seat of a pass.
pub(crate) fn take_back<T: Kept>(words: &Words<T>, opener: &mut LockSeat<T>, pass: LockSeat<T>)
    requires seats { IsSeatOf words.now opener.old × IsSeatOf words.now pass }
    requires opens { is_opener opener.old.me.0 ≡ true }
    requires out { is_out pass.me.0 ≡ true }
    requires bare { length pass.me.1 ≡ 0 }
    ensures place { opener.new.table_id ≡ opener.old.table_id }
    ensures opener { opener.new.me ≡ (taken_back opener.old.me.0 pass.me.0, opener.old.me.1) }
{
    words.join_seat::<TakePass>(opener, pass)
}

/// Takes a second pass in at the seat of a first, and ends its own seat.
pub(crate) fn join<T: Kept>(words: &Words<T>, first: &mut LockSeat<T>, second: LockSeat<T>)
    requires seats { IsSeatOf words.now first.old × IsSeatOf words.now second }
    requires first_out { is_out first.old.me.0 ≡ true }
    requires second_out { is_out second.me.0 ≡ true }
    requires bare { length second.me.1 ≡ 0 }
    ensures place { first.new.table_id ≡ first.old.table_id }
    ensures both { first.new.me ≡ (joined first.old.me.0 second.me.0, first.old.me.1) }
{
    words.join_seat::<JoinPasses>(first, second)
}

/// Loads `served` once at the seat of two passes, which tells how the logs that they have seen go together.
pub(crate) fn compare<T: Kept>(words: &Words<T>, both: &mut LockSeat<T>)
    requires place { IsSeatOf words.now both.old }
    requires both { is_both both.old.me.0 ≡ true }
    ensures place { both.new.table_id ≡ both.old.table_id }
    ensures tells { compare_seen both.old.me both.new.me }
{
    words.load::<CompareSeen>(both, SERVED);
}

/// Gives the second of two passes a seat of its own. Both have then seen the longer of their logs.
pub(crate) fn part<T: Kept>(words: &Words<T>, both: &mut LockSeat<T>) -> LockSeat<T>
    requires place { IsSeatOf words.now both.old }
    requires both { is_both both.old.me.0 ≡ true }
    ensures place { (both.new.table_id ≡ both.old.table_id) × (result.table_id ≡ both.old.table_id) }
    ensures first { both.new.me ≡ (first_met both.old.me.0, both.old.me.1) }
    ensures second { result.me ≡ (second_met both.old.me.0, []) }
{
    words.split_seat::<PartPasses>(both)
}
