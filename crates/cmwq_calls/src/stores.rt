//! Lists and timers: made, and copied once some works stand in them.
ghost use Rattle.std.specs.Prelude.{◌<◌};

use crate::showing::say;
use crate::trying::{Tried, try_call};
use cmwq_lists::{Lists, Node};
use cmwq_play::PlayError;
use cmwq_timers::{Timer, Timers};
use cmwq_types::{NoMemory, WorkId};
use std::alloc::Global;
use std::marker::Model;

/// A call of lists or timers, or of those that are to be.
#[derive(Clone, Copy)]
pub(crate) enum StoreCall {
    New,
    Copy,
}

/// How many lists there are.
const LISTS: u16 = 3;

/// How many works may stand in a list, or have a timer.
const WORKS: u16 = 8;

/// Lists or timers of [`WORKS`] works.
trait Store: Drop {
    /// The call that makes them.
    fn new(alloc: Global) -> Result<Self, NoMemory>;

    /// The call that copies them.
    fn copy(&self) -> Result<Self, NoMemory>;

    /// Puts works in that aren't there.
    fn fill(&mut self);

    /// Prints what they hold.
    fn show<R: Print>(&self, rt: &R) -> Result<(), PlayError>;
}

/// [`LISTS`] lists for [`WORKS`] works.
#[derive(Drop)]
struct SomeLists {
    lists: Lists,
}

impl Model for SomeLists {
    ghost use Rattle.cmwq_lists.specs.ListContents.{ListContents};
    ghost use Rattle.std.specs.Prelude.{◌≡◌, length};

    ghost Value = { ListContents };

    ghost view = { λ some. some.lists };

    ghost invariant = { λ some. (some.lists.lists ≡ 3) × (length some.lists.ranks ≡ 8) };
}

impl SomeLists {
    /// Puts the work into the list, unless it stands in one, or another one of this order stands there.
    fn put(&mut self, list: u16, order: u16, work: u16)
        requires list { list < 3 }
        requires work { work < 8 }
    {
        let SomeLists { lists } = self;
        let (list, order) = (usize::from(list), u128::from(order));
        if !lists.contains(usize::from(work)) && lists.is_apart(list, order) {
            let work = WorkId(work);
            lists.insert_by(list, Node { order, work });
        }
    }

    /// Prints the list's nodes, in their order.
    fn show_list<R: Print>(&self, rt: &R, list: u16) -> Result<(), PlayError>
        requires { list < 3 }
    {
        let SomeLists { lists } = self;
        let mut left = lists.front(usize::from(list));
        for _ in 0..WORKS {
            let Some(node) = left else {
                return Ok(());
            };
            let Node { order, work } = node;
            let work = work.0;
            say(rt, format_args!("list {list}: work {work} order {order}"))?;
            let key = usize::from(work);
            left = if lists.contains(key) {
                lists.next(key)
            } else {
                None
            };
        }
        Ok(())
    }
}

impl Store for SomeLists {
    fn new(alloc: Global) -> Result<SomeLists, NoMemory> {
        let lists = Lists::new(alloc, LISTS, WORKS)?;
        Ok(SomeLists { lists })
    }

    fn copy(&self) -> Result<SomeLists, NoMemory> {
        let lists = self.lists.copy()?;
        Ok(SomeLists { lists })
    }

    fn fill(&mut self) {
        for work in 0..WORKS {
            self.put(work % LISTS, work * 5 % 7, work);
        }
    }

    fn show<R: Print>(&self, rt: &R) -> Result<(), PlayError> {
        for list in 0..LISTS {
            self.show_list(rt, list)?;
        }
        Ok(())
    }
}

/// The timers of [`WORKS`] works.
#[derive(Drop)]
struct SomeTimers {
    timers: Timers,
}

impl Model for SomeTimers {
    ghost use Rattle.std.specs.Prelude.{◌≡◌, List, Option, length};
    ghost use Rattle.cmwq_timers.specs.declared.timer.Timer.{Timer};

    ghost Value = { List (Option Timer) };

    ghost view = { λ some. some.timers };

    ghost invariant = { λ some. length some.timers ≡ 8 };
}

impl SomeTimers {
    /// Starts the work's timer, unless it has one.
    fn put(&mut self, work: u16, due: u16)
        requires { work < 8 }
    {
        let SomeTimers { timers } = self;
        if timers.get(WorkId(work)).is_none() {
            timers.put(Timer {
                due: u64::from(due),
                stamp: u64::from(work),
                work: WorkId(work),
                cpu: 0,
            });
        }
    }
}

impl Store for SomeTimers {
    fn new(alloc: Global) -> Result<SomeTimers, NoMemory> {
        let timers = Timers::new(alloc, WORKS)?;
        Ok(SomeTimers { timers })
    }

    fn copy(&self) -> Result<SomeTimers, NoMemory> {
        let timers = self.timers.copy()?;
        Ok(SomeTimers { timers })
    }

    fn fill(&mut self) {
        for work in 0..WORKS {
            self.put(work, work * 5 % 7);
        }
    }

    fn show<R: Print>(&self, rt: &R) -> Result<(), PlayError> {
        for work in 0..WORKS {
            say(rt, format_args!("timer of {work}"))?;
            show_timer(rt, self.timers.get(WorkId(work)))?;
        }
        say(rt, "the first")?;
        show_timer(rt, self.timers.least())
    }
}

/// Prints a timer, or that there is none.
fn show_timer<R: Print>(rt: &R, timer: Option<Timer>) -> Result<(), PlayError> {
    match timer {
        Some(
            Timer {
                due,
                stamp,
                work,
                cpu,
            },
        ) => {
            let work = work.0;
            say(
                rt,
                format_args!("work {work} cpu {cpu} due {due} stamp {stamp}"),
            )
        }
        None => say(rt, "none"),
    }
}

/// Lists or timers, and a call.
#[derive(Drop)]
struct OnStore<S: Store> {
    store: S,
    call: StoreCall,
}

impl<S: Store> Tried for OnStore<S> {
    type Answer = S;

    fn show_held<R: Print>(&mut self, rt: &R) -> Result<(), PlayError> {
        self.store.show(rt)
    }

    fn call(&mut self, alloc: Global) -> Result<S, PlayError> {
        match self.call {
            StoreCall::New => Ok(S::new(alloc)?),
            StoreCall::Copy => Ok(self.store.copy()?),
        }
    }

    /// They are shown as they are, and once works were put in.
    fn show_answer<R: Print>(
        &mut self,
        rt: &R,
        _alloc: Global,
        mut answer: S,
    ) -> Result<(), PlayError> {
        answer.show(rt)?;
        answer.fill();
        answer.show(rt)
    }
}

/// Makes a call of lists.
pub(crate) fn try_lists<R: Print>(rt: &R, alloc: Global, call: StoreCall) -> Result<(), PlayError> {
    try_store::<SomeLists, R>(rt, alloc, call)
}

/// Makes a call of timers.
pub(crate) fn try_timers<R: Print>(
    rt: &R,
    alloc: Global,
    call: StoreCall,
) -> Result<(), PlayError> {
    try_store::<SomeTimers, R>(rt, alloc, call)
}

/// Makes a call of lists or timers in which works stand.
fn try_store<S: Store, R: Print>(rt: &R, alloc: Global, call: StoreCall) -> Result<(), PlayError> {
    let mut store = S::new(alloc)?;
    store.fill();
    try_call(rt, alloc, &mut OnStore { store, call })
}
