//! What the lists of a dump are, as laws: the functions do nothing, they carry the laws.
ghost use Rattle.cmwq_dump.specs.Laws.{ListsEachIdleWorker, ListsEachWork, ListsIdleWorkersInOrder, ListsWorksInOrder};

/// Each work of a group stands in its lines once, and no other work does.
#[tactic(auto, using(crate::proofs::LawLemmas::each_work))]
pub fn each_work_is_listed_once()
    ensures { ListsEachWork }
{}

/// None of them comes, in the group's order, before one that stands before it.
#[tactic(auto, using(crate::proofs::LawLemmas::works_in_order))]
pub fn works_are_listed_in_order()
    ensures { ListsWorksInOrder }
{}

/// Each idle worker of a pool stands in its line once, and no other worker does.
#[tactic(auto, using(crate::proofs::LawLemmas::each_idle_worker))]
pub fn each_idle_worker_is_listed_once()
    ensures { ListsEachIdleWorker }
{}

/// None of them became idle later than one that stands before it.
#[tactic(auto, using(crate::proofs::LawLemmas::idle_workers_in_order))]
pub fn idle_workers_are_listed_in_order()
    ensures { ListsIdleWorkersInOrder }
{}
