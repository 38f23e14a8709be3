//! Equality of works, actors and scenarios: by their contents, whatever the capacities of their lists.
ghost use Rattle.std.specs.Cmp.{decided, partial_equiv_from_equiv};
ghost use Rattle.std.specs.Prelude.{◌≡◌, ◌↔◌, IsTrue};
ghost use Rattle.cmwq_types.specs.ExactEquality.{actor_eq_is_exact, scenario_eq_is_exact, work_eq_is_exact};
ghost use Rattle.cmwq_types.specs.Equality.{actor_eq, scenario_eq, work_eq};

use crate::scenario::{Actor, Scenario, WorkDecl};

/// Two works are equal exactly where their contents are.
impl PartialEq for WorkDecl {
    ghost eq = { work_eq };

    ghost laws = { partial_equiv_from_equiv (decided work_eq work_eq_is_exact) };

    fn eq(&self, other: &WorkDecl) -> bool
        ensures by_parts { result ≡ work_eq self.now other.now }
        ensures exact { IsTrue result ↔ (self.now ≡ other.now) }
    {
        self.name == other.name && self.queue == other.queue && self.body == other.body
    }
}

impl Eq for WorkDecl {
    ghost laws = { decided work_eq work_eq_is_exact };
}

/// Two actors are equal exactly where their contents are.
impl PartialEq for Actor {
    ghost eq = { actor_eq };

    ghost laws = { partial_equiv_from_equiv (decided actor_eq actor_eq_is_exact) };

    fn eq(&self, other: &Actor) -> bool
        ensures by_parts { result ≡ actor_eq self.now other.now }
        ensures exact { IsTrue result ↔ (self.now ≡ other.now) }
    {
        self.name == other.name && self.lines == other.lines
    }
}

impl Eq for Actor {
    ghost laws = { decided actor_eq actor_eq_is_exact };
}

/// Two scenarios are equal exactly where their contents are.
impl PartialEq for Scenario {
    ghost eq = { scenario_eq };

    ghost laws = { partial_equiv_from_equiv (decided scenario_eq scenario_eq_is_exact) };

    fn eq(&self, other: &Scenario) -> bool
        ensures by_parts { result ≡ scenario_eq self.now other.now }
        ensures exact { IsTrue result ↔ (self.now ≡ other.now) }
    {
        self.cpus == other.cpus
            && self.workers == other.workers
            && self.steps == other.steps
            && self.flushes == other.flushes
            && self.queues == other.queues
            && self.works == other.works
            && self.actors == other.actors
    }
}

impl Eq for Scenario {
    ghost laws = { decided scenario_eq scenario_eq_is_exact };
}
