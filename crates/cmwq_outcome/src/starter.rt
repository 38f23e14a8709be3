//! The scenario that a newcomer starts from.
ghost use Rattle.cmwq_examples.specs.Rows.{printed};
ghost use Rattle.cmwq_outcome.specs.Starter.{first_lines, first_scenario};
ghost use Rattle.cmwq_grammar.specs.Grammar.{Spells};
ghost use Rattle.std.specs.Prelude.{◌≡◌};

const FIRST_TEXT: &str = "\
# Two work items share a CPU: b starts when a goes to sleep.
#
#   cmwq run FILE         prints a line for each event
#   cmwq draw FILE        draws a picture of it
#   cmwq why FILE b       prints what b waits for, each time that this changes
#   cmwq debug FILE       steps through it, forward and back
#   cmwq help scenario    prints what a scenario may contain
#
# Then try max 1: b waits until a has finished, though the CPU is free from 3 to 8.

cpus 1           # the machine has one CPU,
workers 4        # at most 4 workers per pool,
steps 1000       # and accepts at most 1000 instructions
flushes 0

queue q max 2    # a queue that can have two active work items
work a q
work b q

body a           # what the work function of a does:
burn 3           # it needs the CPU for 3 ticks,
sleep 5          # sleeps for 5 ticks without it,
burn 1           # and needs it for 1 more tick
finish

body b
burn 4
finish

actor me         # what the caller does:
queue a 0        # it queues both work items on CPU 0,
queue b 0
quiet * 100      # and waits until both have finished, for at most 100 moves and ticks
";

/// The text of a scenario to start from, with comments.
pub fn first_text() -> &'static str
    ensures scenario { Spells result.now first_scenario }
{
    FIRST_TEXT
}

/// What that scenario prints.
pub fn first_scenario_prints()
    ensures { printed first_scenario ≡ first_lines }
{}
