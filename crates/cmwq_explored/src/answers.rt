//! What is said where no order is found.
ghost use Rattle.cmwq_explored.specs.Answers.{actor_name, counts_text, gave_up_line, in_all, is_vacuous, whole_line, whole_outcome, whole_words};
ghost use Rattle.std.specs.Prelude.{◌≡◌, Some};

use crate::outcome::Outcome;
use cmwq_explore::Tally;
use cmwq_orders::Question;
use cmwq_types::Scenario;
use std::fmt;

/// The actor's name; empty where no actor has the number.
pub(crate) fn actor_name(scenario: &Scenario, actor: usize) -> &str
    ensures { result.now ≡ actor_name scenario.now actor }
{
    match scenario.actors.get(actor) {
        Some(actor) => actor.name.as_str(),
        None => "",
    }
}

/// Whether what the answer speaks of comes nowhere.
fn is_vacuous(question: Question, tally: Tally) -> bool
    ensures { result ≡ is_vacuous question tally }
{
    match question {
        Question::Never(_) => false,
        Question::Together(..) => tally.first == 0 || tally.second == 0,
        Question::After { .. } | Question::Stuck => tally.first == 0,
    }
}

/// What it comes to that no order comes to a state of the kind.
pub(crate) fn whole_outcome(question: Question, tally: Tally) -> Outcome
    ensures { result ≡ whole_outcome question tally }
{
    if is_vacuous(question, tally) || tally.spent != 0 {
        Outcome::Open
    } else {
        Outcome::Holds
    }
}

/// The line that says that no order of the scenario's actors comes to a state of the kind.
#[derive(Clone, Copy)]
pub(crate) struct WholeLine<'a> {
    /// The scenario.
    pub(crate) scenario: &'a Scenario,
    /// The kind of state.
    pub(crate) question: Question,
    /// How many states there are.
    pub(crate) tally: Tally,
}

impl fmt::Display for WholeLine<'_> {
    ghost output = { λ line. Some (whole_line line.scenario.now line.question line.tally) };

    #[tactic(auto, unfolding(crate::specs::Answers::whole_line))]
    fn fmt<W: fmt::Write>(&self, f: &mut fmt::Formatter<W>) -> fmt::Result {
        let words = WholeWords(*self);
        let counts = Counts(*self);
        let states = self.tally.states;
        write!(f, "{words}in all {states} states; {counts}\n")
    }
}

/// How such a line begins.
#[derive(Clone, Copy)]
struct WholeWords<'a>(WholeLine<'a>);

impl fmt::Display for WholeWords<'_> {
    ghost output = { λ words. Some (whole_words words.0.scenario.now (is_vacuous words.0.question words.0.tally) words.0.tally) };

    fn fmt<W: fmt::Write>(&self, f: &mut fmt::Formatter<W>) -> fmt::Result {
        let WholeLine {
            scenario,
            question,
            tally,
        } = self.0;
        if is_vacuous(question, tally) {
            f.write_str("vacuous ")
        } else if tally.spent == 0 {
            f.write_str("holds ")
        } else {
            write!(f, "holds within {} steps, ", scenario.steps)
        }
    }
}

/// In how many states what is counted holds.
#[derive(Clone, Copy)]
struct Counts<'a>(WholeLine<'a>);

impl fmt::Display for Counts<'_> {
    ghost output = { λ counts. Some (counts_text counts.0.scenario.now counts.0.question counts.0.tally) };

    fn fmt<W: fmt::Write>(&self, f: &mut fmt::Formatter<W>) -> fmt::Result {
        let scenario = self.0.scenario;
        let Tally { first, second, .. } = self.0.tally;
        match self.0.question {
            Question::After { actor, .. } => {
                let actor = actor_name(scenario, actor as usize);
                write!(f, "{actor} has ended in {first}")
            }
            Question::Never(work) => {
                let work = scenario.work_name(work.0 as usize);
                write!(f, "{work} is pending in {first}")
            }
            Question::Together(v, w) => {
                let one = scenario.work_name(v.0 as usize);
                let other = scenario.work_name(w.0 as usize);
                write!(f, "{one} runs in {first}, {other} in {second}")
            }
            Question::Stuck => write!(f, "all actors have ended in {first}"),
        }
    }
}

/// The line that says how far a search went that found nothing.
#[derive(Clone, Copy)]
pub(crate) struct GaveUpLine {
    /// How many states were seen.
    pub(crate) states: usize,
    /// How many instructions an order had at most.
    pub(crate) depth: u16,
}

impl fmt::Display for GaveUpLine {
    ghost output = { λ line. Some (gave_up_line line.states line.depth) };

    #[tactic(auto, unfolding(crate::specs::Answers::gave_up_line))]
    fn fmt<W: fmt::Write>(&self, f: &mut fmt::Formatter<W>) -> fmt::Result {
        let GaveUpLine { states, depth } = *self;
        write!(
            f,
            "gave up at {states} states; holds for all orders of at most {depth} instructions\n"
        )
    }
}
