//! What is done with one input.

use cmwq_drawing::Drawing;
use cmwq_question::Inquiry;
use cmwq_reports::{Times, TraceForm};

/// How a scenario is run.
#[derive(Clone, Copy, PartialEq, Eq)]
pub enum RunKind {
    /// As far as its actor's instructions go.
    Plain,
    /// On by `next` until the machine is quiet.
    Settled,
    /// As far as they go, with each instruction and what it changes unseen.
    Told,
    /// On by `next` until the machine is quiet, with each instruction and what it changes unseen.
    ToldSettled,
}

/// What is done with an input: the text of a scenario, or an image.
#[derive(Clone, Copy, PartialEq, Eq)]
pub enum Task<'a> {
    /// The scenario is run.
    Run(RunKind),
    /// The scenario is listed, with as many `next` more as make its machine quiet.
    Settle,
    /// The scenario is listed.
    List,
    /// The scenario of the image is listed.
    Show,
    /// The scenario's run is drawn.
    Draw(Drawing<'a>),
    /// The question to the scenario's run is answered.
    Why(Inquiry<'a>),
    /// It is told where the time of the scenario's run went.
    Times(Times),
    /// The scenario's run is written for tools that show traces.
    Trace(TraceForm),
}
