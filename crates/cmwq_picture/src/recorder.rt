//! A scenario's run on a machine, recorded column by column.
ghost use Rattle.cmwq_picture.specs.Column.{column_of};
ghost use Rattle.cmwq_picture.specs.Picture.{deeds_of, from_time};
ghost use Rattle.cmwq_picture.specs.PictureOfRun.{IsDrawError};
ghost use Rattle.cmwq_picture.specs.Recording.{armed_by, recording_begun, issued, issued_all, noted, overflows};
ghost use Rattle.cmwq_table.specs.State.{start};
ghost use Rattle.cmwq_types.specs.Faults.{IsValid};
ghost use Rattle.cmwq_types.specs.Scenario.{expand_lines};
ghost use Rattle.cmwq_types.specs.Setting.{IsSetting};
ghost use Rattle.cmwq_types.specs.declared.limits.TheConstants.{MAX_STEPS};
ghost use Rattle.std.specs.Prelude.{◌≡◌, ◌<◌, ◌≤◌, ◌+◌, [], ◌∷◌, ◌++◌, Err, IfErr, OnOk, length, true};

use crate::acting::is_act;
use crate::arming::{Arming, new_arming};
use crate::columns::Columns;
use crate::moment::Moment;
use crate::row::Act;
use crate::span::{MAX_COLUMNS, is_drawn, is_open};
use cmwq_drawing::Span;
use cmwq_runs::Instructions;
use cmwq_streams::PlayError;
use cmwq_table::Machine;
use cmwq_types::{Instr, Line, NoMemory, Reply, Scenario};
use std::alloc::Global;
use std::marker::Model;
use std::mem;

/// A scenario's run on a machine, with a column for each tick that is drawn.
#[derive(Drop)]
pub(crate) struct Recorder<'s, M: Machine> {
    scenario: &'s Scenario,
    machine: M,
    span: Span,
    /// Whether the actor did something since the last tick.
    acted: bool,
    /// The timers that bodies set since the last tick, in order.
    armed: Vec<Arming>,
    /// What the actor did in the span.
    acts: Vec<Act>,
    columns: Columns,
}

impl<'s, M: Machine> Model for Recorder<'s, M> {
    ghost use Rattle.cmwq_picture.specs.Picture.{deeds_of};
    ghost use Rattle.cmwq_picture.specs.Recording.{IsRecording, Recording, recording_of};
    ghost use Rattle.std.specs.Prelude.{◌≡◌};

    ghost Value = { Recording };

    ghost view = { λ r. recording_of r.scenario.now r.span (M.state r.machine) (deeds_of r.acted r.armed.items) r.acts.items r.columns };

    ghost invariant = { λ r. IsRecording (recording_of r.scenario.now r.span (M.state r.machine) (deeds_of r.acted r.armed.items) r.acts.items r.columns)
        × (M.loaded r.machine ≡ r.scenario.now) };
}

impl<'s, M: Machine> Recorder<'s, M> {
    ghost use Rattle.cmwq_picture.specs.Column.{column_of};
    ghost use Rattle.cmwq_picture.specs.Picture.{deeds_of, from_time};
    ghost use Rattle.cmwq_picture.specs.PictureOfRun.{IsDrawError};
    ghost use Rattle.cmwq_picture.specs.Recording.{armed_by, recording_begun, issued, issued_all, noted, overflows};
    ghost use Rattle.cmwq_table.specs.State.{start};
    ghost use Rattle.cmwq_types.specs.Faults.{IsValid};
    ghost use Rattle.cmwq_types.specs.Scenario.{expand_lines};
    ghost use Rattle.cmwq_types.specs.Setting.{IsSetting};
    ghost use Rattle.cmwq_types.specs.declared.limits.TheConstants.{MAX_STEPS};
    ghost use Rattle.std.specs.Prelude.{◌<◌, ◌≤◌, ◌+◌, [], ◌∷◌, ◌++◌, Err, IfErr, OnOk, length, true};

    /// Nothing is recorded yet.
    pub(crate) fn new(
        alloc: Global,
        scenario: &'s Scenario,
        machine: M,
        span: Span,
    ) -> Recorder<'s, M>
        requires valid { IsValid scenario.now }
        requires loaded { M.loaded machine ≡ scenario.now }
        requires start { M.state machine ≡ start scenario.now }
        ensures { result ≡ recording_begun scenario.now span }
    {
        Recorder {
            scenario,
            machine,
            span,
            acted: false,
            armed: Vec::new(alloc),
            acts: Vec::new(alloc),
            columns: Columns::new(alloc),
        }
    }

    /// Issues the lines' instructions.
    ///
    /// It answers `TooWide` as soon as it has come to more stretches in which nothing changes than a picture may have columns.
    pub(crate) fn issue_all(&mut self, alloc: Global, lines: &[Line]) -> Result<(), PlayError>
        ensures ok { OnOk result (self.new ≡ issued_all self.old (expand_lines lines.now)) }
        ensures why { IfErr result (λ error. IsDrawError error) }
        ensures wide { result ≡ Err PlayError.TooWide → overflows (issued_all self.old (expand_lines lines.now)) ≡ true }
    {
        for instr in Instructions::of(lines) {
            self.issue(alloc, instr)?;
        }
        Ok(())
    }

    /// Issues one instruction. Where it lets a tick pass that is drawn, there is one column more.
    fn issue(&mut self, alloc: Global, instr: Instr) -> Result<(), PlayError>
        ensures ok { OnOk result (self.new ≡ issued self.old instr) }
        ensures why { IfErr result (λ error. IsDrawError error) }
        ensures wide { result ≡ Err PlayError.TooWide → overflows (issued self.old instr) ≡ true }
    {
        let time = self.machine.now();
        let reply = self.machine.exec(instr);
        self.note(time, instr, reply)?;
        if self.machine.now() == time {
            return Ok(());
        }
        let acted = self.acted;
        self.acted = false;
        let armed = self.take_armed(alloc);
        if is_drawn(self.span, time) {
            return self.draw(alloc, acted, &armed);
        }
        Ok(())
    }

    /// Notes what the actor did, if it did something by this instruction, and the timer that a body set, if one did.
    fn note(&mut self, time: u64, instr: Instr, reply: Reply) -> Result<(), NoMemory>
        ensures { OnOk result (self.new ≡ noted self.old time instr reply) }
    {
        self.note_arming(time, reply)?;
        if !is_act(instr, reply) {
            return Ok(());
        }
        self.acted = true;
        if is_drawn(self.span, time) {
            self.acts.push(Act { time, instr })?;
        }
        Ok(())
    }

    /// Notes the timer that a body set, if one did.
    fn note_arming(&mut self, time: u64, reply: Reply) -> Result<(), NoMemory>
        ensures { OnOk result (self.new ≡ record self.old { deeds = deeds_of self.old.deeds.acted (armed_by self.old.deeds.armed time self.old.state reply) }) }
    {
        if let Some(arming) = new_arming(time, &self.machine, reply) {
            self.armed.push(arming)?;
        }
        Ok(())
    }

    /// Hands out the timers that bodies set since the last tick, and begins anew.
    fn take_armed(&mut self, alloc: Global) -> Vec<Arming>
        ensures taken { result.items ≡ self.old.deeds.armed }
        ensures begun { self.new ≡ record self.old { deeds = deeds_of self.old.deeds.acted [] } }
    {
        mem::replace(&mut self.armed, Vec::new(alloc))
    }

    /// One column more, for the tick that has just passed: it has changed no sign.
    fn draw(&mut self, alloc: Global, acted: bool, armed: &[Arming]) -> Result<(), PlayError>
        requires later { from_time self.old.span.from + length self.old.columns < self.old.state.time }
        ensures ok { OnOk result (self.new ≡ record self.old { columns = self.old.columns ++ column_of self.old.scenario self.old.state (deeds_of acted armed.now) ∷ [] }) }
        ensures why { IfErr result (λ error. IsDrawError error) }
        ensures wide { result ≡ Err PlayError.TooWide → overflows (record self.old { columns = self.old.columns ++ column_of self.old.scenario self.old.state (deeds_of acted armed.now) ∷ [] }) ≡ true }
    {
        let moment = Moment::new(alloc, &self.machine)?;
        let column = moment.column(alloc, acted, armed)?;
        self.columns.push(column)?;
        if is_open(self.span) && self.columns.stretch_count() > MAX_COLUMNS {
            return Err(PlayError::TooWide);
        }
        Ok(())
    }

    /// What was recorded.
    pub(crate) fn into_recorded(self) -> Recorded
        ensures columns { result.columns ≡ self.entry.columns }
        ensures acts { result.acts.items ≡ self.entry.acts }
        ensures setting { IsSetting self.entry.scenario }
        ensures few { length self.entry.columns ≤ MAX_STEPS }
        ensures late { 0 < length self.entry.columns → from_time self.entry.span.from + length self.entry.columns ≤ MAX_STEPS }
    {
        let Recorder {
            scenario: _,
            machine: _,
            span: _,
            acted: _,
            armed: _,
            acts,
            columns,
        } = self;
        Recorded { columns, acts }
    }
}

/// What was recorded of a run.
#[derive(Drop)]
pub(crate) struct Recorded {
    /// The columns, one a tick.
    pub(crate) columns: Columns,
    /// What the actor did.
    pub(crate) acts: Vec<Act>,
}
