//! What the instances do that a reason names, as text.
ghost use Rattle.cmwq_why_text.specs.WhyText.{ahead_text, item, items, later_item, mode_words, place_words, rescuer_text, run_words, spaced_name};
ghost use Rattle.std.specs.List.{flat_map};
ghost use Rattle.std.specs.Prelude.{◌≡◌, ◌++◌, OnOk, string_bytes};

use crate::wording::Wording;
use cmwq_reasons::Instance;
use cmwq_table::{Pending, Reads, Running};
use cmwq_types::{Mode, NoMemory, RESCUER};

impl<R: Reads> Wording<'_, R> {
    /// Writes the instances, the first behind a colon and each other one behind a comma; nothing where there are none.
    pub(crate) fn push_items(
        &self,
        text: &mut String,
        instances: &[Instance],
    ) -> Result<(), NoMemory>
        ensures { OnOk result (string_bytes text.new ≡ string_bytes text.old ++ items (R.loaded self.now.machine.now) (R.state self.now.machine.now) instances.now) }
    {
        let Some((first, later)) = instances.split_first() else {
            return Ok(());
        };
        text.push_str(": ")?;
        self.push_item(text, *first)?;
        for instance in later {
            text.push_str(", ")?;
            self.push_item(text, *instance)?;
        }
        Ok(())
    }

    fn push_item(&self, text: &mut String, instance: Instance) -> Result<(), NoMemory>
        ensures { OnOk result (string_bytes text.new ≡ string_bytes text.old ++ item (R.loaded self.now.machine.now) (R.state self.now.machine.now) instance) }
    {
        text.push_str(self.instance_name(instance))?;
        match instance {
            Instance::Pending(w) => push_place(text, self.machine.pending_of(w.0 as usize)),
            Instance::Running(w) => push_run(text, self.machine.running_of(w.0 as usize)),
        }
    }

    /// Writes who stands before a work, behind a space; nothing where nobody does.
    pub(crate) fn push_ahead(&self, text: &mut String, works: &[u16]) -> Result<(), NoMemory>
        ensures { OnOk result (string_bytes text.new ≡ string_bytes text.old ++ ahead_text (R.loaded self.now.machine.now) works.now) }
    {
        let Some(_) = works.split_first() else {
            return Ok(());
        };
        text.push_str(" ahead")?;
        self.push_names(text, works)
    }

    /// Writes the name of each work, behind a space.
    pub(crate) fn push_names(&self, text: &mut String, works: &[u16]) -> Result<(), NoMemory>
        ensures { OnOk result (string_bytes text.new ≡ string_bytes text.old ++ flat_map (spaced_name (R.loaded self.now.machine.now)) works.now) }
    {
        for w in works {
            text.push_str(" ")?;
            text.push_str(self.name(*w))?;
        }
        Ok(())
    }
}

/// Writes where a pending instance is that takes up a place of its queue.
fn push_place(text: &mut String, pending: Option<Pending>) -> Result<(), NoMemory>
    ensures { OnOk result (string_bytes text.new ≡ string_bytes text.old ++ place_words pending) }
{
    if let Some(p) = pending {
        text.push_str(if p.place.is_deferred() {
            " deferred"
        } else {
            " listed"
        })?;
    }
    Ok(())
}

/// Writes how an instance runs.
fn push_run(text: &mut String, running: Option<Running>) -> Result<(), NoMemory>
    ensures { OnOk result (string_bytes text.new ≡ string_bytes text.old ++ run_words running) }
{
    if let Some(r) = running {
        push_mode(text, r.mode)?;
        if r.worker == RESCUER {
            text.push_str(" on rescuer")?;
        }
    }
    Ok(())
}

fn push_mode(text: &mut String, mode: Mode) -> Result<(), NoMemory>
    ensures { OnOk result (string_bytes text.new ≡ string_bytes text.old ++ mode_words mode) }
{
    match mode {
        Mode::Runnable => text.push_str(" runs")?,
        Mode::Asleep(until) => write!(text, " asleep until {until}")?,
    }
    Ok(())
}
