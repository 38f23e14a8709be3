//! The columns of a picture, of which equal neighbours are kept once.
ghost use Rattle.cmwq_picture.specs.Folding.{added, stretches_of};
ghost use Rattle.cmwq_picture.specs.Stretches.{spread};
ghost use Rattle.cmwq_types.specs.declared.limits.TheConstants.{MAX_STEPS};
ghost use Rattle.std.specs.Prelude.{◌≡◌, ◌<◌, [], ◌∷◌, ◌++◌, OnErr, OnOk, length};

use crate::column::Column;
use cmwq_types::NoMemory;
use std::alloc::Global;
use std::marker::Model;

/// A column, and how many that are equal to it stand side by side.
#[derive(Drop)]
pub(crate) struct Stretch {
    pub(crate) column: Column,
    pub(crate) count: u32,
}

/// Columns in order. Equal ones that stand beside each other take up the memory of one.
#[derive(Drop)]
pub(crate) struct Columns {
    stretches: Vec<Stretch>,
    /// How many columns there are.
    count: usize,
}

impl Model for Columns {
    ghost use Rattle.cmwq_picture.specs.Column.{ColumnContents};
    ghost use Rattle.cmwq_picture.specs.Folding.{stretches_of};
    ghost use Rattle.cmwq_picture.specs.Stretches.{spread};
    ghost use Rattle.std.specs.Prelude.{◌≡◌, List, length};

    ghost Value = { List ColumnContents };

    ghost view = { λ columns. spread columns.stretches.items };

    ghost invariant = { λ columns. (columns.count ≡ length (spread columns.stretches.items))
        × (stretches_of (spread columns.stretches.items) ≡ columns.stretches.items) };
}

impl Columns {
    /// No columns.
    pub(crate) fn new(alloc: Global) -> Columns
        ensures { result ≡ [] }
    {
        Columns {
            stretches: Vec::new(alloc),
            count: 0,
        }
    }

    /// How many there are.
    pub(crate) fn len(&self) -> usize
        ensures { result ≡ length self.now }
    {
        self.count
    }

    /// One column more, at the end. The only error is want of memory, and then nothing changes.
    pub(crate) fn push(&mut self, column: Column) -> Result<(), NoMemory>
        requires { length self.old < MAX_STEPS }
        ensures pushed { OnOk result (self.new ≡ self.old ++ column ∷ []) }
        ensures unchanged { OnErr result (self.new ≡ self.old) }
    {
        let Columns { stretches, count } = self;
        push_column(stretches, column)?;
        *count += 1;
        Ok(())
    }

    /// How many stretches of equal ones there are.
    pub(crate) fn stretch_count(&self) -> usize
        ensures { result ≡ length (stretches_of self.now) }
    {
        self.stretches.len()
    }

    /// The stretches of equal ones.
    pub(crate) fn stretches(&self) -> &[Stretch]
        ensures { result.now ≡ stretches_of self.now }
    {
        &self.stretches
    }
}

/// One column more, at the end: where the last one is equal, that one stands once more.
fn push_column(stretches: &mut Vec<Stretch>, column: Column) -> Result<(), NoMemory>
    requires { length (spread stretches.old.items) < MAX_STEPS }
    ensures pushed { OnOk result (stretches.new.items ≡ added stretches.old.items column) }
    ensures unchanged { OnErr result (stretches.new.items ≡ stretches.old.items) }
{
    let length = stretches.len();
    if length > 0 && stretches[length - 1].column == column {
        stretches[length - 1].count += 1;
        return Ok(());
    }
    stretches.push(Stretch { column, count: 1 })?;
    Ok(())
}
