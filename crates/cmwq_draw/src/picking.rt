//! Which works have rows: those that are named, or all.
ghost use Rattle.cmwq_types.specs.Scenario.{work_named};
ghost use Rattle.cmwq_draw.specs.Picking.{names_from, picked, undeclared, works_named};
ghost use Rattle.cmwq_draw.specs.WorksFound.{found_work, name_items, picked_items};
ghost use Rattle.cmwq_picture.specs.ExtentContents.{picked_works};
ghost use Rattle.cmwq_types.specs.declared.limits.TheConstants.{MAX_WORKS};
ghost use Rattle.std.specs.Prelude.{◌≡◌, ◌≤◌, ◌⊎◌, ◌++◌, None, IfErr, IfOk, OnOk, Some, [], is_some, length};

use cmwq_streams::PlayError;
use cmwq_types::{NoMemory, Scenario, WorkId};
use std::alloc::Global;

/// The works of these names, with a comma between two; `None` where none are given, so that all works have rows. The only errors are
/// `NoSuchWork`, exactly where one of them isn't declared, and `NoMemory`.
pub(crate) fn picked(
    alloc: Global,
    scenario: &Scenario,
    names: Option<&str>,
) -> Result<Option<Vec<WorkId>>, PlayError>
    requires { length scenario.now.works ≤ MAX_WORKS }
    ensures picked { IfOk result (λ works. picked scenario.now names.entry ≡ Some (picked_items works)) }
    ensures why { IfErr result (λ error. ((error ≡ PlayError.NoSuchWork) × (picked scenario.now names.entry ≡ None)) ⊎ (error ≡ PlayError.NoMemory)) }
{
    let Some(names) = names else {
        return Ok(None);
    };
    match works_named(alloc, scenario, names.as_bytes())? {
        Some(works) => Ok(Some(works)),
        None => Err(PlayError::NoSuchWork),
    }
}

/// These works, lent.
pub(crate) fn work_slice(works: &Option<Vec<WorkId>>) -> Option<&[WorkId]>
    ensures { picked_works result ≡ picked_items works.now }
{
    match works {
        Some(works) => Some(works),
        None => None,
    }
}

/// The works of these names, if each is declared.
fn works_named(
    alloc: Global,
    scenario: &Scenario,
    names: &[u8],
) -> Result<Option<Vec<WorkId>>, NoMemory>
    requires { length scenario.now.works ≤ MAX_WORKS }
    ensures { IfOk result (λ works. picked_items works ≡ works_named scenario.now (names_from [] names.now)) }
{
    let mut works = Vec::new(alloc);
    let mut name = Vec::new(alloc);
    for byte in names {
        if *byte == b',' {
            if !push_named(&mut works, scenario, &name)? {
                return Ok(None);
            }
            name = Vec::new(alloc);
        } else {
            name.push(*byte)?;
        }
    }
    if !push_named(&mut works, scenario, &name)? {
        return Ok(None);
    }
    Ok(Some(works))
}

/// Pushes the work of the name, and answers whether there is one.
fn push_named(works: &mut Vec<WorkId>, scenario: &Scenario, name: &[u8]) -> Result<bool, NoMemory>
    requires { length scenario.now.works ≤ MAX_WORKS }
    ensures known { IfOk result (λ known. known ≡ is_some (work_named scenario.now name.now)) }
    ensures pushed { OnOk result (works.new.items ≡ works.old.items ++ found_work (work_named scenario.now name.now)) }
{
    match scenario.work_named(name) {
        Some(w) => {
            works.push(WorkId(w as u16))?;
            Ok(true)
        }
        None => Ok(false),
    }
}

/// The first of these names, with a comma between two, that isn't a work's, if there is one. It fails only for want of memory.
pub fn undeclared(
    alloc: Global,
    scenario: &Scenario,
    names: &str,
) -> Result<Option<Vec<u8>>, NoMemory>
    requires { length scenario.now.works ≤ MAX_WORKS }
    ensures { IfOk result (λ name. name_items name ≡ undeclared scenario.now (names_from [] names.now)) }
{
    let mut name = Vec::new(alloc);
    for letter in names.as_bytes() {
        if *letter == b',' {
            if scenario.work_named(&name).is_none() {
                return Ok(Some(name));
            }
            name = Vec::new(alloc);
        } else {
            name.push(*letter)?;
        }
    }
    if scenario.work_named(&name).is_none() {
        return Ok(Some(name));
    }
    Ok(None)
}
