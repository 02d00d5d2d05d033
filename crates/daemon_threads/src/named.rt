//! A cell for each zone that a line names.
ghost use Rattle.std.specs.Prelude.{◌≡◌, IsOkUnless};
ghost use Rattle.daemon_threads.specs.Dealing.{IsAsBefore};

use brand_hooks::{Change, HookAnswer};
use session_runs::Script;
use std::alloc::Global;
use zn_base::{Text, ZoneName};
use zn_io::Disk;
use zone_cases::line_of;
use zone_machine::{Machine, StepFault};

// The zone that a line names, if it names one, has a cell from now on.
fn name_zone<D: Disk, F: Fn(&Change) -> HookAnswer>(
    alloc: Global,
    machine: &mut Machine<'_, D, F>,
    line: &Text,
) -> Result<(), StepFault>
    ensures same { IsAsBefore machine.old machine.new }
    ensures err { IsOkUnless result StepFault.Memory }
{
    let Some(word) = line_of(line.bytes()).zone else {
        return Ok(());
    };
    match ZoneName::read_if_name(alloc, word)? {
        Some(zone) => machine.make_cell(alloc, &zone),
        None => Ok(()),
    }
}

fn name_zones<D: Disk, F: Fn(&Change) -> HookAnswer>(
    alloc: Global,
    machine: &mut Machine<'_, D, F>,
    lines: &[Text],
) -> Result<(), StepFault>
    ensures same { IsAsBefore machine.old machine.new }
    ensures err { IsOkUnless result StepFault.Memory }
{
    for line in lines {
        name_zone(alloc, machine, line)?;
    }
    Ok(())
}

/// Each zone that a line of the scripts names has a cell from now on.
pub(crate) fn name_all<D: Disk, F: Fn(&Change) -> HookAnswer>(
    alloc: Global,
    machine: &mut Machine<'_, D, F>,
    scripts: &[Script],
) -> Result<(), StepFault>
    ensures same { IsAsBefore machine.old machine.new }
    ensures err { IsOkUnless result StepFault.Memory }
{
    for script in scripts {
        name_zones(alloc, machine, &script.lines)?;
    }
    Ok(())
}
