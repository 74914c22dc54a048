//! Runs over a disk of which one byte is another, with a digest that is true.

use crate::devices::Devices;
use crate::runs::run_by_both;
use crate::stage::Stage;
use liq_case_files::{At, Forged, Misread, Report, Side, forge};
use std::alloc::AllocError;
use std::sync::Wait;
use std::thread::Threads;

/// The run finds the damage, tells just that, and leaves it.
pub fn check_forged<R: Threads + Wait + Sync>(
    rt: &R,
    stage: &Stage<'_>,
    told: &mut Report,
    forged: Forged,
) -> Result<(), AllocError> {
    told.at = At::byte(stage.run.line, forged.place);
    match forged_disk(stage, forged) {
        Ok(held) => check_held(rt, stage, told, forged, &held),
        Err(Misread::NoMemory) => Err(AllocError),
        Err(Misread::NotUnderstood) => {
            told.misread(stage.run.line, "a forged byte or its record is missing");
            Ok(())
        }
    }
}

/// What the disk holds then.
fn forged_disk(stage: &Stage<'_>, forged: Forged) -> Result<Vec<u8>, Misread> {
    let mut held = stage.start.held(forged.side).to_vec(stage.alloc)?;
    forge(held.as_mut_slice(), forged)?;
    Ok(held)
}

fn check_held<R: Threads + Wait + Sync>(
    rt: &R,
    stage: &Stage<'_>,
    told: &mut Report,
    forged: Forged,
    held: &[u8],
) -> Result<(), AllocError> {
    let devices = stage.unfailing();
    let (name, devices) = match forged.side {
        Side::Left => (
            "left",
            Devices {
                left: held,
                ..devices
            },
        ),
        Side::Right => (
            "right",
            Devices {
                right: held,
                ..devices
            },
        ),
    };
    let outcome = run_by_both(rt, stage.alloc, told, &devices)?;
    let index = forged.index;
    let wanted = format!(in stage.alloc; "damaged {name} {index}\n")?;
    told.number("status", 6, outcome.status());
    told.bytes("output", wanted.as_bytes(), outcome.output());
    told.bytes("left disk", devices.left, outcome.held(Side::Left));
    told.bytes("right disk", devices.right, outcome.held(Side::Right));
    Ok(())
}
