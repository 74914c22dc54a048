//! A run that is to be made, and what it meets.

use crate::devices::Devices;
use liq_case_files::{ALL, READ, Run, Start};
use std::alloc::Global;

/// A run that is to be made, and what the disks hold where it begins.
#[derive(Drop)]
pub struct Stage<'a> {
    pub alloc: Global,
    pub run: &'a Run,
    pub start: &'a Start,
}

impl<'a> Stage<'a> {
    /// All that comes in.
    pub fn input(&self) -> &'a [u8] {
        self.run.input(self.start)
    }

    /// What the run meets at reads and writes of the first sizes.
    pub fn devices(&self) -> Devices<'a> {
        let failing = &self.run.failing;
        Devices {
            source_fails: &failing.source,
            sink_fails: &failing.sink,
            left_fails: &failing.left,
            right_fails: &failing.right,
            ..self.unfailing()
        }
    }

    /// The same where no call fails.
    pub fn unfailing(&self) -> Devices<'a> {
        let run = self.run;
        let start = self.start;
        Devices {
            words: &run.words,
            input: run.input(start),
            read: run.reads.first().copied().unwrap_or(READ),
            write: run.writes.first().copied().unwrap_or(ALL),
            left: &start.left,
            right: &start.right,
            source_fails: &[],
            sink_fails: &[],
            left_fails: &[],
            right_fails: &[],
        }
    }
}
