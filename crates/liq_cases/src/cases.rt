//! The cases of a file.

use crate::disks::Disks;
use crate::performing::perform;
use crate::stage::Stage;
use liq_case_files::{
    Block, Misread, Report, Run, count_up, is_change, number, put_words, set, side_of,
};
use std::alloc::{AllocError, Global};
use std::sync::Wait;
use std::thread::Threads;

/// Makes the runs of a file, and tells how many there are and what differs.
pub fn tell_file<R: Threads + Wait + Sync>(
    rt: &R,
    alloc: Global,
    name: String,
    text: &str,
) -> Result<String, AllocError> {
    let mut told = Report::new(alloc, name);
    tell_cases(rt, alloc, &mut told, text)?;
    told.end()
}

/// Makes the runs of a text, and tells what differs.
fn tell_cases<R: Threads + Wait + Sync>(
    rt: &R,
    alloc: Global,
    told: &mut Report,
    text: &str,
) -> Result<(), AllocError> {
    let mut cases = Cases {
        alloc,
        told,
        run: None,
        block: None,
        broken: false,
        disks: Disks::new(alloc),
    };
    cases.take_lines(rt, text)
}

/// How far a file is read.
#[derive(Drop)]
struct Cases<'a> {
    alloc: Global,
    told: &'a mut Report,
    /// The run that is being read.
    run: Option<Run>,
    /// The lines that are being read to be repeated.
    block: Option<Block>,
    /// Whether a line of the case was not understood.
    broken: bool,
    disks: Disks,
}

impl Cases<'_> {
    /// Takes all lines of a file.
    fn take_lines<R: Threads + Wait + Sync>(
        &mut self,
        rt: &R,
        text: &str,
    ) -> Result<(), AllocError> {
        for (place, line) in text.lines().enumerate() {
            self.take(rt, place.saturating_add(1), line.trim())?;
        }
        self.end_case(rt)
    }

    /// Takes a line. One that is not understood is told, and the rest of its case is not made.
    fn take<R: Threads + Wait + Sync>(
        &mut self,
        rt: &R,
        line: usize,
        text: &str,
    ) -> Result<(), AllocError> {
        if text.is_empty() || text.starts_with('#') {
            return Ok(());
        }
        if text.starts_with("case ") {
            return self.begin_case(rt, line);
        }
        if self.broken {
            return Ok(());
        }
        match self.understand(rt, line, text) {
            Ok(()) => Ok(()),
            Err(Misread::NoMemory) => Err(AllocError),
            Err(Misread::NotUnderstood) => {
                self.give_up(line, text);
                Ok(())
            }
        }
    }

    /// Tells that a line is not understood.
    fn give_up(&mut self, line: usize, text: &str) {
        self.run = None;
        self.block = None;
        self.broken = true;
        self.told.misread(line, text);
    }

    fn begin_case<R: Threads + Wait + Sync>(
        &mut self,
        rt: &R,
        line: usize,
    ) -> Result<(), AllocError> {
        self.end_case(rt)?;
        self.told.cases = self.told.cases.saturating_add(1);
        self.broken = false;
        self.disks = Disks::new(self.alloc);
        self.begin_run(line, &["run"])
    }

    /// Ends a case: its last run is made.
    fn end_case<R: Threads + Wait + Sync>(&mut self, rt: &R) -> Result<(), AllocError> {
        if let Some(block) = &self.block {
            let line = block.line;
            self.give_up(line, "lines to be repeated are missing");
        }
        self.perform(rt)
    }

    /// Begins a run on these words.
    fn begin_run(&mut self, line: usize, words: &[&str]) -> Result<(), AllocError> {
        let mut run = Run::new(self.alloc, line);
        put_words(self.alloc, &mut run.words, words)?;
        self.run = Some(run);
        Ok(())
    }

    /// Makes the run that was read.
    fn perform<R: Threads + Wait + Sync>(&mut self, rt: &R) -> Result<(), AllocError> {
        match self.run.take() {
            Some(run) => self.make(rt, run),
            None => Ok(()),
        }
    }

    fn make<R: Threads + Wait + Sync>(&mut self, rt: &R, run: Run) -> Result<(), AllocError> {
        let mut run = run;
        run.fill()?;
        let start = self.disks.start(self.alloc)?;
        let stage = Stage {
            alloc: self.alloc,
            run: &run,
            start: &start,
        };
        perform(rt, &stage, self.told, &mut self.disks)
    }

    fn understand<R: Threads + Wait + Sync>(
        &mut self,
        rt: &R,
        line: usize,
        text: &str,
    ) -> Result<(), Misread> {
        if let Some(block) = self.block.take() {
            return self.take_in_block(block, line, text);
        }
        match text.strip_prefix(':') {
            Some(setting) => self.set(rt, line, setting),
            None => self.take_line(line, text),
        }
    }

    /// Takes a request or a reply.
    fn take_line(&mut self, line: usize, text: &str) -> Result<(), Misread> {
        match &mut self.run {
            Some(run) => run.take(line, text),
            None => Err(Misread::NotUnderstood),
        }
    }

    /// Takes a line that is to be repeated, and with the last one takes all of them.
    fn take_in_block(&mut self, block: Block, line: usize, text: &str) -> Result<(), Misread> {
        let mut block = block;
        block.take(self.alloc, line, text)?;
        if block.missing == 0 {
            return self.repeat(&block);
        }
        self.block = Some(block);
        Ok(())
    }

    fn repeat(&mut self, block: &Block) -> Result<(), Misread> {
        for turn in 0..block.times {
            for (line, text) in &block.lines {
                self.take_counted(*line, text, turn)?;
            }
        }
        Ok(())
    }

    /// Takes a line of a block, its numbers counted up so many times.
    fn take_counted(&mut self, line: usize, text: &str, turn: u64) -> Result<(), Misread> {
        let text = count_up(self.alloc, text, turn)?;
        self.take_line(line, text.as_str())
    }

    /// Takes a setting.
    fn set<R: Threads + Wait + Sync>(
        &mut self,
        rt: &R,
        line: usize,
        setting: &str,
    ) -> Result<(), Misread> {
        let words: Vec<&str> = setting.split_whitespace().collect(self.alloc)?;
        self.take_words(rt, line, words.as_slice())
    }

    /// Takes the words of a setting.
    fn take_words<R: Threads + Wait + Sync>(
        &mut self,
        rt: &R,
        line: usize,
        words: &[&str],
    ) -> Result<(), Misread> {
        match words {
            ["again"] => self.again(rt, line, &["run"]),
            ["again", words @ ..] => self.again(rt, line, words),
            ["times", times @ ..] => self.take_times(line, times),
            words => self.set_here(line, words),
        }
    }

    /// Takes how often lines are to be repeated, and how many, or one.
    fn take_times(&mut self, line: usize, words: &[&str]) -> Result<(), Misread> {
        match words {
            [times] => self.repeat_next(line, number(times)?, 1),
            [times, "of", lines] => self.repeat_next(line, number(times)?, number(lines)?),
            _ => Err(Misread::NotUnderstood),
        }
    }

    /// Begins to read so many lines, to be repeated so many times.
    fn repeat_next(&mut self, line: usize, times: u64, missing: u64) -> Result<(), Misread> {
        if times == 0 || missing == 0 {
            return Err(Misread::NotUnderstood);
        }
        self.block = Some(Block {
            line,
            times,
            missing,
            lines: Vec::new(self.alloc),
        });
        Ok(())
    }

    /// Takes a setting of the disks, or of the run that is being read.
    fn set_here(&mut self, line: usize, words: &[&str]) -> Result<(), Misread> {
        let Some(run) = &mut self.run else {
            return Err(Misread::NotUnderstood);
        };
        match words {
            [disk, how, ..] if is_change(how) && side_of(disk).is_ok() => {
                self.disks.change(self.alloc, side_of(disk)?, words)
            }
            words => set(self.alloc, run, line, words),
        }
    }

    /// Begins a further run over what the one before left.
    fn again<R: Threads + Wait + Sync>(
        &mut self,
        rt: &R,
        line: usize,
        words: &[&str],
    ) -> Result<(), Misread> {
        self.perform(rt)?;
        self.begin_run(line, words)?;
        Ok(())
    }
}
