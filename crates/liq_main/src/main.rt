//! The program: the top call over the real streams, and over the two disks of the directory in
//! which it runs.
#![tactic(auto)]

use liq_disk_files::{Outside, disks, no_disks, standard_output};
use liq_outside::{StdSink, StdSource};
use liq_serve::{OpenGate, protocol, takes_disks, without_words};
use std::fs::{File, Files};
use std::process::ExitCode;
use std::rt::Env;
use std::{env, io};

/// The words behind the program's name.
fn words(rt: &(impl Env + AllocGlobal)) -> io::Result<Vec<String>> {
    Ok(env::args(rt)?.skip(1).collect(rt.alloc())?)
}

/// The null device, once for each standard stream. A file that is opened takes the lowest
/// descriptor that is free; so where the program was started without a stream the null device
/// stands for it, and not a disk.
fn streams<F: Files<File = File>>(files: &F) -> [io::Result<File>; 3] {
    [
        File::open(files, "/dev/null"),
        File::open(files, "/dev/null"),
        File::open(files, "/dev/null"),
    ]
}

fn main(rt: HostRuntime) -> ExitCode {
    let _streams = streams(&rt);
    let mut out = StdSink::new(standard_output(&mut Outside::new(&rt), io::writer(&rt)));
    let status = match words(&rt) {
        Ok(words) => {
            let mut input = StdSource::new(rt.reader());
            let (left, right) = if takes_disks(&words) {
                disks(&mut Outside::new(&rt), rt.alloc())
            } else {
                no_disks()
            };
            protocol(
                &rt,
                rt.alloc(),
                &OpenGate,
                &words,
                &mut input,
                &mut out,
                left,
                right,
            )
            .status
        }
        Err(fault) => without_words(fault.kind(), &mut out),
    };
    ExitCode::from(status)
}
