//! A store over disks in memory.
ghost use Rattle.std.specs.Prelude.{◌≡◌, None};
ghost use Rattle.liq_book.specs.Origin.{TellsList};

use liq_outside::MemoryDisk;
use liq_store::Store;
use std::alloc::Global;
use std::process::Abort;

/// An empty disk, which does not fail.
fn disk(alloc: Global) -> MemoryDisk {
    MemoryDisk::new(alloc, Vec::new(alloc), Vec::new(alloc))
}

/// An opened store over two empty disks. The test stops where there is none.
pub fn new_store(rt: &impl Abort, alloc: Global) -> Store<MemoryDisk>
    ensures going { result.stopped ≡ None }
    ensures listed { TellsList result }
{
    match Store::open(alloc, disk(alloc), disk(alloc)) {
        Ok(store) => store,
        Err(_) => panic!(rt; "no store"),
    }
}
