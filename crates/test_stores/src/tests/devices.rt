//! A market over devices of one's own.

ghost use Rattle.std.specs.Prelude.{None};

use crate::tests::checks::shows;
use liq_outside::{Device, DeviceDisk, Disk, Failed};
use liq_store::Store;
use liq_types::{Answer, Call, Command, Done, Hint, Info, Query, Reply, Request};
use std::alloc::Global;

/// Bytes by their places, which are gone with the process. A device that outlasts it, as a part of
/// a database, has the same four calls. It tells a proof none of its bytes.
#[derive(Drop)]
struct Cells {
    bytes: Vec<u8>,
}

impl Device for Cells {
    ghost held = { λ _. None };

    ghost synced = { λ _. None };

    ghost failures = { λ _. None };

    fn length(&mut self) -> Result<u64, Failed> {
        Ok(self.bytes.len() as u64)
    }

    fn read_some(&mut self, at: u64, buf: &mut [u8]) -> Result<usize, Failed> {
        let Some(held) = self.bytes.get(at as usize..) else {
            return Ok(0);
        };
        let count = held.len().min(buf.len());
        buf[..count].copy_from_slice(&held[..count]);
        Ok(count)
    }

    fn write_some(&mut self, at: u64, bytes: &[u8]) -> Result<usize, Failed> {
        let start = at as usize;
        let end = start + bytes.len();
        if self.bytes.len() < end && self.bytes.resize(end, 0).is_err() {
            return Err(Failed);
        }
        self.bytes[start..end].copy_from_slice(bytes);
        Ok(bytes.len())
    }

    fn sync(&mut self) -> Result<(), Failed> {
        Ok(())
    }
}

fn over_cells(alloc: Global) -> DeviceDisk<Cells> {
    DeviceDisk::over(Some(Cells {
        bytes: Vec::new(alloc),
    }))
}

/// Whether a market over both disks funds account 5, and one that is opened over them again tells
/// its wallet.
fn is_kept<D: Disk + Drop>(alloc: Global, left: D, right: D) -> bool {
    let Ok(mut market) = Store::open(alloc, left, right) else {
        return false;
    };
    let funding = Request::Do(Command {
        client: 1,
        number: 1,
        call: Call::Fund(5, 7),
    });
    let funded = market.call(&funding, &Hint::NONE);
    let (left, right) = market.close();
    let Ok(mut again) = Store::open(alloc, left, right) else {
        return false;
    };
    let told = again.call(&Request::Ask(Query::Wallet(5)), &Hint::NONE);
    funded == FUNDED && told == Answer::Reply(Reply::Told(Info::Wallet { coll: 7, lusd: 0 }))
}

const FUNDED: Answer = Answer::Reply(Reply::Said(Done {
    kind: 3,
    values: [0; 6],
}));

#[test]
fn a_market_over_devices_of_ones_own(rt: HostRuntime) {
    let alloc = rt.alloc();
    let is_right = is_kept(alloc, over_cells(alloc), over_cells(alloc));
    shows(&rt, "what was funded is there again", is_right);
}
