//! Rows whose steps through the list are counted.

ghost use Rattle.std.specs.Prelude.{◌≡◌};

use crate::plans::{liquidated, lowest, redeemed, redeeming};
use liq_types::Steps;
use std::alloc::Global;
use std::marker::Brand;
use std::process::Abort;
use std::sync::ledger::{Blank, Ledger};

/// Whose rows.
#[derive(Clone, Copy)]
enum Rows {
    Lowest,
    Liquidated,
    Planned,
    Refused,
    Redeemed,
}

fn check<R: Abort, L: Ledger>(rt: &R, alloc: Global, rows: Rows, blank: Blank)
    requires name { blank.name ≡ L.name }
    requires parts { blank.parts ≡ L.parts }
    requires one { L.parts ≡ 1 }
{
    let mut steps = Steps::<L>::new(blank);
    match rows {
        Rows::Lowest => lowest::check(rt, alloc, &mut steps),
        Rows::Liquidated => liquidated::check(rt, alloc, &mut steps),
        Rows::Planned => redeeming::check_plans(rt, alloc, &mut steps),
        Rows::Refused => redeeming::check_refusals(rt, alloc, &mut steps),
        Rows::Redeemed => redeemed::check(rt, alloc, &mut steps),
    }
}

#[test]
fn counted(rt: HostRuntime) {
    for rows in [
        Rows::Lowest,
        Rows::Liquidated,
        Rows::Planned,
        Rows::Refused,
        Rows::Redeemed,
    ] {
        // odd: steps counted
        check::<HostRuntime, Brand>(&rt, rt.alloc(), rows, Blank::new(1));
    }
}
