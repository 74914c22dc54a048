//! A sound image: its rows, which can be changed, and its words.

use liq_types::{
    ClientRow, DepositRow, FinishedSum, Image, ImageRow, ImageRows, NoMemory, SurplusRow, TroveRow,
    WalletRow,
};
use std::alloc::Global;

/// The rows of an image.
#[derive(Clone, Copy)]
pub struct Rows {
    pub wallets: [WalletRow; 2],
    pub troves: [TroveRow; 2],
    pub surplus_rows: [SurplusRow; 2],
    pub finished: [FinishedSum; 3],
    pub deposits: [DepositRow; 3],
    pub clients: [ClientRow; 2],
}

/// The rows of the sound image.
pub const SOUND: Rows = Rows {
    wallets: [
        WalletRow {
            account: 1,
            coll: 7_000_000_000,
            lusd: 5_000_000_000,
        },
        WalletRow {
            account: 3,
            coll: 0,
            lusd: 450_000_000,
        },
    ],
    troves: [
        TroveRow {
            account: 1,
            coll: 10_000_000_000,
            debt: 4_220_000_000,
            stake: 9_000_000_000,
            mark_coll: 0,
            mark_debt: 0,
        },
        TroveRow {
            account: 4,
            coll: 20_000_000_000,
            debt: 6_000_000_000,
            stake: 20_000_000_000,
            mark_coll: 100_000_000_000_000_000,
            mark_debt: 40_000_000_000_000_000,
        },
    ],
    surplus_rows: [
        SurplusRow {
            account: 2,
            coll: 500_000_000,
        },
        SurplusRow {
            account: 5,
            coll: 300_000_000,
        },
    ],
    finished: [
        FinishedSum {
            epoch: 0,
            scale: 0,
            sum: 7,
        },
        FinishedSum {
            epoch: 0,
            scale: 3,
            sum: 11_000_000_000_000_000_000,
        },
        FinishedSum {
            epoch: 1,
            scale: 0,
            sum: 100,
        },
    ],
    deposits: [
        DepositRow {
            account: 1,
            amount: 10_000_000_000_000_000_000,
            p: 1_000_000_000_000_000_000,
            sum: 7,
            scale: 0,
            epoch: 0,
        },
        DepositRow {
            account: 2,
            amount: 1_000,
            p: 1_000_000_000,
            sum: 100,
            scale: 0,
            epoch: 1,
        },
        DepositRow {
            account: 6,
            amount: 5,
            p: 500_000_000_000_000_000,
            sum: 5_500_000_000_000_000_000,
            scale: 1,
            epoch: 1,
        },
    ],
    clients: [
        ClientRow {
            client: 0,
            last: 3,
            kind: 6,
            values: [4_220_000_000, 20_000_000, 0, 0, 0, 0],
        },
        ClientRow {
            client: 9,
            last: 1,
            kind: 12,
            values: [1, 2, 3, 4, 5, 6],
        },
    ],
};

/// The image of these rows, with the sound image's words.
pub fn image_of(alloc: Global, rows: &Rows) -> Result<Image, NoMemory> {
    let mut image = words(alloc);
    put_rows(&mut image, rows)?;
    Ok(image)
}

fn put_rows(image: &mut Image, rows: &Rows) -> Result<(), NoMemory> {
    put(&mut image.wallets, &rows.wallets)?;
    put(&mut image.troves, &rows.troves)?;
    put(&mut image.surplus_rows, &rows.surplus_rows)?;
    put(&mut image.finished, &rows.finished)?;
    put(&mut image.deposits, &rows.deposits)?;
    put(&mut image.clients, &rows.clients)
}

fn put<R: ImageRow>(table: &mut ImageRows<R>, rows: &[R]) -> Result<(), NoMemory> {
    for row in rows {
        table.push(*row)?;
    }
    Ok(())
}

/// The sound image's words, and no rows. Of the sound image many numbers are the greatest that its
/// rules let them be: what is pending is all of the default pool, the sum is the most beside its
/// product, and so are a finished sum, a deposit's amount and each deposit's mark.
pub fn words(alloc: Global) -> Image {
    Image {
        price: 1_000_000_000,
        minute: 100,
        base: 5_000_000_000_000_000,
        fee_minute: 60,
        generation: 2,
        limit: 10_000_000_000_000_000_000,
        brought: 42_650_000_000,
        active_coll: 30_000_000_000,
        active_debt: 10_220_000_000,
        default_coll: 3_800_000_000,
        default_debt: 650_000_000,
        reserve: 400_000_000,
        surplus: 800_000_000,
        fee_coll: 50_000_000,
        fee_lusd: 20_000_000,
        sum_coll: 200_000_000_000_000_000,
        sum_debt: 50_000_000_000_000_000,
        stakes: 29_000_000_000,
        snap_stakes: 25_000_000_000,
        snap_coll: 30_000_000_000,
        p: 500_000_000_000_000_000,
        scale: 1,
        epoch: 1,
        sum: 5_500_000_000_000_000_000,
        total: 5_000_000_000,
        pool_coll: 1_000_000_000,
        wallets: ImageRows::new(alloc),
        troves: ImageRows::new(alloc),
        surplus_rows: ImageRows::new(alloc),
        finished: ImageRows::new(alloc),
        deposits: ImageRows::new(alloc),
        clients: ImageRows::new(alloc),
    }
}
