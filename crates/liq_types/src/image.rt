//! The image of a state: all on which its future rests, but for the count of its records.
//! Collateral is in gwei, debt and LUSD in micro-LUSD. Each table is a list of rows, which are
//! pushed in the order of their keys.

ghost use Rattle.std.specs.Prelude.{◌≡◌, [], ◌∷◌, ◌++◌, map, OnOk, OnErr};

use crate::figures::{Client, Deposit, Trove, Wallet};
use crate::replies::NoMemory;
use std::alloc::Global;
use std::marker::Model;

/// A state's image: where the rules go on from it, they do as from the state. A checkpoint is its
/// spelling.
#[derive(Drop)]
pub struct Image {
    /// Micro-LUSD per ether.
    pub price: u64,
    pub minute: u64,
    /// The base rate as of the minute of the last fee, over 10^18.
    pub base: u64,
    pub fee_minute: u64,
    pub generation: u64,
    /// The most collateral that may be inside, and the most LUSD.
    pub limit: u64,
    /// Collateral inside: what was brought in less what was taken out.
    pub brought: u64,
    pub active_coll: u64,
    pub active_debt: u64,
    pub default_coll: u64,
    pub default_debt: u64,
    pub reserve: u64,
    pub surplus: u64,
    pub fee_coll: u64,
    pub fee_lusd: u64,
    /// What was redistributed per unit of stake, over 10^18.
    pub sum_coll: u128,
    pub sum_debt: u128,
    pub stakes: u64,
    /// Stakes and collateral after the last liquidation.
    pub snap_stakes: u64,
    pub snap_coll: u64,
    /// The Stability Pool's product, over 10^18, with its scale and epoch.
    pub p: u128,
    pub scale: u64,
    pub epoch: u64,
    /// The Stability Pool's sum at that place, over 10^18.
    pub sum: u128,
    /// LUSD in the Stability Pool.
    pub total: u64,
    /// Collateral in the Stability Pool.
    pub pool_coll: u64,
    pub wallets: WalletRows,
    pub troves: TroveRows,
    pub surplus_rows: SurplusRows,
    pub finished: FinishedRows,
    pub deposits: DepositRows,
    pub clients: ClientRows,
}

/// What an account's wallet holds.
#[derive(Clone, Copy)]
pub struct WalletRow {
    pub account: u32,
    pub coll: u64,
    pub lusd: u64,
}

/// An account's trove as it is kept.
#[derive(Clone, Copy)]
pub struct TroveRow {
    pub account: u32,
    pub coll: u64,
    pub debt: u64,
    pub stake: u64,
    pub mark_coll: u128,
    pub mark_debt: u128,
}

/// What an account may claim.
#[derive(Clone, Copy)]
pub struct SurplusRow {
    pub account: u32,
    pub coll: u64,
}

/// The sum of an epoch and a scale that are over.
#[derive(Clone, Copy)]
pub struct FinishedSum {
    pub epoch: u64,
    pub scale: u64,
    pub sum: u128,
}

/// An account's deposit as it is kept.
#[derive(Clone, Copy)]
pub struct DepositRow {
    pub account: u32,
    pub amount: u64,
    pub p: u128,
    pub sum: u128,
    pub scale: u64,
    pub epoch: u64,
}

/// The last accepted number of a client, and the reply to it: its verb's place and its values.
#[derive(Clone, Copy)]
pub struct ClientRow {
    pub client: u32,
    pub last: u64,
    pub kind: u8,
    pub values: [u64; 6],
}

/// A row of one of an image's tables.
pub trait ImageRow: Copy {
    /// An entry of the table.
    type Entry;

    /// The entry for which a row stands.
    ghost entry: { Self → Self.Entry };
}

/// The rows of one of an image's tables, in ascending keys. Contracts see their entries.
#[derive(Drop)]
pub struct ImageRows<R: ImageRow> {
    rows: Vec<R>,
}

impl<R: ImageRow> Model for ImageRows<R> {
    ghost use Rattle.std.specs.Prelude.{List, map};

    ghost Value = { List R.Entry };

    ghost view = { λ t. map R.entry t.rows.items };
}

impl<R: ImageRow> ImageRows<R> {
    /// No rows.
    pub fn new(alloc: Global) -> ImageRows<R>
        ensures { result ≡ [] }
    {
        ImageRows {
            rows: Vec::new(alloc),
        }
    }

    /// One more row, behind the others. Where there is no memory nothing changes.
    pub fn push(&mut self, row: R) -> Result<(), NoMemory>
        ensures ok { OnOk result (self.new ≡ self.old ++ R.entry row ∷ []) }
        ensures err { OnErr result (self.new ≡ self.old) }
    {
        match self.rows.push(row) {
            Ok(()) => Ok(()),
            Err(_) => Err(NoMemory),
        }
    }

    /// The rows, in their order.
    pub fn rows(&self) -> &[R]
        ensures { map R.entry result.now ≡ self.now }
    {
        self.rows.as_slice()
    }
}

impl ImageRow for WalletRow {
    ghost use Rattle.liq_types.specs.ImageRows.{wallet_row};

    type Entry = (u32, Wallet);

    ghost entry = { wallet_row };
}

/// The wallets of an image, in ascending accounts.
pub type WalletRows = ImageRows<WalletRow>;

impl ImageRow for TroveRow {
    ghost use Rattle.liq_types.specs.ImageRows.{trove_row};

    type Entry = (u32, Trove);

    ghost entry = { trove_row };
}

/// The troves of an image, in ascending accounts.
pub type TroveRows = ImageRows<TroveRow>;

impl ImageRow for SurplusRow {
    ghost use Rattle.liq_types.specs.ImageRows.{surplus_row};

    type Entry = (u32, u64);

    ghost entry = { surplus_row };
}

/// The surplus of each owner, in ascending accounts.
pub type SurplusRows = ImageRows<SurplusRow>;

impl ImageRow for FinishedSum {
    ghost use Rattle.liq_types.specs.ImageRows.{finished_row};

    type Entry = ((u64, u64), u128);

    ghost entry = { finished_row };
}

/// The finished sums of an image, in ascending epochs and scales.
pub type FinishedRows = ImageRows<FinishedSum>;

impl ImageRow for DepositRow {
    ghost use Rattle.liq_types.specs.ImageRows.{deposit_row};

    type Entry = (u32, Deposit);

    ghost entry = { deposit_row };
}

/// The deposits of an image, in ascending accounts.
pub type DepositRows = ImageRows<DepositRow>;

impl ImageRow for ClientRow {
    ghost use Rattle.liq_types.specs.ImageRows.{client_row};

    type Entry = (u32, Client);

    ghost entry = { client_row };
}

/// The clients of an image, in ascending numbers.
pub type ClientRows = ImageRows<ClientRow>;
