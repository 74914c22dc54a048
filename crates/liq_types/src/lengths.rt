//! How many bytes a checkpoint has.

ghost use Rattle.std.specs.Prelude.{◌≡◌};
ghost use Rattle.liq_types.specs.Length.{length_with};

// A name of eight bytes; 21 numbers, 2 sums per stake, the product and its sum; and a count of each
// table.
const WORDS: u128 = 8 + 8 * 21 + 16 * 4 + 8 * 6;

// Collateral and LUSD.
const WALLET: u128 = 4 + 8 * 2;

// Collateral, debt and stake, and two sums.
const TROVE: u128 = 4 + 8 * 3 + 16 * 2;

// Collateral.
const SURPLUS: u128 = 4 + 8;

// A place and its sum.
const FINISHED: u128 = 8 * 2 + 16;

// The amount, a product and a sum, and their place.
const DEPOSIT: u128 = 4 + 8 + 16 * 2 + 8 * 2;

// The last number, and the kept reply.
const CLIENT: u128 = 4 + 8 + 1 + 8 * 6;

/// How many rows each table of an image has.
#[derive(Clone, Copy)]
pub struct RowCounts {
    pub wallets: u64,
    pub troves: u64,
    pub surplus_rows: u64,
    pub finished: u64,
    pub deposits: u64,
    pub clients: u64,
}

impl RowCounts {
    /// The bytes of a checkpoint of an image that has so many rows.
    pub fn checkpoint_bytes(&self) -> u128
        ensures { result ≡ length_with self.now }
    {
        WORDS
            + WALLET * u128::from(self.wallets)
            + TROVE * u128::from(self.troves)
            + SURPLUS * u128::from(self.surplus_rows)
            + FINISHED * u128::from(self.finished)
            + DEPOSIT * u128::from(self.deposits)
            + CLIENT * u128::from(self.clients)
    }
}
