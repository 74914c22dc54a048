//! What an audit takes and gives for each account.

ghost use Rattle.std.specs.Prelude.{◌≡◌};
ghost use Rattle.liq_audit.specs.Rows.{numbers_of};

/// The most offsets that an audit takes.
pub const OFFSETS_MOST: u64 = 10_000;

/// The most accounts that an audit takes.
pub const ACCOUNTS_MOST: u64 = 1_000;

/// What the protocol gives an account: its balance in micro-LUSD, and in gwei what it gained, paid
/// out or not.
#[derive(Clone, Copy)]
pub struct EngineRow {
    pub account: u32,
    pub balance: u64,
    pub gain: u64,
}

/// An account's exact share between whole numbers, and what the protocol gives it. Balances are in
/// micro-LUSD, gains in gwei.
#[derive(Clone, Copy)]
pub struct Row {
    pub account: u32,
    /// The exact balance is not below this,
    pub balance_lo: u128,
    /// and not above this.
    pub balance_hi: u128,
    /// The protocol's balance.
    pub balance: u64,
    /// By how much that may be less than the exact one.
    pub balance_allow: u64,
    /// The exact gain is not below this,
    pub gain_lo: u128,
    /// and not above this.
    pub gain_hi: u128,
    /// All that the account gained in the protocol.
    pub gain: u64,
    /// By how much that may be less than the exact one.
    pub gain_allow: u64,
}

impl Row {
    /// The row's numbers, in the order of its fields.
    pub fn numbers(&self) -> [u128; 9]
        ensures { result ≡ numbers_of self.now }
    {
        [
            u128::from(self.account),
            self.balance_lo,
            self.balance_hi,
            u128::from(self.balance),
            u128::from(self.balance_allow),
            self.gain_lo,
            self.gain_hi,
            u128::from(self.gain),
            u128::from(self.gain_allow),
        ]
    }
}

/// Why there is no audit.
#[derive(Clone, Copy, Drop)]
pub enum AuditFault {
    /// There are more offsets than [`OFFSETS_MOST`], or else more accounts than [`ACCOUNTS_MOST`].
    AuditLimit { count: u64, limit: u64 },
    NoMemory,
}
