//! A generation of the journal: what it takes, and what a rotation makes of it.

ghost use Rattle.std.specs.Prelude.{◌≡◌, ◌≤◌};
ghost use Rattle.liq_types.specs.Rules.{first_refusal};
ghost use Rattle.liq_core_limits.specs.Generations.{inflow_rules, next_generation, record_rules};

use liq_types::Refusal;
use liq_types::amounts::{GENERATIONS_MOST, LIM, RECORDS_MOST};

/// A generation of the journal, as far as it has come.
#[derive(Clone, Copy)]
pub struct Generation {
    /// Its number, from 1.
    pub number: u64,
    /// The most collateral that may be inside (gwei), and the most LUSD in circulation
    /// (micro-LUSD).
    pub limit: u64,
    /// How many commands were accepted in it.
    pub records: u64,
}

impl Generation {
    /// Why collateral may not come in (gwei) beside what is inside: there is none, or it passes the
    /// limit.
    pub fn no_inflow(&self, brought: u64, coll: u64) -> Option<Refusal>
        ensures { result ≡ first_refusal (inflow_rules self.now brought coll) }
    {
        if coll == 0 {
            return Some(Refusal::AmountZero);
        }
        let sum = u128::from(brought) + u128::from(coll);
        let limit = self.limit;
        if sum > u128::from(limit) {
            return Some(Refusal::AmountLimit { sum, limit });
        }
        None
    }

    /// Why the journal takes no more records.
    pub fn no_record(&self) -> Option<Refusal>
        ensures { result ≡ first_refusal (record_rules self.now) }
    {
        if self.records >= RECORDS_MOST {
            let records = RECORDS_MOST;
            return Some(Refusal::JournalFull { records });
        }
        None
    }

    /// The generation that a rotation begins: under the greatest limit, and no record is counted
    /// yet.
    pub fn next(&self) -> Generation
        requires { self.now.number ≤ GENERATIONS_MOST }
        ensures { result ≡ next_generation self.now }
    {
        Generation {
            number: self.number + 1,
            limit: LIM,
            records: 0,
        }
    }
}
