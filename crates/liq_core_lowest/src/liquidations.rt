//! Liquidations that were planned: what is told of them, what they come to, room for what they
//! write, and their effect.

ghost use Rattle.std.specs.Prelude.{◌≡◌, ◌≤◌, ◌<◌, ◌^◌, ◌++◌, ◌∷◌, [], length, sum_by, IsOk, OnOk};
ghost use Rattle.std.specs.List.{AllByRecursion};
ghost use Rattle.liq_types.specs.declared.events.ListChange.TheVariants.{Gone};
ghost use Rattle.liq_types.specs.State.{State};
ghost use Rattle.liq_tables.specs.WithRoom.{HasRoom, KeepsRoom};
ghost use Rattle.liq_rule_step.specs.Liquidation.{all_liquidated, lowest_values};
ghost use Rattle.liq_rule_step.specs.Rules.{six};
ghost use Rattle.liq_rule_sound.specs.SoundState.{IsSoundState};
ghost use Rattle.liq_core_lowest.specs.Victims.{AreKept, AreVictims, told_of};

use liq_ledger::{Pools, Surplus, Wallets};
use liq_liquidation::{Victim, apply_one};
use liq_order::Order;
use liq_stability::Stability;
use liq_troves::Troves;
use liq_types::amounts::{ACCOUNTS, LOWEST_MOST};
use liq_types::{Done, ListChange, NoMemory, PoolEvent};

/// What the liquidations of a plan do to the Stability Pool and to the ordered list, in order.
#[derive(Drop)]
pub struct CallEvents {
    /// The pool's events.
    pub events: Vec<PoolEvent>,
    /// The list's changes.
    pub changes: Vec<ListChange>,
}

impl CallEvents {
    /// A trove is gone, and what goes with it.
    pub fn add(
        &mut self,
        account: u32,
        event: Option<PoolEvent>,
        words: ListChange,
    ) -> Result<(), NoMemory>
        ensures events { OnOk result (self.new.events.items ≡ self.old.events.items
            ++ told_of event) }
        ensures changes { OnOk result (self.new.changes.items ≡ self.old.changes.items
            ++ Gone account ∷ words ∷ []) }
    {
        if let Some(event) = event {
            push(&mut self.events, event)?;
        }
        push(&mut self.changes, ListChange::Gone { account })?;
        push(&mut self.changes, words)
    }
}

/// One more, behind the others.
fn push<T: Copy + Drop>(list: &mut Vec<T>, item: T) -> Result<(), NoMemory>
    ensures { OnOk result (list.new.items ≡ list.old.items ++ item ∷ []) }
{
    match list.push(item) {
        Ok(()) => Ok(()),
        Err(_) => Err(NoMemory),
    }
}

/// The reply to the liquidation of the last troves: how many they are, and what they come to.
pub fn lowest_done(victims: &[Victim]) -> Done
    requires gas { sum_by (λ v. v.one.gas) victims.now < 2 ^ 64 }
    requires debt { sum_by (λ v. v.one.offset_debt) victims.now < 2 ^ 64 }
    requires coll { sum_by (λ v. v.one.offset_coll) victims.now < 2 ^ 64 }
    ensures { result ≡ record { kind = 13; values = six (lowest_values victims.now) } }
{
    let gas = victims.iter().map(|v| v.one.gas).sum();
    let debt = victims.iter().map(|v| v.one.offset_debt).sum();
    let coll = victims.iter().map(|v| v.one.offset_coll).sum();
    Done {
        kind: 13,
        values: [victims.len() as u64, gas, debt, coll, 0, 0],
    }
}

/// Room for what the owners of liquidated troves may claim.
pub fn reserve_owners(victims: &[Victim], surplus: &mut Surplus) -> Result<(), NoMemory>
    ensures rows { surplus.new.rows ≡ surplus.old.rows }
    ensures room { OnOk result (AllByRecursion (λ v. HasRoom surplus.new v.account) victims.now) }
    ensures had { AllByRecursion (λ v. HasRoom surplus.old v.account) victims.now → IsOk result }
    ensures kept { KeepsRoom surplus.old surplus.new }
{
    for victim in victims {
        reserve_owner(victim.account, surplus)?;
    }
    Ok(())
}

/// Room for what an owner may claim.
fn reserve_owner(account: u32, surplus: &mut Surplus) -> Result<(), NoMemory>
    ensures rows { surplus.new.rows ≡ surplus.old.rows }
    ensures room { OnOk result (HasRoom surplus.new account) }
    ensures had { HasRoom surplus.old account → IsOk result }
    ensures kept { KeepsRoom surplus.old surplus.new }
{
    surplus.reserve(&[account])
}

/// Makes planned liquidations, one after the other.
pub fn strike(
    victims: &[Victim],
    liquidator: u32,
    wallets: &mut Wallets,
    pools: &mut Pools,
    surplus: &mut Surplus,
    troves: &mut Troves,
    order: &mut Order,
    stability: &mut Stability,
)
    requires planned { (s : State) × IsSoundState s × AreVictims s liquidator victims.now
        × AreKept s wallets.old pools.old surplus.old troves.old order.old stability.old }
    requires few { length victims.now ≤ LOWEST_MOST }
    requires range { liquidator < ACCOUNTS }
    requires wallet { HasRoom wallets.old liquidator }
    requires owners { AllByRecursion (λ v. HasRoom surplus.old v.account) victims.now }
    requires finished { length victims.now ≤ stability.old.spare }
    ensures { (s : State) → IsSoundState s → AreVictims s liquidator victims.now
        → AreKept s wallets.old pools.old surplus.old troves.old order.old stability.old
        → AreKept (all_liquidated s liquidator victims.now) wallets.new pools.new surplus.new
        troves.new order.new stability.new }
{
    // odd: part by part
    for victim in victims {
        apply_one(
            victim, liquidator, wallets, pools, surplus, troves, order, stability,
        );
    }
}
