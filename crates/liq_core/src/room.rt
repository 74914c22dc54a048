//! Room for what planned commands write, so that writing takes no memory.

ghost use Rattle.std.specs.Prelude.{◌≤◌, IsOk, OnOk};
ghost use Rattle.std.specs.List.{Contains};
ghost use Rattle.liq_core.specs.Core.{AreAmong, IsWithin, SameContent};
ghost use Rattle.liq_core.specs.Effects.{closed, room_of, room_to_move};
ghost use Rattle.liq_core.specs.Plan.{HasRoom};

use crate::effects::{Effect, Move};
use crate::engine::Protocol;
use crate::turns::Planned;
use liq_redemption::RedeemPlan;
use liq_types::NoMemory;

impl Protocol {
    /// Makes room for what the planned command writes, so that [`Protocol::apply`] takes no memory.
    /// What is seen of the protocol stays, and so does all room that there was, also where there is
    /// no memory. Where there was room none is wanted.
    pub fn reserve(&mut self, planned: &Planned) -> Result<(), NoMemory>
        ensures same { SameContent self.old self.new }
        ensures room { OnOk result (HasRoom self.new planned.now) }
        ensures kept { IsWithin self.old.room self.new.room }
        ensures had { HasRoom self.old planned.now → IsOk result }
    {
        self.reserve_client(planned.command.client)?;
        self.reserve_effect(&planned.forecast.effect)
    }

    /// Room for what a command writes beside its client's row, which is all that a rotation writes.
    fn reserve_effect(&mut self, effect: &Effect) -> Result<(), NoMemory>
        ensures same { SameContent self.old self.new }
        ensures room { OnOk result (IsWithin (room_of effect.now) self.new.room) }
        ensures kept { IsWithin self.old.room self.new.room }
        ensures had { IsWithin (room_of effect.now) self.old.room → IsOk result }
    {
        match effect {
            Effect::Move(moved) => self.reserve_move(moved),
            Effect::Liquidate {
                liquidator,
                victims,
            } => self.reserve_liquidation(*liquidator, victims.as_slice()),
            Effect::Rotate => Ok(()),
        }
    }

    fn reserve_move(&mut self, moved: &Move) -> Result<(), NoMemory>
        ensures same { SameContent self.old self.new }
        ensures room { OnOk result (IsWithin (room_to_move moved.now) self.new.room) }
        ensures kept { IsWithin self.old.room self.new.room }
        ensures had { IsWithin (room_to_move moved.now) self.old.room → IsOk result }
    {
        match moved {
            Move::Price(_) | Move::Advance(_) => Ok(()),
            Move::Fund { account, .. }
            | Move::Take { account, .. }
            | Move::Adjust { account, .. }
            | Move::Close { account, .. }
            | Move::Withdraw { account, .. }
            | Move::GainToTrove { account, .. }
            | Move::Claim { account } => self.reserve_wallet(*account),
            Move::Send { from, to, .. } => self.reserve_wallets(*from, *to),
            Move::Open { account, .. } => self.reserve_trove(*account),
            Move::Provide { account, .. } => self.reserve_deposit(*account),
            Move::Redeem { account, plan, .. } => self.reserve_redemption(*account, plan),
        }
    }

    fn reserve_wallet(&mut self, account: u32) -> Result<(), NoMemory>
        ensures same { SameContent self.old self.new }
        ensures room { OnOk result (Contains self.new.room.wallets account) }
        ensures kept { IsWithin self.old.room self.new.room }
        ensures had { Contains self.old.room.wallets account → IsOk result }
    {
        self.wallets.reserve(account)
    }

    fn reserve_wallets(&mut self, first: u32, second: u32) -> Result<(), NoMemory>
        ensures same { SameContent self.old self.new }
        ensures room { OnOk result (Contains self.new.room.wallets first
            × Contains self.new.room.wallets second) }
        ensures kept { IsWithin self.old.room self.new.room }
        ensures had { Contains self.old.room.wallets first → Contains self.old.room.wallets second
            → IsOk result }
    {
        self.wallets.reserve(first)?;
        self.wallets.reserve(second)
    }

    /// Room for a trove that comes into being, with its owner's wallet and its place in the list.
    fn reserve_trove(&mut self, account: u32) -> Result<(), NoMemory>
        ensures same { SameContent self.old self.new }
        ensures room { OnOk result (Contains self.new.room.wallets account
            × Contains self.new.room.troves account
            × (1 ≤ self.new.room.list)) }
        ensures kept { IsWithin self.old.room self.new.room }
        ensures had { Contains self.old.room.wallets account → Contains self.old.room.troves account
            → 1 ≤ self.old.room.list → IsOk result }
    {
        self.wallets.reserve(account)?;
        self.troves.reserve(account)?;
        self.order.reserve(1)
    }

    /// Room for a deposit, with its owner's wallet.
    fn reserve_deposit(&mut self, account: u32) -> Result<(), NoMemory>
        ensures same { SameContent self.old self.new }
        ensures room { OnOk result (Contains self.new.room.wallets account
            × Contains self.new.room.deposits account) }
        ensures kept { IsWithin self.old.room self.new.room }
        ensures had { Contains self.old.room.wallets account
            → Contains self.old.room.deposits account → IsOk result }
    {
        self.wallets.reserve(account)?;
        self.pool.reserve(Some(account), 0)
    }

    /// Room for what a redemption writes: its account's wallet, and what the owners of closed
    /// troves may claim.
    fn reserve_redemption(&mut self, account: u32, plan: &RedeemPlan) -> Result<(), NoMemory>
        ensures same { SameContent self.old self.new }
        ensures room { OnOk result (Contains self.new.room.wallets account
            × AreAmong (closed plan.now.cuts) self.new.room.surplus) }
        ensures kept { IsWithin self.old.room self.new.room }
        ensures had { Contains self.old.room.wallets account
            → AreAmong (closed plan.now.cuts) self.old.room.surplus
            → IsOk result }
    {
        liq_redemption::reserve(plan, account, &mut self.wallets, &mut self.surplus)
    }

    fn reserve_client(&mut self, client: u32) -> Result<(), NoMemory>
        ensures same { SameContent self.old self.new }
        ensures room { OnOk result (Contains self.new.room.clients client) }
        ensures kept { IsWithin self.old.room self.new.room }
        ensures had { Contains self.old.room.clients client → IsOk result }
    {
        self.clients.reserve(client)
    }
}
