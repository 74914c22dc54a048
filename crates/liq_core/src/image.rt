//! The image of a protocol, and a protocol that begins with one.

ghost use Rattle.std.specs.Prelude.{◌≡◌, ◌↔◌, ℕ, IfOk, Err, Some};
ghost use Rattle.std.specs.List.{AllByRecursion};
ghost use Rattle.liq_types.specs.declared.figures.Trove.{Trove as trove};
ghost use Rattle.liq_types.specs.Image.{IsLimit};
ghost use Rattle.liq_types.specs.Soundness.{HasTables, IsSoundImage, first_unsound};
ghost use Rattle.liq_types.specs.State.{started};
ghost use Rattle.liq_order.specs.Listed.{AreDistinct};
ghost use Rattle.liq_order.specs.Order.{order_by, ranks};
ghost use Rattle.liq_stability.specs.Kept.{IsSoundPool};
ghost use Rattle.liq_trove_moves.specs.Books.{pools_of};
ghost use Rattle.liq_core.specs.Core.{StandsFor};
ghost use Rattle.liq_core.specs.Parts.{HasKey, words_by};
ghost use Rattle.liq_core.specs.declared.image.ImageFault.TheVariants as fault;

use crate::engine::Protocol;
use liq_image_rules::{entries, first_unsound};
use liq_ledger::{Pools, Surplus, Wallets};
use liq_order::Order;
use liq_rate::Rate;
use liq_stability::{PoolWords, Stability};
use liq_tables::Reserved;
use liq_troves::{Sums, Troves, key};
use liq_types::{Client, ClientRow, ClientRows, Image, NoMemory, Trove};
use std::alloc::Global;

/// Why no protocol begins with an image.
#[derive(Drop)]
pub enum ImageFault {
    /// The image breaks this rule of the eleven, and none before it.
    Unsound { rule: u8 },
    /// There is no memory for the protocol. The image breaks no rule.
    NoMemory,
}

impl Protocol {
    /// The image: all on which the protocol's future rests, but for the count of its records. A
    /// checkpoint holds the image with which a generation begins, and [`Protocol::from_image`]
    /// always takes that one. One that is taken amid a generation goes on with
    /// [`Protocol::from_image_at`], which takes it beside its records.
    pub fn image(&self) -> Result<Image, NoMemory>
        ensures image { IfOk result (λ image. image ≡ self.now.image) }
        ensures limit { IfOk result (λ image. IsLimit image.limit) }
    {
        self.image_with(client_rows(self.alloc, &self.clients)?)
    }

    /// The image, with these rows of clients.
    pub(crate) fn image_with(&self, clients: ClientRows) -> Result<Image, NoMemory>
        ensures { IfOk result (λ image. image ≡ record self.now.image { clients = clients }) }
    {
        let alloc = self.alloc;
        let sums = self.troves.sums();
        let words = self.pool.words();
        Ok(Image {
            price: self.price,
            minute: self.minute,
            base: self.rate.base,
            fee_minute: self.rate.minute,
            generation: self.generation,
            limit: self.limit,
            brought: self.brought,
            active_coll: self.pools.active_coll,
            active_debt: self.pools.active_debt,
            default_coll: self.pools.default_coll,
            default_debt: self.pools.default_debt,
            reserve: self.pools.reserve,
            surplus: self.pools.surplus,
            fee_coll: self.pools.fee_coll,
            fee_lusd: self.pools.fee_lusd,
            sum_coll: sums.coll,
            sum_debt: sums.debt,
            stakes: sums.stakes,
            snap_stakes: sums.snap_stakes,
            snap_coll: sums.snap_coll,
            p: words.p,
            scale: words.scale,
            epoch: words.epoch,
            sum: words.sum,
            total: words.total,
            pool_coll: words.coll,
            wallets: self.wallets.rows(alloc)?,
            troves: self.troves.rows(alloc)?,
            surplus_rows: self.surplus.rows(alloc)?,
            finished: self.pool.finished_sums(alloc)?,
            deposits: self.pool.rows(alloc)?,
            clients,
        })
    }

    /// The protocol that begins with an image whose tables are in form, as a checkpoint holds it.
    /// No record is counted yet. `Unsound` comes exactly where the image breaks a rule.
    pub fn from_image(alloc: Global, image: Image) -> Result<Protocol, ImageFault>
        requires tables { HasTables image }
        ensures image { IfOk result (λ protocol. protocol.image ≡ image) }
        ensures stands { IfOk result (λ protocol. StandsFor protocol (started image)) }
        ensures unsound { (rule : ℕ) → (result ≡ Err (fault.Unsound rule))
            ↔ (first_unsound image 0 ≡ Some rule) }
    {
        Protocol::from_image_at(alloc, image, 0)
    }

    /// The protocol that goes on from an image amid a generation, of which so many records are
    /// counted. `Unsound` comes exactly where the image breaks a rule beside these records: one
    /// that [`Protocol::image`] and [`Protocol::records`] tell of a protocol breaks none.
    pub fn from_image_at(alloc: Global, image: Image, records: u64) -> Result<Protocol, ImageFault>
        requires tables { HasTables image }
        ensures image { IfOk result (λ protocol. protocol.image ≡ image) }
        ensures records { IfOk result (λ protocol. protocol.records ≡ records) }
        ensures stands { IfOk result (λ protocol. StandsFor protocol
            (record (started image) { records = records })) }
        ensures unsound { (rule : ℕ) → (result ≡ Err (fault.Unsound rule))
            ↔ (first_unsound image records ≡ Some rule) }
    {
        if let Some(rule) = first_unsound(&image, records) {
            return Err(ImageFault::Unsound { rule });
        }
        match begun(alloc, &image, records) {
            Ok(protocol) => Ok(protocol),
            Err(_) => Err(ImageFault::NoMemory),
        }
    }
}

/// The protocol of an image that is sound beside these records.
fn begun(alloc: Global, image: &Image, records: u64) -> Result<Protocol, NoMemory>
    requires { IsSoundImage image.now records }
    ensures image { IfOk result (λ protocol. protocol.image ≡ image.now) }
    ensures records { IfOk result (λ protocol. protocol.records ≡ records) }
{
    let rows = entries::troves(alloc, &image.troves)?;
    let order = order_of(alloc, &rows)?;
    let sums = Sums {
        coll: image.sum_coll,
        debt: image.sum_debt,
        stakes: image.stakes,
        snap_stakes: image.snap_stakes,
        snap_coll: image.snap_coll,
    };
    let troves = Troves::from_rows(alloc, rows, sums)?;
    let pool = pool_of(alloc, image)?;
    let wallets = wallets_of(alloc, image)?;
    let surplus = surplus_of(alloc, image)?;
    let clients = clients_of(alloc, image)?;
    Ok(Protocol {
        alloc,
        price: image.price,
        minute: image.minute,
        rate: Rate {
            base: image.base,
            minute: image.fee_minute,
        },
        generation: image.generation,
        limit: image.limit,
        records,
        brought: image.brought,
        pools: pools_of(image),
        wallets,
        troves,
        order,
        pool,
        surplus,
        clients,
    })
}

/// The pools of an image.
fn pools_of(image: &Image) -> Pools
    ensures { result ≡ pools_of (started image.now) }
{
    Pools {
        active_coll: image.active_coll,
        active_debt: image.active_debt,
        default_coll: image.default_coll,
        default_debt: image.default_debt,
        reserve: image.reserve,
        surplus: image.surplus,
        fee_coll: image.fee_coll,
        fee_lusd: image.fee_lusd,
    }
}

/// The list of these troves.
fn order_of(alloc: Global, troves: &[(u32, Trove)]) -> Result<Order, NoMemory>
    requires keys { AllByRecursion (λ (row : ℕ × trove). HasKey row.1) troves.now }
    requires once { AreDistinct (ranks troves.now) }
    ensures { IfOk result (λ order. order.entries ≡ order_by troves.now) }
{
    let pairs = ranked(alloc, troves)?;
    Order::from_ranked(alloc, pairs)
}

/// Each trove's key, beside its account.
fn ranked(alloc: Global, troves: &[(u32, Trove)]) -> Result<Vec<(i128, u32)>, NoMemory>
    requires { AllByRecursion (λ (row : ℕ × trove). HasKey row.1) troves.now }
    ensures { IfOk result (λ pairs. pairs.items ≡ ranks troves.now) }
{
    let mut pairs = Vec::new(alloc);
    for (account, trove) in troves {
        let Ok(()) = pairs.push((key(trove), *account)) else {
            return Err(NoMemory);
        };
    }
    Ok(pairs)
}

/// The Stability Pool of an image.
fn pool_of(alloc: Global, image: &Image) -> Result<Stability, NoMemory>
    requires tables { HasTables image.now }
    requires pool { IsSoundPool (words_by image.now) image.now.finished image.now.deposits }
    ensures words { IfOk result (λ pool. pool.words ≡ words_by image.now) }
    ensures finished { IfOk result (λ pool. pool.finished ≡ image.now.finished) }
    ensures deposits { IfOk result (λ pool. pool.deposits.rows ≡ image.now.deposits) }
{
    let words = PoolWords {
        p: image.p,
        scale: image.scale,
        epoch: image.epoch,
        sum: image.sum,
        total: image.total,
        coll: image.pool_coll,
    };
    let finished = entries::finished_sums(alloc, &image.finished)?;
    let deposits = entries::deposits(alloc, &image.deposits)?;
    Stability::from_parts(alloc, words, finished, deposits)
}

/// The wallets of an image.
fn wallets_of(alloc: Global, image: &Image) -> Result<Wallets, NoMemory>
    requires { HasTables image.now }
    ensures { IfOk result (λ wallets. wallets.rows ≡ image.now.wallets) }
{
    let rows = entries::wallets(alloc, &image.wallets)?;
    Wallets::from_rows(alloc, rows)
}

/// What owners may claim in an image.
fn surplus_of(alloc: Global, image: &Image) -> Result<Surplus, NoMemory>
    requires { HasTables image.now }
    ensures { IfOk result (λ surplus. surplus.rows ≡ image.now.surplus_rows) }
{
    let rows = entries::surplus(alloc, &image.surplus_rows)?;
    Surplus::from_rows(alloc, rows)
}

/// The clients of an image.
fn clients_of(alloc: Global, image: &Image) -> Result<Reserved<Client>, NoMemory>
    requires { HasTables image.now }
    ensures { IfOk result (λ clients. clients.rows ≡ image.now.clients) }
{
    let rows = entries::clients(alloc, &image.clients)?;
    Reserved::from_entries(alloc, &rows)
}

/// The clients, as rows of an image.
pub(crate) fn client_rows(alloc: Global, clients: &Reserved<Client>) -> Result<ClientRows, NoMemory>
    ensures { IfOk result (λ rows. rows ≡ clients.now.rows) }
{
    let entries = clients.rows(alloc)?;
    let mut rows = ClientRows::new(alloc);
    for (client, Client { last, kept }) in &entries {
        rows.push(ClientRow {
            client: *client,
            last: *last,
            kind: kept.kind,
            values: kept.values,
        })?;
    }
    Ok(rows)
}
