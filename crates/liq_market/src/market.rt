//! A market: the protocol with its guide, and whom the last accepted command touched.

ghost use Rattle.std.specs.Prelude.{◌≡◌, ◌↔◌, ◌⊎◌, ◌≤◌, ◌+◌, ℕ, [], drop, length, Err, Some};
ghost use Rattle.std.specs.Prelude.{IfOk, OnOk, OnErr};
ghost use Rattle.liq_types.specs.declared.image.Image.{Image as image};
ghost use Rattle.liq_types.specs.declared.requests.Command.{Command as command_row};
ghost use Rattle.liq_types.specs.declared.requests.Request.TheVariants.{Do, Ask};
ghost use Rattle.liq_types.specs.Soundness.{HasTables, first_unsound};
ghost use Rattle.liq_types.specs.State.{State, opening};
ghost use Rattle.liq_rule_step.specs.Step.{step};
ghost use Rattle.liq_rule_step.specs.Verbs.{unhinted as plain};
ghost use Rattle.liq_core.specs.Core.{SameContent, StandsFor};
ghost use Rattle.liq_core.specs.declared.image.ImageFault.TheVariants as unloaded;
ghost use Rattle.liq_core.specs.Entries.{laid};
ghost use Rattle.liq_market.specs.declared.lists.AccountList.TheVariants.{Deposits, Wallets};
ghost use Rattle.liq_market.specs.declared.load_fault.LoadFault.TheVariants.{Unsound};
ghost use Rattle.liq_market.specs.Answering.{Answers, Previews, numbered, unused_number};
ghost use Rattle.liq_market.specs.Content.{IsSame};
ghost use Rattle.liq_market.specs.Lists.{accounts_in};
ghost use Rattle.liq_market.specs.Saving.{IsSave, IsUnsoundSave, LoadsAs, saved};
ghost use Rattle.liq_market.specs.Touching.{touched_after};

use crate::lists::{AccountList, deposit_accounts, lay, wallet_accounts};
use crate::load_fault::LoadFault;
use crate::saving::{AROUND, read_saved, save_of};
use crate::touching::{NAMED_MOST, note};
use liq_checkpoint::{ImageBytes, decode, encode};
use liq_core::laws::{lists_stand, protocols_are_sound, protocols_stand};
use liq_core::{ImageFault, PlanFault, Protocol, Turn, unhinted};
use liq_core_hinted::{Guided, Hints, words_of};
use liq_types::amounts::{LIM, NUMBER_MOST};
use liq_types::{Call, Command, Hint, HintWords, Image, NoMemory, Query, Reply, Request, Steps};
use std::alloc::Global;
use std::marker::{Brand, Model};
use std::sync::ledger::{Blank, Ledger};

/// A market. Contracts see its protocol, and whom the last command touched that it accepted.
pub struct Market {
    alloc: Global,
    guided: Guided,
    touched: Vec<u32>,
}

// odd: drop written out
impl Drop for Market {
    fn drop(self) {
        let Market {
            alloc: _,
            guided: _,
            touched: _,
        } = self;
    }
}

impl Model for Market {
    ghost use Rattle.liq_market.specs.Content.{Content};

    ghost Value = { Content };

    ghost view = { λ m. record { core = m.guided; touched = m.touched.items } };
}

impl Market {
    /// A market as it opens: nothing is inside.
    pub fn new(alloc: Global) -> Market
        ensures stands { StandsFor result.core opening }
        ensures untouched { result.touched ≡ [] }
    {
        Market {
            alloc,
            guided: Guided::with_limit(alloc, LIM),
            touched: Vec::new(alloc),
        }
    }

    /// Answers a request by the rules. `NoMemory` comes only for a command that the rules allow or
    /// for which a list of troves is planned; then nothing changes.
    pub fn answer(&mut self, request: &Request) -> Result<Reply, NoMemory>
        ensures answered { (s : State) → StandsFor self.old.core s
            → Answers s request.now result self.new.core }
        ensures touched { (s : State) → StandsFor self.old.core s
            → OnOk result (self.new.touched ≡ touched_after s request.now self.old.touched) }
        ensures err { OnErr result (IsSame self.old self.new) }
    {
        match request {
            // A command is planned without its own hint words, which come behind the guide's hint.
            Request::Do(command) => {
                let words = words_of(&command.call);
                // odd: steps counted
                self.make::<Brand>(&unhinted(command), words, Blank::new(1))
            }
            Request::Ask(query) => Ok(self.ask(query)),
        }
    }

    /// Answers a call under its client's next number, and tells which number that is. Behind 2^64 -
    /// 1 there is no next one: the call of a client that has come so far has the number 0, and is
    /// refused as out of turn.
    pub fn answer_next(&mut self, client: u32, call: &Call) -> (u64, Result<Reply, NoMemory>)
        ensures number { (s : State) → StandsFor self.old.core s
            → result.0 ≡ unused_number s client call.now }
        ensures answered { (s : State) → StandsFor self.old.core s
            → Answers s (numbered client result.0 call.now) result.1 self.new.core }
        ensures touched { (s : State) → StandsFor self.old.core s → OnOk result.1 (self.new.touched
            ≡ touched_after s (numbered client result.0 call.now) self.old.touched) }
        ensures err { OnErr result.1 (IsSame self.old self.new) }
    {
        let number = self.unused_number(client, call);
        let command = Command {
            client,
            number,
            call: *call,
        };
        (number, self.answer(&Request::Do(command)))
    }

    /// The client's next number; 0, where it has used the greatest.
    fn unused_number(&self, client: u32, call: &Call) -> u64
        ensures { (s : State) → StandsFor self.now.core s
            → result ≡ unused_number s client call.now }
    {
        let number = self.guided.protocol().next_number(client);
        if number < NUMBER_MOST {
            return number;
        }
        let command = Command {
            client,
            number,
            call: *call,
        };
        match self.guided.plan(&command) {
            Ok(Turn::Again(_)) => 0,
            Ok(Turn::New(_planned)) => number,
            Err(PlanFault::No(_)) => number,
            Err(PlanFault::NoMemory) => number,
        }
    }

    /// The reply to a query. It changes nothing.
    pub fn ask(&self, query: &Query) -> Reply
        ensures { (s : State) → StandsFor self.now.core s → (step s (Ask query.now)).1 ≡ result }
    {
        self.guided.query(query)
    }

    /// The reply that a command would have now, which is not carried out. Only a list of troves
    /// that is planned may find no memory.
    pub fn preview(&self, command: &Command) -> Result<Reply, NoMemory>
        ensures { (s : State) → StandsFor self.now.core s → Previews s command.now result }
    {
        match self.guided.plan(command) {
            Ok(Turn::New(planned)) => Ok(Reply::Said(*planned.done())),
            Ok(Turn::Again(kept)) => Ok(Reply::Said(kept)),
            Err(PlanFault::No(refusal)) => Ok(Reply::No(refusal)),
            Err(PlanFault::NoMemory) => Err(NoMemory),
        }
    }

    /// Another market with the same image, the same records and the same list. From then on each
    /// goes its own way. The fork has touched nobody yet.
    pub fn fork(&self, alloc: Global) -> Result<Market, NoMemory>
        ensures same { IfOk result (λ fork. SameContent self.now.core fork.core) }
        ensures untouched { IfOk result (λ fork. fork.touched ≡ []) }
    {
        let protocol = self.guided.protocol();
        // odd: law called
        protocols_are_sound(protocol);
        protocols_stand(protocol);
        lists_stand(protocol);
        let image = protocol.image()?;
        match Market::at(alloc, image, protocol.records()) {
            Ok(fork) => {
                lists_stand(fork.guided.protocol());
                Ok(fork)
            }
            Err(ImageFault::NoMemory) => Err(NoMemory),
            // The image of a sound market breaks no rule.
            Err(ImageFault::Unsound { .. }) => unreachable!(),
        }
    }

    /// How many bytes its save has.
    pub fn saved_length(&self) -> u128
        ensures { result ≡ length (saved self.now.core.image self.now.core.records) }
    {
        let protocol = self.guided.protocol();
        // odd: law called
        protocols_are_sound(protocol);
        AROUND + protocol.checkpoint_length()
    }

    /// Its save: bytes that [`Market::load`] makes the same market of. Markets with the same image
    /// and the same records have the same bytes.
    pub fn save(&self, alloc: Global) -> Result<Vec<u8>, NoMemory>
        ensures { IfOk result (λ bytes.
            IsSave bytes.items self.now.core.image self.now.core.records) }
    {
        let protocol = self.guided.protocol();
        // odd: law called
        protocols_are_sound(protocol);
        let image = protocol.image()?;
        let checkpoint = encode(alloc, &image)?;
        save_of(alloc, protocol.records(), &checkpoint)
    }

    /// The market of a save. What is loaded may have no history: any sound image has a save.
    pub fn load(alloc: Global, bytes: &[u8]) -> Result<Market, LoadFault>
        ensures found { IfOk result (λ m. IsSave bytes.now m.core.image m.core.records) }
        ensures save { (i : image) (records : ℕ) → IsSave bytes.now i records
            → LoadsAs i records result }
        ensures unsound { (rule : ℕ) → result ≡ Err (Unsound rule) → IsUnsoundSave bytes.now rule }
    {
        let Some((records, checkpoint)) = read_saved(bytes) else {
            return Err(LoadFault::Damaged);
        };
        let image = match decode(alloc, checkpoint) {
            Ok(image) => image,
            Err(ImageBytes::Bad { .. }) => return Err(LoadFault::Damaged),
            Err(ImageBytes::NoMemory) => return Err(LoadFault::NoMemory),
        };
        match Market::at(alloc, image, records) {
            Ok(market) => Ok(market),
            Err(ImageFault::Unsound { rule }) => Err(LoadFault::Unsound { rule }),
            Err(ImageFault::NoMemory) => Err(LoadFault::NoMemory),
        }
    }

    /// Writes the accounts of a list into places, but not the first `passed` of them: as many as
    /// there are places for. The other places stay. Tells how many accounts the list has. Deposits
    /// and wallets may find no memory, and nothing is written then.
    pub fn accounts(
        &self,
        list: AccountList,
        passed: usize,
        places: &mut [u32],
    ) -> Result<u64, NoMemory>
        ensures count { IfOk result (λ count. count ≡ length (accounts_in list self.now)) }
        ensures written { OnOk result (places.new
            ≡ laid (drop passed (accounts_in list self.now)) places.old) }
        ensures stays { OnErr result (places.new ≡ places.old) }
        ensures err { OnErr result ((list ≡ Deposits) ⊎ (list ≡ Wallets)) }
    {
        let protocol = self.guided.protocol();
        match list {
            AccountList::Troves => Ok(protocol.trove_accounts(passed, places)),
            AccountList::Deposits => {
                let accounts = deposit_accounts(self.alloc, &protocol.deposit_rows()?)?;
                Ok(lay(&accounts, passed, places))
            }
            AccountList::Wallets => {
                let accounts = wallet_accounts(self.alloc, &protocol.wallet_rows()?)?;
                Ok(lay(&accounts, passed, places))
            }
            AccountList::Touched => Ok(lay(&self.touched, passed, places)),
        }
    }

    /// Its protocol, of which the laws of `liq_core` speak.
    pub fn protocol(&self) -> &Protocol
        ensures { result.now ≡ self.now.core }
    {
        self.guided.protocol()
    }

    /// The market that goes on from an image beside so many records.
    fn at(alloc: Global, image: Image, records: u64) -> Result<Market, ImageFault>
        requires { HasTables image }
        ensures image { IfOk result (λ m. m.core.image ≡ image) }
        ensures records { IfOk result (λ m. m.core.records ≡ records) }
        ensures untouched { IfOk result (λ m. m.touched ≡ []) }
        ensures unsound { (rule : ℕ) → (result ≡ Err (unloaded.Unsound rule))
            ↔ (first_unsound image records ≡ Some rule) }
    {
        // odd: match for ?
        let protocol = match Protocol::from_image_at(alloc, image, records) {
            Ok(protocol) => protocol,
            Err(fault) => return Err(fault),
        };
        match Guided::of(alloc, protocol) {
            Ok(guided) => Ok(Market {
                alloc,
                guided,
                touched: Vec::new(alloc),
            }),
            Err(_) => Err(ImageFault::NoMemory),
        }
    }

    // Answers a command with these hint words in place of its own. Its steps are counted on a
    // ledger of their own.
    fn make<L: Ledger>(
        &mut self,
        command: &Command,
        words: HintWords,
        blank: Blank,
    ) -> Result<Reply, NoMemory>
        requires name { blank.name ≡ L.name }
        requires parts { blank.parts ≡ L.parts }
        requires one { L.parts ≡ 1 }
        ensures answered { (s : State) → StandsFor self.old.core s
            → Answers s (Do command.now) result self.new.core }
        ensures touched { (s : State) → StandsFor self.old.core s
            → OnOk result (self.new.touched ≡ touched_after s (Do command.now) self.old.touched) }
        ensures err { OnErr result (IsSame self.old self.new) }
    {
        let mut steps = Steps::<L>::new(blank);
        self.make_counted(command, words, &mut steps)
    }

    // Answers a command with these hint words in place of its own. Where it has none of its own, the
    // place of its trove takes at most four steps, however long the list is.
    fn make_counted<L: Ledger>(
        &mut self,
        command: &Command,
        words: HintWords,
        steps: &mut Steps<L>,
    ) -> Result<Reply, NoMemory>
        ensures answered { (s : State) → StandsFor self.old.core s
            → Answers s (Do command.now) result self.new.core }
        ensures touched { (s : State) → StandsFor self.old.core s
            → OnOk result (self.new.touched ≡ touched_after s (Do command.now) self.old.touched) }
        ensures err { OnErr result (IsSame self.old self.new) }
        ensures few { (c : command_row) → command.now ≡ plain c
            → OnOk result (steps.new ≤ steps.old + 4) }
    {
        // odd: law called
        protocols_stand(self.guided.protocol());
        let planned = match self.guided.plan(command) {
            Ok(Turn::New(planned)) => planned,
            Ok(Turn::Again(kept)) => return Ok(Reply::Said(kept)),
            Err(PlanFault::No(refusal)) => return Ok(Reply::No(refusal)),
            Err(PlanFault::NoMemory) => return Err(NoMemory),
        };
        self.touched
            .reserve(NAMED_MOST + planned.list_changes().len())?;
        let exact = self.guided.reserve(&planned)?;
        note(&mut self.touched, &command.call, planned.list_changes());
        let hints = Hints {
            exact,
            words,
            given: Hint::NONE,
        };
        let done = self.guided.apply(&planned, &hints, steps);
        Ok(Reply::Said(done))
    }
}
