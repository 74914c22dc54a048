//! Rotation: the next generation of the journal begins with a checkpoint of the protocol. Only the
//! journal's limits refuse it, which come after all other rules.

ghost use Rattle.std.specs.Prelude.{◌≡◌, ◌<◌, IfOk, Ok, None};
ghost use Rattle.std.specs.List.{Contains};
ghost use Rattle.liq_types.specs.declared.amounts.TheConstants.{LIM};
ghost use Rattle.liq_types.specs.declared.requests.Call.TheVariants.{Rotate};
ghost use Rattle.liq_types.specs.Length.{checkpoint_length};
ghost use Rattle.liq_types.specs.Soundness.{HasTables, first_unsound};
ghost use Rattle.liq_types.specs.State.{State};
ghost use Rattle.liq_types.specs.Tables.{put};
ghost use Rattle.liq_core.specs.Core.{StandsFor, state_of};
ghost use Rattle.liq_core.specs.Plan.{IsPlannedOn};
ghost use Rattle.liq_core.specs.Turn.{IsRuled};
ghost use Rattle.liq_rule_step.specs.Image.{image};
ghost use Rattle.liq_rule_step.specs.Step.{Allowed, after, done_of, first_refusal, room_rules, ruling};

use crate::effects::Effect;
use crate::engine::Protocol;
use crate::image::client_rows;
use crate::kinds;
use crate::turns::{Forecast, Planned};
use liq_core_limits::clients_with;
use liq_tables::Reserved;
use liq_types::amounts::{CHECKPOINT_BYTES_MOST, GENERATIONS_MOST};
use liq_types::{Call, Client, ClientRows, Command, Done, Image, NoMemory, Refusal};

impl Protocol {
    /// What a rotation comes to: its reply has the generation that begins.
    pub(crate) fn plan_rotate(&self) -> Forecast
        ensures { IsRuled (state_of self.now) Rotate (Ok result) }
    {
        let done = Done {
            kind: kinds::ROTATE,
            values: [self.current().next().number, 0, 0, 0, 0, 0],
        };
        Forecast::plain(done, Effect::Rotate)
    }

    /// Why the journal takes a command no more. A rotation needs one more generation and room for
    /// its checkpoint, and any other command one more record.
    pub(crate) fn no_room(&self, command: &Command) -> Option<Refusal>
        ensures { result ≡ first_refusal (room_rules (state_of self.now) command.now) }
    {
        match command.call {
            Call::Rotate => self.no_generation(command),
            _ => self.current().no_record(),
        }
    }

    /// Why no generation may follow. The checkpoint is measured only where there may be one more.
    fn no_generation(&self, command: &Command) -> Option<Refusal>
        requires { command.now.call ≡ Rotate }
        ensures { result ≡ first_refusal (room_rules (state_of self.now) command.now) }
    {
        let next = u128::from(self.generation) + 1;
        if next > u128::from(GENERATIONS_MOST) {
            let (sum, limit) = (next, GENERATIONS_MOST);
            return Some(Refusal::AmountLimit { sum, limit });
        }
        let bytes = self.checkpoint_bytes(command);
        if bytes > u128::from(CHECKPOINT_BYTES_MOST) {
            let (sum, limit) = (bytes, CHECKPOINT_BYTES_MOST);
            return Some(Refusal::AmountLimit { sum, limit });
        }
        None
    }

    /// How many bytes a rotation's checkpoint has. It holds the reply to the rotation itself, also
    /// of a client that had none.
    fn checkpoint_bytes(&self, command: &Command) -> u128
        requires { command.now.call ≡ Rotate }
        ensures { result ≡ checkpoint_length (image (after (state_of self.now) command.now)) }
    {
        self.checkpoint_with(clients_with(&self.clients, command.client))
    }

    /// The image that a planned rotation leaves: what the checkpoint of the next generation holds,
    /// which breaks no rule. The protocol stays as it is.
    pub fn image_after(&self, planned: &Planned) -> Result<Image, NoMemory>
        requires rotates { planned.now.command.call ≡ Rotate }
        requires planned { IsPlannedOn self.now planned.now }
        ensures image { IfOk result (λ i. (s : State) → StandsFor self.now s
            → i ≡ image (after s planned.now.command)) }
        ensures tables { IfOk result HasTables }
        ensures sound { IfOk result (λ i. first_unsound i 0 ≡ None) }
        ensures limit { IfOk result (λ i. i.limit ≡ LIM) }
    {
        // odd: field read
        let _ = &self.records;
        let command = &planned.command;
        let row = Client {
            last: command.number,
            kept: planned.forecast.done,
        };
        let clients = self.clients_after(command.client, row)?;
        let mut image = self.image_with(clients)?;
        let next = self.current().next();
        image.generation = next.number;
        image.limit = next.limit;
        Ok(image)
    }

    /// The clients with a row for this one.
    fn clients_after(&self, client: u32, row: Client) -> Result<ClientRows, NoMemory>
        requires { 0 < row.last }
        ensures { IfOk result (λ rows. rows ≡ put self.now.image.clients client row) }
    {
        let rows = self.clients.rows(self.alloc)?;
        let mut clients = Reserved::from_entries(self.alloc, &rows)?;
        clients.reserve(client)?;
        clients.write(client, row);
        client_rows(self.alloc, &clients)
    }

    /// Begins the next generation, under the greater limit, of which no record is counted yet, and
    /// keeps the reply of the rotation.
    pub(crate) fn apply_rotate(&mut self, command: &Command, done: Done)
        requires rotates { command.now.call ≡ Rotate }
        requires allowed { ruling (state_of self.old) command.now ≡ Allowed }
        requires done { done ≡ done_of (state_of self.old) command.now.call }
        requires row { Contains self.old.room.clients command.now.client }
        ensures state { StandsFor self.new (after (state_of self.old) command.now) }
        ensures list { self.new.list ≡ self.old.list }
    {
        let next = self.current().next();
        self.generation = next.number;
        self.limit = next.limit;
        self.records = next.records;
        let last = command.number;
        self.clients
            .write(command.client, Client { last, kept: done });
    }
}
