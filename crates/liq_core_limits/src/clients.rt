//! The clients that a checkpoint counts.

ghost use Rattle.std.specs.Prelude.{◌≡◌, ◌≤◌, length};
ghost use Rattle.liq_types.specs.declared.figures.Client.{Client as client_row};
ghost use Rattle.liq_types.specs.Tables.{put};

use liq_tables::Reserved;
use liq_types::Client;
use liq_types::amounts::ACCOUNTS;

/// How many clients there are once this one has a row.
pub fn clients_with(clients: &Reserved<Client>, client: u32) -> u64
    requires { length clients.now.rows ≤ ACCOUNTS }
    ensures { (row : client_row) → result ≡ length (put clients.now.rows client row) }
{
    let count = clients.count();
    match clients.get(client) {
        Some(_) => count,
        None => count + 1,
    }
}
