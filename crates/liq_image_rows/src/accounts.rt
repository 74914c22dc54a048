//! Rule 2: whose rows an image has.

ghost use Rattle.std.specs.Prelude.{◌≡◌};
ghost use Rattle.liq_types.specs.Soundness.{has_accounts, has_keys_in_range};

use liq_types::amounts::ACCOUNTS;
use liq_types::{ClientRows, DepositRows, Image, SurplusRows, TroveRows, WalletRows};

/// Rule 2: whether every account and every client is in range.
pub fn has_accounts(image: &Image) -> bool
    ensures { result ≡ has_accounts image.now }
{
    are_wallets_in_range(&image.wallets)
        && are_troves_in_range(&image.troves)
        && are_surplus_rows_in_range(&image.surplus_rows)
        && are_deposits_in_range(&image.deposits)
        && are_clients_in_range(&image.clients)
}

fn are_wallets_in_range(wallets: &WalletRows) -> bool
    ensures { result ≡ has_keys_in_range wallets.now }
{
    wallets.rows().iter().all(|row| row.account < ACCOUNTS)
}

fn are_troves_in_range(troves: &TroveRows) -> bool
    ensures { result ≡ has_keys_in_range troves.now }
{
    troves.rows().iter().all(|row| row.account < ACCOUNTS)
}

fn are_surplus_rows_in_range(surplus_rows: &SurplusRows) -> bool
    ensures { result ≡ has_keys_in_range surplus_rows.now }
{
    surplus_rows.rows().iter().all(|row| row.account < ACCOUNTS)
}

fn are_deposits_in_range(deposits: &DepositRows) -> bool
    ensures { result ≡ has_keys_in_range deposits.now }
{
    deposits.rows().iter().all(|row| row.account < ACCOUNTS)
}

fn are_clients_in_range(clients: &ClientRows) -> bool
    ensures { result ≡ has_keys_in_range clients.now }
{
    clients.rows().iter().all(|row| row.client < ACCOUNTS)
}
