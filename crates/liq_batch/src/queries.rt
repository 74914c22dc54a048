//! A batch of queries in their words.

ghost use Rattle.std.specs.Prelude.{◌≡◌, MatchResult, Ok, Err};
ghost use Rattle.liq_types.specs.State.{State};
ghost use Rattle.liq_types.specs.declared.requests.Request.TheVariants.{Ask};
ghost use Rattle.liq_core.specs.Core.{StandsFor};
ghost use Rattle.liq_batch.specs.Batch.{Answered, AnswersItem, asking, query_in};

use crate::batch::{Batch, Fault, Query64};
use liq_market::Market;
use liq_replies96::{Reply96, encode};
use liq_types::{Query, Reply};

/// Answers queries in order, as long as there are places for replies. Nothing changes. It stops at
/// the first that is none: the reply in its place says why, and behind it no place is written.
pub fn ask_all(market: &Market, queries: &[Query64], replies: &mut [Reply96]) -> Batch
    ensures { (s : State) → StandsFor market.now.core s → Answered asking
        s queries.now result market.now market.now replies.old replies.new }
{
    let most = queries.len().min(replies.len());
    for done in 0..most {
        match ask_one(market, &queries[done]) {
            Ok(reply) => replies[done] = encode(&reply),
            Err(fault) => return Batch::stopped(done, fault, replies),
        }
    }
    Batch::over(most)
}

fn ask_one(market: &Market, query: &Query64) -> Result<Reply, Fault>
    ensures { (s : State) → StandsFor market.now.core s
        → AnswersItem asking s query.now result market.now market.now }
{
    match query_of(query) {
        Ok(query) => Ok(market.ask(&query)),
        Err(place) => Err(Fault::Bad(place)),
    }
}

/// The query that the words are, or where the first of them begins that fits none.
fn query_of(query: &Query64) -> Result<Query, u8>
    ensures { MatchResult result
        (λ q. query_in query.now ≡ Ok (Ask q)) (λ place. query_in query.now ≡ Err place) }
{
    let account = query.account;
    match query.topic {
        1 => Ok(Query::Wallet(account)),
        2 => Ok(Query::Trove(account)),
        3 => Ok(Query::Deposit(account)),
        4 if account == 0 => Ok(Query::Pools),
        5 if account == 0 => Ok(Query::System),
        6 => Ok(Query::NextNumber(account)),
        4 | 5 => Err(4),
        _ => Err(0),
    }
}
