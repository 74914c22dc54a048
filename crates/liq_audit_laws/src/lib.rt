//! What the Stability Pool's rounding theorem and the audit say together: lawful events can be
//! audited, and what the protocol gives every account is then within its row.
#![tactic(auto)]

pub mod laws;
