//! Whether the cost of a body, a bound on how much a run of it can take, passes the one that typing
//! allows.
#![tactic(auto)]

mod bodies;
mod capped;
mod expressions;
mod names;
mod prices;
mod statements;
mod turns;

pub use bodies::is_past_cost;
