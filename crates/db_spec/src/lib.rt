//! What it is that tables keep the rules of acceptance, and which rule is the first that they break.
#![tactic(auto)]

mod broken;

pub use broken::Broken;
