//! Widths and expressions of the language, read from tokens.
#![tactic(auto)]

mod atoms;
mod behind;
mod closing;
mod cursor;
mod exprs;
mod farther;
mod filling;
mod lists;
mod literals;
mod progress;
mod signs;
mod stop;
mod widths;

pub use cursor::{Cursor, expect, expect_reserved, expect_word, word};
pub use exprs::{ExprPart, Inside, args, expr_part, in_brackets};
pub use lists::{only, with};
pub use literals::access;
pub use stop::{Stop, keep};
pub use widths::width;
