//! The library for C. One call does what a command of the program does, on words and files in memory. It also
//! says what that means. Another call does it for many trades.
#![tactic(auto)]

mod each;
mod exports;
mod given;
mod kept;
mod telling;
#[cfg(test)]
mod tests;
