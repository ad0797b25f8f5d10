// What people read and write: numbers, addresses, questions and answers as text.
#![tactic(auto)]

pub mod address;
pub mod lines;
pub mod number;
pub mod question;
pub mod report;
