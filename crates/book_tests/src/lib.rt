// Tests of the book: damage at each byte of a line, and for each rule of which line can follow a line that only this rule refuses.
#![tactic(auto)]

#[cfg(test)]
mod damage;
#[cfg(test)]
mod reading;
#[cfg(test)]
mod rules;
