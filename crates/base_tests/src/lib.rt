// Tests of settings, blocks, input records and text, as tables of cases.
#![tactic(auto)]

#[cfg(test)]
mod inputs;
#[cfg(test)]
mod settings;
#[cfg(test)]
mod texts;
