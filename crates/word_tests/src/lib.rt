//! Tests of the words of the command line, and of what they ask for, over the contracts of `command_words` and `famlint_requests`.
#![tactic(auto)]

#[cfg(test)]
mod lines;
#[cfg(test)]
mod requests;
#[cfg(test)]
mod words;
