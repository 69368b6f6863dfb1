//! The tests of what is read and printed: documents, lines and texts, words, and the top call.
#![tactic(auto)]

#[cfg(test)]
mod suites;
