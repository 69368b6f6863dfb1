//! A suite for each of them, the documents of the top call, and helpers.

mod commands;
mod demonstrations;
mod documents;
mod gates;
mod generated;
mod helpers;
mod inputs;
mod lines;
mod proofs;
mod simulations;
mod texts;
mod verdicts;
mod words;
