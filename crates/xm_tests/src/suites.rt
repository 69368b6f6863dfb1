//! A suite for each layer, and what they build on: names, and nets as tables.

mod colours;
mod cycles;
mod decisions;
mod designs;
mod flow_rows;
mod invariants;
mod lists_and_nets;
mod names;
mod orders;
mod part_runs;
mod parts;
mod persistency;
mod rows;
mod runs;
mod streams;
mod tapes;

use xm_tests_nets as nets;
