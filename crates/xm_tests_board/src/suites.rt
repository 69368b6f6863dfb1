//! What is done with a board, one call after another, and the boards of the tests.

mod boards;
mod calls;
mod orders;
mod rounds;
mod takes;
