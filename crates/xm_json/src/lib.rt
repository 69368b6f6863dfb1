//! Reading JSON: values of a known form and the members of objects, or the path of the first value that
//! has not its form.
#![tactic(auto)]

mod fault;
mod members;
mod path;
mod values;
mod whole_numbers;

pub use fault::PathFault;
pub use members::{
    list_member, number_member, only, required, small_number_member, text_member, texts_member,
};
pub use path::{member_path, member_text, place_path, place_text};
pub use values::{list_at, number_at, small_number_at, text_at, texts_at, texts_in};
pub use whole_numbers::has_whole;
