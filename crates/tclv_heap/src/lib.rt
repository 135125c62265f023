//! Objects with counts.
//!
//! A heap keeps objects that hold one another. An object has a text, an internal form or both; a
//! form has parts, which are objects. Contracts see the graph: each object's count, its text if
//! it is made, its form if it has one, and the depth that was kept with the form. What a count has
//! beyond the parts that hold the object are its holders outside the graph.
//!
//! The layer promises to those above it:
//!
//! - The graph stays sound. No object reaches itself, and each part is there. A count counts each
//!   holder, or stays at the greatest `u64` for good. A text with a form fits it, and a form without
//!   a text spells. Values without a text nest at most 50 deep.
//! - What an object stands for, its text or what its form spells from its parts, changes only by
//!   `put_form` and `add_text`, of an object that one holder alone has, and with it of those above it.
//! - An object goes exactly as its last holder goes. Its parts are released with it, without memory
//!   and without recursion.
//! - A form is taken out and put back only where nothing else holds the object and nothing above it has
//!   a text. In between the object is open, and no other one is.
//! - The counters say how much was read into forms, written as strings, and copied.
//! - The one refusal is `NoMemory`, and after it everything is as before.
//!
//! What a form is, the caller's table of types says: the trait `Types`.
#![tactic(auto)]

mod copies;
mod counting;
mod ids;
mod kids;
mod objects;
mod release;
mod strings;
mod table;

pub use ids::{ObjId, Object};
pub use objects::Heap;
pub use table::{Texts, Types};
