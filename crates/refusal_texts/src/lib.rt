//! What is written of a file that is refused: its errors, with what stands there and how it is mended.
#![tactic(auto)]

mod quotes;
mod sentences;
mod texts;
mod told;

pub use sentences::{hint_text, kind_words};
pub use std::alloc::AllocError as OutOfMemory;
pub use texts::{RefusalText, is_some_hint, refusal_text};
pub use told::{MOST_TOLD, ToldRefusal, first_told, has_more, told_refusals};
