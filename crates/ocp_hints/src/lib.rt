//! What was unexpected in an input that was refused, as a person would say it. The readers find it:
//! a hint has examples and sentences, and asks them. Nothing that the program answers depends on a
//! hint.
#![tactic(auto)]

mod assembly;
mod hint;
mod image;
mod line;
mod script;

pub use assembly::hint_on_text;
pub use hint::Hint;
pub use image::hint_on_image;
pub use script::hint_on_script;
