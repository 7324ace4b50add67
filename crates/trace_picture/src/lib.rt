//! The picture of a run's journal, as an SVG text.
#![tactic(auto)]

mod boxes;
mod lanes;
mod laws;
mod line;
mod marks;
mod parts;
mod picture;
mod styles;
mod verdict;
mod view;

pub use laws::pictures_tell_journals;
pub use picture::picture_text;
pub use view::view_trace;
