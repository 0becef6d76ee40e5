//! The text of a picture in SVG.
#![tactic(auto)]

mod elements;
mod frame;
mod label;
mod numbers;
mod svg;
mod words;

pub use svg::print_picture;
