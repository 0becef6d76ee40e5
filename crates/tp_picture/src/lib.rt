//! Pictures of a run: which shapes a script, a journal and a view of it give.
#![tactic(auto)]

mod about;
mod arrows;
mod dots;
mod laws;
mod picture;
mod place;
mod rows;
mod scene;
mod shape;
mod sign;
mod view;

pub use laws::{law_arrows, law_columns, law_crosses, law_dots};
pub use picture::shapes;
pub use place::Place;
pub use shape::Shape;
pub use sign::{Kind, Sign};
pub use view::View;
