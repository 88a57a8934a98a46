//! Pictures: shapes with what each is there for, and the text of a picture as SVG.
#![tactic(auto)]

mod laws;
mod paint;
mod picture;
mod printing;
mod shape;
mod style;
mod text;

pub use laws::{scan_refuses, tags_close_in_order};
pub use paint::Paint;
pub use picture::Picture;
pub use printing::print_picture;
pub use shape::{Place, Places, Shape, Shapes};
pub use style::{NAME_SPACE, STYLE};
pub use text::Text;
