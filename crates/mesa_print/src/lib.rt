//! Replies as they are printed: head lines, and the bodies of pages; and the printer that gives them to a sink that may
//! fail. What was given to it since it was whole is known, and once it has failed it is given nothing more.
#![tactic(auto)]

mod heads;
mod line;
mod pages;
mod printer;
mod refusals;
mod replies;
mod rows;
mod writing;

pub use heads::head;
pub use line::HEAD_ROOM;
pub use pages::render;
pub use printer::Printer;
