// Books of bounds: what a plan reads its bounds from and adds them to.
#![tactic(auto)]

pub mod book;
pub mod bulk;
pub mod fault;
pub mod lent;
mod rows;
pub mod table;
pub mod trial;

pub use book::Book;
pub use bulk::add_all;
pub use fault::BookFault;
pub use lent::WordBook;
pub use table::Table;
pub use trial::Trial;
