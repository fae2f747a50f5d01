//! Calls over memory, each on a table of what may stand or fail outside.

mod calling;
mod faults;
mod histories;
mod images;
mod losses;
mod reader;
mod resumes;
mod shapes;
mod watched;
