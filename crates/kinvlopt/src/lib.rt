// The calls of Kinvlopt, each passed on from the crate that proves it: a text to its fuse file, to its fit lines and to the answer to a grader's
// question; a fuse file to its map and back; a map to what the device shows.
#![tactic(auto)]

pub use askcall::ask;
pub use basics::refusal::{Reason, Refusal};
pub use compilecall::compile;
pub use engine::Grade;
pub use fitcall::fit;
pub use fuseread::read;
pub use fusewrite::write;
pub use gal::Answer;
pub use galmodel::model;
