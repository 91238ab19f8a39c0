// The fuse file's text: what its writer and its reader share. Definitions are in specs/, their laws in proofs/.
#![tactic(auto)]

pub mod field;
pub mod scan;
