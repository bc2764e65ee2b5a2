//! What files are read to.

use crate::machine::Machine;
use crate::net::Net;

/// What a file was read to.
#[derive(Drop)]
pub enum File {
    Net(Net),
    Machine(Machine),
}
