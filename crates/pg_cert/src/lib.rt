//! Certificates: trees of moves whose leaves are criteria; when they are valid, and their text.
#![tactic(auto)]

mod cert;
mod edge_set;
mod limits;
mod node;
mod node_fault;
mod node_part;
mod part;
mod printing;
mod reply;

pub use cert::{Cert, Claim, Claims, Version};
pub use edge_set::EdgeSet;
pub use limits::{MAX_CLAIM_NODES, MAX_CLAIMS, MAX_NODES};
pub use node::{Body, Node, Nodes, with_e_named};
pub use node_fault::NodeFault;
pub use node_part::NodePart;
pub use part::Part;
pub use printing::{print_cert, print_node, put_field, put_set, put_turn};
pub use reply::{Replies, Reply};
