//! The checker of certificates: it accepts exactly the valid ones, and names the first fault of any
//! other.
#![tactic(auto)]

mod allowed;
mod checked;
mod checking;
mod edge_sets;
mod feeding;
mod leaves;
mod moves;
mod node;
mod present;
mod rounds;
mod tester;
mod threats;

pub use checked::{CheckFault, Checked, check, faults_are_told, valid_claims_are_forced};
pub use checking::{Checking, Rejected};
