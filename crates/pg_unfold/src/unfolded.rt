//! Unfolded certificates, and why one can't be had.
ghost use Rattle.std.specs.Prelude.{◌≡◌};

use pg_base::Memory;
use pg_cert::Cert;
use std::marker::Model;

/// For each node of an unfolded claim the number of the node from which it came.
#[derive(Debug, Drop)]
pub struct Origins {
    members: Vec<u32>,
}

/// The numbers in order.
impl Model for Origins {
    ghost use Rattle.std.specs.Prelude.{ℕ, List};

    ghost Value = { List ℕ };

    ghost view = { λ a. a.members.items };
}

impl Origins {
    /// The list of these numbers.
    pub fn from_vec(members: Vec<u32>) -> Origins
        ensures { result ≡ members.items }
    {
        Origins { members }
    }

    /// The numbers in order.
    pub fn as_slice(&self) -> &[u32]
        ensures { result.now ≡ self.now }
    {
        self.members.as_slice()
    }
}

/// The origins of several claims' nodes.
#[derive(Debug, Drop)]
pub struct Sources {
    members: Vec<Origins>,
}

/// The origins of each claim's nodes, in the order of the claims.
impl Model for Sources {
    ghost use Rattle.std.specs.Prelude.{ℕ, List};

    ghost Value = { List (List ℕ) };

    ghost view = { λ a. a.members.items };
}

impl Sources {
    /// The list of these.
    pub fn from_vec(members: Vec<Origins>) -> Sources
        ensures { result ≡ members.items }
    {
        Sources { members }
    }

    /// The origins of each claim's nodes, in order.
    pub fn as_slice(&self) -> &[Origins]
        ensures { result.now ≡ self.now }
    {
        self.members.as_slice()
    }
}

/// A certificate of plain nodes that stands for one in which nodes are images of others.
#[derive(Debug, Drop)]
pub struct Unfolded {
    /// The certificate.
    pub cert: Cert,
    /// From which node each of its nodes came.
    pub sources: Sources,
}

/// Why a certificate with images can't be unfolded.
#[derive(Clone, Copy, Debug, PartialEq, Eq)]
pub enum ImageFault {
    /// A node is faulty, or a claim too large.
    Bad {
        /// The claim, counted from 0.
        claim: u32,
        /// The node of that claim, counted from 0.
        node: u32,
        /// The number of the fault: 1 to 4.
        why: u8,
    },
    /// No memory is left.
    Memory,
}

impl From<Memory> for ImageFault {
    ghost use Rattle.std.specs.Prelude.{◌≡◌};
    ghost use Rattle.pg_unfold.specs.declared.unfolded.ImageFault.TheVariants as faults;

    ghost from_gives = { λ _ fault. fault ≡ faults.Memory };

    fn from(_: Memory) -> ImageFault {
        ImageFault::Memory
    }
}
