//! Which line is due.

ghost use Rattle.std.specs.Prelude.{◌≡◌};
ghost use Rattle.pg_cert_files.specs.Steps.{Steps};
ghost use Rattle.pg_cert_files.specs.CertFile.{step, start, header_step, claim_step, count_step};
ghost use Rattle.pg_cert_files.specs.CertFile.{node_step, end_fault};

use pg_cert::{MAX_CLAIM_NODES, MAX_CLAIMS, MAX_NODES, Part, Version};
use pg_cert_lines::{Fault, Head, count_of, has_bar, head_of, node_line, version_of};
use pg_text::{LineError, number};
use std::alloc::Global;

/// The line that is due.
#[derive(Clone, Copy, Debug, PartialEq, Eq)]
pub enum Due {
    /// The first line.
    Header,
    /// A claim line, or the end.
    Claim,
    /// The `nodes` line of a claim.
    Count(Head),
    /// A node, after which so many others stand.
    Node(u32),
}

/// Which line is due, the version, and how many claims and nodes have come.
#[derive(Clone, Copy, Debug)]
pub struct Progress {
    /// The line that is due.
    pub due: Due,
    /// The version that the first line named; version 1 before it.
    pub version: Version,
    /// How many claims have begun.
    pub claims: u32,
    /// How many nodes their `nodes` lines promise together.
    pub nodes: u32,
}

impl Progress {
    /// Before the first line.
    pub fn new() -> Progress
        ensures { result ≡ start }
    {
        Progress {
            due: Due::Header,
            version: Version::One,
            claims: 0,
            nodes: 0,
        }
    }

    /// Reads the first line.
    fn header(&mut self, line: &[u8]) -> Result<Option<Part>, LineError<Fault>>
        ensures { Steps result self.new (header_step self.old line.now) }
    {
        let Some(version) = version_of(line) else {
            return Err(LineError::Fault(Fault::Header));
        };
        self.version = version;
        self.due = Due::Claim;
        Ok(None)
    }

    /// Reads a claim line.
    fn claim(&mut self, line: &[u8]) -> Result<Option<Part>, LineError<Fault>>
        ensures { Steps result self.new (claim_step self.old line.now) }
    {
        if has_bar(line) {
            return Err(LineError::Fault(Fault::Place));
        }
        let Some(head) = head_of(line) else {
            return Err(LineError::Fault(Fault::Form));
        };
        if self.claims >= MAX_CLAIMS {
            return Err(LineError::Fault(Fault::Limit));
        }
        self.claims += 1;
        self.due = Due::Count(head);
        Ok(None)
    }

    /// Reads the `nodes` line of a claim.
    fn count(&mut self, head: Head, line: &[u8]) -> Result<Option<Part>, LineError<Fault>>
        ensures { Steps result self.new (count_step head self.old line.now) }
    {
        let Some(word) = count_of(line) else {
            return Err(LineError::Fault(Fault::Form));
        };
        let Some(nodes) = number(word) else {
            return Err(LineError::Fault(Fault::Number));
        };
        if nodes == 0 {
            return Err(LineError::Fault(Fault::Number));
        }
        let sum = u64::from(self.nodes) + u64::from(nodes);
        if nodes > MAX_CLAIM_NODES || sum > u64::from(MAX_NODES) {
            return Err(LineError::Fault(Fault::Limit));
        }
        self.nodes += nodes;
        self.due = Due::Node(nodes - 1);
        Ok(Some(Part::Claim {
            turn: head.turn,
            side: head.side,
            goal: head.goal,
            nodes,
        }))
    }

    /// Reads a node line, after which so many others stand.
    #[tactic(auto, using(crate::proofs::NodeSteps::node_steps))]
    fn node(
        &mut self,
        alloc: Global,
        others: u32,
        line: &[u8],
    ) -> Result<Option<Part>, LineError<Fault>>
        ensures { Steps result self.new (node_step others self.old line.now) }
    {
        self.due = if others == 0 {
            Due::Claim
        } else {
            Due::Node(others - 1)
        };
        node_line(alloc, self.version, line)
    }

    /// Reads the next line.
    #[tactic(auto, unfolding(crate::specs::CertFile::step))]
    pub fn read(&mut self, alloc: Global, line: &[u8]) -> Result<Option<Part>, LineError<Fault>>
        ensures { Steps result self.new (step self.old line.now) }
    {
        match self.due {
            Due::Header => self.header(line),
            Due::Claim => self.claim(line),
            Due::Count(head) => self.count(head, line),
            Due::Node(others) => self.node(alloc, others, line),
        }
    }

    /// The fault of a file that ends here.
    pub fn end_fault(&self) -> Option<Fault>
        ensures { result ≡ end_fault self.now self.now.due }
    {
        match self.due {
            Due::Header => Some(Fault::Header),
            Due::Claim => {
                if self.claims == 0 {
                    Some(Fault::Form)
                } else {
                    None
                }
            }
            Due::Count(_) => Some(Fault::Form),
            Due::Node(_) => Some(Fault::Place),
        }
    }
}
