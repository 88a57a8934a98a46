//! What the lines of a certificate have said so far.
ghost use Rattle.std.specs.Prelude.{◌≡◌, IfOk};
ghost use Rattle.pg_image.specs.Prelude.{Gives, end_fault, IsReadAs};
ghost use Rattle.pg_image.specs.ImageFile.{nothing, closed, header_line, with_node, with_part};
ghost use Rattle.pg_image.specs.ImageFile.{plain_line, image_added, after, ended};
ghost use Rattle.pg_image.specs.Views.{view, line_view};

use crate::cert::{ImageCert, ImageClaim, ImageClaims};
use crate::image_line::{ImageWords, image_line, image_said};
use crate::node::{ImageNode, ImageNodes};
use pg_cert::{Part, Version};
use pg_cert_files::{Due, Progress};
use pg_cert_lines::{Fault, Head};
use pg_text::{FileError, LineError};
use std::alloc::{AllocError, Global};

/// What the lines so far have said.
#[derive(Debug, Drop)]
pub(crate) struct ImageDraft {
    /// Which line is due, and how many claims and nodes have come.
    pub(crate) progress: Progress,
    /// The claims that are whole.
    pub(crate) claims: Vec<ImageClaim>,
    /// What the claim says whose nodes are gathered.
    pub(crate) head: Option<Head>,
    /// Its nodes so far.
    pub(crate) nodes: Vec<ImageNode>,
}

impl ImageDraft {
    /// Before the first line.
    pub(crate) fn new(alloc: Global) -> ImageDraft
        ensures { view result ≡ nothing }
    {
        ImageDraft {
            progress: Progress::new(),
            claims: Vec::new(alloc),
            head: None,
            nodes: Vec::new(alloc),
        }
    }

    /// Ends the claim whose nodes are gathered.
    fn close(self) -> Result<Vec<ImageClaim>, AllocError>
        ensures { IfOk result (λ claims. claims.items ≡ closed (view self)) }
    {
        let mut claims = self.claims;
        if let Some(head) = self.head {
            claims.push(ImageClaim {
                turn: head.turn,
                side: head.side,
                goal: head.goal,
                nodes: ImageNodes::from_vec(self.nodes),
            })?;
        }
        Ok(claims)
    }

    /// The same with one node more.
    fn with_node(self, node: ImageNode) -> Result<ImageDraft, AllocError>
        ensures { IfOk result (λ d. view d ≡ with_node (view self) self.progress node) }
    {
        let mut draft = self;
        draft.nodes.push(node)?;
        Ok(draft)
    }

    /// The same with one part more, where there is one.
    fn with_part(self, alloc: Global, part: Option<Part>) -> Result<ImageDraft, AllocError>
        ensures { IfOk result (λ d. view d ≡ with_part (view self) self.progress part) }
    {
        match part {
            None => Ok(self),
            Some(
                Part::Claim {
                    turn,
                    side,
                    goal,
                    ..
                },
            ) => Ok(ImageDraft {
                progress: self.progress,
                claims: self.close()?,
                head: Some(Head { turn, side, goal }),
                nodes: Vec::new(alloc),
            }),
            Some(Part::Node(node)) => self.with_node(ImageNode::Plain(node.into_node())),
        }
    }

    /// Reads the first line.
    fn header(self, line: &[u8]) -> Result<ImageDraft, LineError<Fault>>
        ensures { Gives view result (header_line (view self) line.now) }
    {
        if line != b"posgame-cert 3".as_slice() {
            return Err(LineError::Fault(Fault::Header));
        }
        let mut draft = self;
        draft.progress.due = Due::Claim;
        draft.progress.version = Version::Two;
        Ok(draft)
    }

    /// Reads a line as in version 2.
    fn plain(self, alloc: Global, line: &[u8]) -> Result<ImageDraft, LineError<Fault>>
        ensures { Gives view result (plain_line (view self) line.now) }
    {
        let mut draft = self;
        let part = draft.progress.read(alloc, line)?;
        let draft = draft.with_part(alloc, part)?;
        Ok(draft)
    }

    /// Reads the line of an image, after which so many other nodes stand.
    fn image(
        self,
        alloc: Global,
        others: u32,
        line: ImageWords,
    ) -> Result<ImageDraft, LineError<Fault>>
        ensures { Gives view result (image_added others (view self) (line_view line.entry)) }
    {
        let node = image_said(alloc, line)?;
        let mut draft = self;
        draft.progress.due = if others == 0 {
            Due::Claim
        } else {
            Due::Node(others - 1)
        };
        let draft = draft.with_node(node)?;
        Ok(draft)
    }

    /// Reads the next line.
    #[tactic(auto, unfolding(crate::specs::ImageFile::after))]
    pub(crate) fn read(self, alloc: Global, line: &[u8]) -> Result<ImageDraft, LineError<Fault>>
        ensures { Gives view result (after (view self) line.now) }
    {
        match self.progress.due {
            Due::Header => self.header(line),
            Due::Claim | Due::Count(_) => self.plain(alloc, line),
            Due::Node(others) => match image_line(line) {
                Some(image) => self.image(alloc, others, image),
                None => self.plain(alloc, line),
            },
        }
    }

    /// The certificate that the lines have said, or what lacks at the end, which has this number as
    /// a line.
    pub(crate) fn finish(self, number: u32) -> Result<ImageCert, FileError>
        ensures { IsReadAs result
            (ended number (view self) (end_fault self.progress self.progress.due)) }
    {
        if let Some(fault) = self.progress.end_fault() {
            return Err(FileError::at_line(fault, number));
        }
        let claims = self.close()?;
        Ok(ImageCert {
            claims: ImageClaims::from_vec(claims),
        })
    }
}
