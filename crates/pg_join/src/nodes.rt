//! The nodes of a joined claim.

use crate::renumbering::renumbered;
use pg_base::Memory;
use pg_cert::{Body, MAX_CLAIM_NODES, Node};
use pg_game::Position;
use pg_image::{ImageNode, ImageNodes};
use pg_maps::GridMap;
use std::alloc::Global;
use std::collections::HashMap;

/// The nodes of a joined claim, each of another position.
#[derive(Debug, Drop)]
pub(crate) struct Nodes {
    nodes: Vec<ImageNode>,
    /// The numbers of the nodes, by their positions.
    numbers: HashMap<Position, u32>,
}

impl Nodes {
    /// Returns no nodes.
    pub(crate) fn new(alloc: Global) -> Nodes {
        Nodes {
            nodes: Vec::new(alloc),
            numbers: HashMap::new(alloc),
        }
    }

    /// Returns the number of the node with the position, if there is one.
    fn find(&self, position: &Position) -> Option<u32> {
        match self.numbers.get(position) {
            Some(number) => Some(*number),
            None => None,
        }
    }

    /// Adds a node of another position, and returns its number; or None if a claim has no room for
    /// it.
    fn push(&mut self, position: Position, node: ImageNode) -> Result<Option<u32>, Memory> {
        if self.nodes.len() >= MAX_CLAIM_NODES as usize {
            return Ok(None);
        }
        let number = self.nodes.len() as u32;
        self.numbers.insert(position, number)?;
        self.nodes.push(node)?;
        Ok(Some(number))
    }

    /// Returns the number of a node with this position, and adds one with this body if there is
    /// none; or None if a claim has no room for it.
    pub(crate) fn put(&mut self, position: &Position, body: Body) -> Result<Option<u32>, Memory> {
        if let Some(number) = self.find(position) {
            return Ok(Some(number));
        }
        let node = Node {
            x: position.x,
            y: position.y,
            turn: position.turn,
            left: position.left,
            body,
        };
        self.push(*position, ImageNode::Plain(node))
    }

    /// Returns the number of a node with this position, and adds the image of another node if there
    /// is none; or None if a claim has no room for it.
    pub(crate) fn put_image(
        &mut self,
        position: &Position,
        map: GridMap,
        child: u32,
    ) -> Result<Option<u32>, Memory> {
        if let Some(number) = self.find(position) {
            return Ok(Some(number));
        }
        let node = ImageNode::Image {
            x: position.x,
            y: position.y,
            turn: position.turn,
            left: position.left,
            map,
            child,
        };
        self.push(*position, node)
    }

    /// Adds the nodes of a claim that have other positions, and returns the number of the last; or
    /// None if a claim has no room for them, or one of them names no earlier one.
    pub(crate) fn append(&mut self, alloc: Global, nodes: &[Node]) -> Result<Option<u32>, Memory> {
        let mut numbers = Vec::with_capacity(alloc, nodes.len())?;
        let mut last = None;
        for node in nodes {
            let Some(body) = renumbered(alloc, &node.body, numbers.as_slice())? else {
                return Ok(None);
            };
            let Some(number) = self.put(&node.position(), body)? else {
                return Ok(None);
            };
            numbers.push(number)?;
            last = Some(number);
        }
        Ok(last)
    }

    /// Returns the nodes.
    pub(crate) fn into_nodes(self) -> ImageNodes {
        ImageNodes::from_vec(self.nodes)
    }
}
