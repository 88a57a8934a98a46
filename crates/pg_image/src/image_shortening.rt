//! A line of pairs that is in hand, cut short while it comes.
ghost use Rattle.std.specs.Prelude.{List, ℕ, IfOk};
ghost use Rattle.pg_image.specs.Gathering.{HasRead, HasReadShort};

use crate::image_lines::ImageLines;
use pg_base::Memory;
use pg_cert_files::{Due, spare};
use std::alloc::Global;

impl ImageLines {
    /// Leaves out of the line in hand what no certificate needs.
    pub(crate) fn shorten(&mut self, alloc: Global) -> Result<(), Memory>
        ensures { IfOk result
            (λ _. (text : List ℕ) → HasRead self.old text → HasReadShort self.new text) }
    {
        if self.fault.is_some() {
            return Ok(());
        }
        let Due::Node(_) = self.draft.progress.due else {
            return Ok(());
        };
        let Some(ends) = spare(&self.pending) else {
            return Ok(());
        };
        let mut short = Vec::new(alloc);
        short.extend_from_slice(ends.kept)?;
        short.extend_from_slice(ends.rest)?;
        self.pending = short;
        Ok(())
    }
}
