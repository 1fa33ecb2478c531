//! The field paths of a mask.
use crate::field::FieldPath;
use crate::list::{Copied, List};
use std::alloc::{AllocError, Global};

/// Field paths in order, as those of an update's mask (v1 reference, "DocumentMask").
pub type Paths = List<FieldPath>;

impl Copied for FieldPath {
    fn copy(&self, alloc: Global) -> Result<FieldPath, AllocError> {
        self.copy(alloc)
    }
}
