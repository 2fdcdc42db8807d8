//! The repair of a content.

ghost use Rattle.std.specs.Prelude.{IfOk, IfSome, IfNone};
ghost use Rattle.rs_repair.specs.Repair.{Repairs, IsBeyondRepair};

use crate::block::repair_block;
use rs_parity::{BLOCK, Sketch, block};
use std::alloc::{AllocError, Global};

/// The one content that repairs a content by a sketch, or None exactly where there is none.
///
/// It has the sketch's length, differs from the content in at most 16 symbols of each block, and each of its blocks has its
/// parity in the sketch. A content of another length than the sketch's is None. The sketch may be foreign; its print is not read.
pub fn repair(alloc: Global, content: &[u8], sketch: &Sketch) -> Result<Option<Vec<u8>>, AllocError>
    ensures some { IfOk result (λ o. IfSome o (λ v. Repairs content.now sketch.now v.items)) }
    ensures none { IfOk result (λ o. IfNone o (IsBeyondRepair content.now sketch.now)) }
{
    let blocks = content.len().div_ceil(BLOCK);
    let parities = sketch.parities.as_slice();
    if content.len() != sketch.len as usize || parities.len() != blocks {
        return Ok(None);
    }
    let mut bytes = Vec::new(alloc);
    for i in 0..blocks {
        let Some(part) = repair_block(alloc, block(content, i), &parities[i])? else {
            return Ok(None);
        };
        bytes.extend_from_slice(&part)?;
    }
    Ok(Some(bytes))
}
