//! What stands for the content that a replay left.

ghost use Rattle.std.specs.Prelude.{◌≡◌, IfOk, IfSome, IfNone};
ghost use Rattle.std.specs.Str.{bytes_eq};
ghost use Rattle.sha2.specs.Sha256.{sha256};
ghost use Rattle.byte_fields.specs.Codec.{IsBytes};
ghost use Rattle.replay_judge.specs.Agreement.{Mends, is_sketched, StandsFor};
ghost use Rattle.replay_judge.specs.Inside.{IsBeyondMending, HasNoStandIn, PutsStandIn};

use rs_parity::{Sketch, print};
use rs_repair::repair;
use std::alloc::{AllocError, Global};
use vol_tree::{Content, Effect, Path};

fn has_print(sketch: &Sketch, content: &[u8]) -> bool
    ensures test { result ≡ bytes_eq (sha256 content.now) sketch.now.print }
    ensures bytes { IsBytes content.now }
{
    let made = print(content);
    made.as_slice() == sketch.print.as_slice()
}

fn is_sketched(sketch: &Sketch, content: &[u8]) -> bool
    ensures { result ≡ is_sketched sketch.now content.now }
{
    content.len() == sketch.len as usize && has_print(sketch, content)
}

/// The repair that has the sketch's print.
fn mended(alloc: Global, sketch: &Sketch, content: &[u8]) -> Result<Option<Content>, AllocError>
    ensures some { IfOk result (λ o. IfSome o (Mends sketch.now content.now)) }
    ensures none { IfOk result (λ o. IfNone o (IsBeyondMending sketch.now content.now)) }
{
    let repaired = repair(alloc, content, sketch)?;
    match repaired {
        None => Ok(None),
        Some(found) => {
            if !has_print(sketch, &found) {
                return Ok(None);
            }
            Ok(Some(Content::from_vec(found)?))
        }
    }
}

/// What stands for the replay's content, if anything does.
fn stand_in(
    alloc: Global,
    sketch: &Sketch,
    content: &Content,
) -> Result<Option<Content>, AllocError>
    ensures some { IfOk result (λ o. IfSome o (StandsFor (is_sketched sketch.now content.now) sketch.now content.now)) }
    ensures none { IfOk result (λ o. IfNone o (HasNoStandIn (is_sketched sketch.now content.now) sketch.now content.now)) }
{
    if is_sketched(sketch, content.bytes()) {
        Ok(Some(content.copy()?))
    } else {
        mended(alloc, sketch, content.bytes())
    }
}

/// A `Put` of what stands for the replay's content, if anything does.
pub(crate) fn agreed_put(
    alloc: Global,
    path: &Path,
    sketch: &Sketch,
    content: &Content,
) -> Result<Option<Effect>, AllocError>
    ensures some { IfOk result (λ o. IfSome o (PutsStandIn path.now sketch.now content.now)) }
    ensures none { IfOk result (λ o. IfNone o (HasNoStandIn (is_sketched sketch.now content.now) sketch.now content.now)) }
{
    match stand_in(alloc, sketch, content)? {
        Some(found) => Ok(Some(Effect::Put(path.copy()?, found))),
        None => Ok(None),
    }
}
