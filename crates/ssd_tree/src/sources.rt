//! What a `source` names.
ghost use Rattle.std.specs.Prelude.{◌≡◌, ◌↔◌, ◌==◌, ◌&&◌, not, length, IsTrue, IfOk};
ghost use Rattle.std.specs.List.{list_any};
ghost use Rattle.ssd_tree.specs.Sources.{is_astray, is_left_out, is_path};
ghost use Rattle.ssd_tree.specs.Rules.{HasNoPath};

use doc_tables::attribute;
use doc_tree::Tree;
use sim_base::kept_segments;
use std::alloc::{AllocError, Global};

fn is_left_out(byte: u8) -> bool
    ensures { result ≡ is_left_out byte }
{
    byte == b':' || byte == b'%' || byte == b'\\' || byte == b'?' || byte == b'#'
}

fn is_astray(segment: &str) -> bool
    ensures { result ≡ is_astray segment.now }
{
    segment.is_empty() || segment == ".."
}

fn has_left_out(source: &str) -> bool
    ensures { result ≡ list_any is_left_out source.now }
{
    source.as_bytes().iter().any(|byte| is_left_out(*byte))
}

fn has_astray(segments: &[&str]) -> bool
    ensures { result ≡ list_any (λ s. is_astray s.now) segments.now }
{
    segments.iter().any(|segment| is_astray(segment))
}

fn leads_down(segments: &[&str]) -> bool
    ensures { result ≡ (not (length segments.now == 0) && not
        (list_any (λ s. is_astray s.now) segments.now)) }
{
    !segments.is_empty() && !has_astray(segments)
}

/// Whether a text is a path that leads down.
fn is_path(alloc: Global, source: &str) -> Result<bool, AllocError>
    ensures { IfOk result (λ b. b ≡ is_path source.now) }
{
    if has_left_out(source) {
        return Ok(false);
    }
    let segments = kept_segments(alloc, source)?;
    Ok(leads_down(segments.as_slice()))
}

/// Whether the `source` of an element is no path.
pub(crate) fn has_no_path(alloc: Global, tree: &Tree, node: usize) -> Result<bool, AllocError>
    ensures { IfOk result (λ b. IsTrue b ↔ HasNoPath tree.now node) }
{
    match attribute(tree, node, "source") {
        Some(source) => Ok(!is_path(alloc, source)?),
        None => Ok(false),
    }
}
