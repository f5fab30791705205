ghost use Rattle.std.specs.Prelude.{◌≡◌, ◌==◌, ◌∷◌, ◌++◌, if◌then◌else◌, IfOk, OnOk, map, string_bytes};
ghost use Rattle.sim_base.specs.Path.{joined_path, kept_segments, plain_path, segments, without_last_empty};

use std::alloc::{AllocError, Global};

/// A path below a base: the base, `/`, and the path without the segments that lead nowhere. One last empty segment
/// is dropped, then every segment `.`.
pub fn join_path(alloc: Global, base: &str, path: &str) -> Result<String, AllocError>
    ensures { IfOk result (λ p. string_bytes p ≡ joined_path base.now path.now) }
{
    let plain = plain_path(alloc, path)?;
    let mut joined = String::from_str(alloc, base)?;
    joined.push_str("/")?;
    joined.push_str(plain.as_str())?;
    Ok(joined)
}

/// A path without the segments that lead nowhere: two paths lead to one place where these are equal.
pub fn plain_path(alloc: Global, path: &str) -> Result<String, AllocError>
    ensures { IfOk result (λ p. string_bytes p ≡ plain_path path.now) }
{
    let segments = kept_segments(alloc, path)?;
    let mut joined = String::new(alloc);
    for (place, segment) in segments.iter().enumerate() {
        push_segment(&mut joined, place, segment)?;
    }
    Ok(joined)
}

fn push_segment(joined: &mut String, place: usize, segment: &str) -> Result<(), AllocError>
    ensures { OnOk result (string_bytes joined.new
        ≡ string_bytes joined.old ++ (if place == 0 then segment.now else 47 ∷ segment.now)) }
{
    if place > 0 {
        joined.push_str("/")?;
    }
    joined.push_str(segment)
}

/// The segments of a path that say where it leads: all but one last empty one and those that are `.`.
pub fn kept_segments<'a>(alloc: Global, path: &'a str) -> Result<Vec<&'a str>, AllocError>
    ensures { IfOk result (λ kept. map (λ s. s.now) kept.items ≡ kept_segments path.now) }
{
    let all = segments(alloc, path)?;
    let mut kept = Vec::new(alloc);
    for segment in without_last_empty(&all) {
        if *segment != "." {
            kept.push(*segment)?;
        }
    }
    Ok(kept)
}

fn segments<'a>(alloc: Global, path: &'a str) -> Result<Vec<&'a str>, AllocError>
    ensures { IfOk result (λ all. map (λ s. s.now) all.items ≡ segments path.now) }
{
    path.split('/').collect(alloc)
}

fn without_last_empty<'a, 'b>(all: &'b [&'a str]) -> &'b [&'a str]
    ensures { map (λ s. s.now) result.now ≡ without_last_empty (map (λ s. s.now) all.now) }
{
    let count = all.len();
    if count > 0 && all[count - 1].is_empty() {
        &all[..count - 1]
    } else {
        all
    }
}
