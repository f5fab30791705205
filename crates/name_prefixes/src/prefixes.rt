ghost use Rattle.std.specs.Prelude.{◌≡◌, ◌<◌, ◌↔◌, IfOk, IsTrue, Some, length, not, slice_get};
ghost use Rattle.std.specs.Cmp.Lexicographic.{slice_cmp};
ghost use Rattle.std.specs.Ordering.{is_lt, nat_cmp};
ghost use Rattle.name_prefixes.specs.Prefixes.{AreLinks, ArePrefixes, ArePrefixesAmong, BeginsAt, Entry, FindsLastBelow, HasOnce, IsPrefix, IsRising, IsSortedOf, IsUpTo, texts};

use std::alloc::{AllocError, Global};
use std::cmp::Ordering;
use std::marker::Model;

/// Paths, made ready for the question which of them begin a name. A clause sees the list of the paths.
#[derive(Drop)]
pub struct Prefixes<'a> {
    paths: Vec<&'a [u8]>,
    /// each path with its place, in the order of their bytes
    sorted: Vec<(&'a [u8], usize)>,
    /// of each of these the last one before it that begins it
    shorter: Vec<Option<usize>>,
}

impl<'a> Model for Prefixes<'a> {
    ghost use Rattle.std.specs.Prelude.{List, ℕ};
    ghost use Rattle.name_prefixes.specs.Prefixes.{AreRows, texts};

    ghost Value = { List (List ℕ) };

    ghost view = { λ f. texts f.paths.items };

    ghost invariant = { λ f. AreRows (texts f.paths.items) f.sorted.items f.shorter.items };
}

impl<'a> Prefixes<'a> {
    /// Paths made ready, in n log n.
    pub fn new(alloc: Global, paths: Vec<&'a [u8]>) -> Result<Prefixes<'a>, AllocError>
        ensures { IfOk result (λ prefixes. prefixes ≡ texts paths.entry.items) }
    {
        let sorted = sorted_entries(alloc, paths.as_slice())?;
        let shorter = link_prefixes(alloc, sorted.as_slice())?;
        Ok(Prefixes {
            paths,
            sorted,
            shorter,
        })
    }

    /// The places of all paths that begin the name, each once.
    pub fn prefixes(&self, alloc: Global, name: &[u8]) -> Result<Vec<usize>, AllocError>
        ensures { IfOk result (λ places. ArePrefixes self.now name.now places.items) }
    {
        prefixes_of(alloc, &self.sorted, &self.shorter, name)
    }
}

// The places of all paths that begin the name.
fn prefixes_of(
    alloc: Global,
    sorted: &[(&[u8], usize)],
    shorter: &[Option<usize>],
    name: &[u8],
) -> Result<Vec<usize>, AllocError>
    requires rising { IsRising sorted.now }
    requires once { HasOnce sorted.now }
    requires len { length shorter.now ≡ length sorted.now }
    requires links { AreLinks sorted.now shorter.now }
    ensures { IfOk result (λ places. ArePrefixesAmong sorted.now name.now places.items) }
{
    let mut places = Vec::new(alloc);
    let mut next = last_up_to(sorted, name);
    while let Some(at) = next {
        let (path, place) = sorted[at];
        if begins(path, name) {
            places.push(place)?;
        }
        next = shorter[at];
    }
    Ok(places)
}

// Each path with its place, in the order of their bytes.
fn sorted_entries<'a>(
    alloc: Global,
    paths: &[&'a [u8]],
) -> Result<Vec<(&'a [u8], usize)>, AllocError>
    ensures { IfOk result (λ sorted. IsSortedOf (texts paths.now) sorted.items) }
{
    let mut entries = Vec::with_capacity(alloc, paths.len())?;
    for (place, path) in paths.iter().enumerate() {
        entries.push((*path, place))?;
    }
    entries.sort()?;
    Ok(entries)
}

// Of each of these the last one before it that begins it.
fn link_prefixes(alloc: Global, sorted: &[(&[u8], usize)]) -> Result<Vec<Option<usize>>, AllocError>
    requires { IsRising sorted.now }
    ensures len { IfOk result (λ shorter. length shorter.items ≡ length sorted.now) }
    ensures links { IfOk result (λ shorter. AreLinks sorted.now shorter.items) }
{
    let mut shorter = Vec::with_capacity(alloc, sorted.len())?;
    for _ in 0..sorted.len() {
        let last = last_prefix(sorted, &shorter);
        shorter.push(last)?;
    }
    Ok(shorter)
}

// The last one before the next that begins it.
fn last_prefix(sorted: &[(&[u8], usize)], shorter: &[Option<usize>]) -> Option<usize>
    requires next { length shorter.now < length sorted.now }
    requires rising { IsRising sorted.now }
    requires links { AreLinks sorted.now shorter.now }
    ensures { (e : Entry) → slice_get sorted.now (length shorter.now) ≡ Some e →
        FindsLastBelow (BeginsAt sorted.now e.0.now) (length shorter.now) result }
{
    let (text, _) = sorted[shorter.len()];
    let mut next = shorter.len().checked_sub(1);
    while let Some(at) = next {
        let (path, _) = sorted[at];
        if begins(path, text) {
            return Some(at);
        }
        next = shorter[at];
    }
    None
}

// The last one that isn't above the name.
fn last_up_to(sorted: &[(&[u8], usize)], name: &[u8]) -> Option<usize>
    requires { IsRising sorted.now }
    ensures { FindsLastBelow (IsUpTo sorted.now name.now) (length sorted.now) result }
{
    let end = sorted.partition_point(|entry| is_up_to(entry.0, name));
    end.checked_sub(1)
}

// Whether a path isn't above a name.
fn is_up_to(path: &[u8], name: &[u8]) -> bool
    ensures { result ≡ not (is_lt (slice_cmp nat_cmp name.now path.now)) }
{
    match name.cmp(path) {
        Ordering::Less => false,
        Ordering::Equal | Ordering::Greater => true,
    }
}

// Whether a path begins a text.
fn begins(path: &[u8], text: &[u8]) -> bool
    ensures { IsTrue result ↔ IsPrefix path.now text.now }
{
    text.starts_with(path)
}
