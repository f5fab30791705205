//! Characters, paths to elements, and elements by their names.
ghost use Rattle.std.specs.Prelude.{IfOk, IsTrue, List, Option, option_copied, string_bytes, ℕ, ◌↔◌, ◌≡◌};
ghost use Rattle.doc_grammar.specs.Characters.{class};
ghost use Rattle.doc_tables.specs.Places.{found_in, found_name};
ghost use Rattle.doc_tables.specs.Tables.{IsRepeated, IsTable};
ghost use Rattle.doc_tree.specs.Path.{path_to};

use doc_grammar::{Class, class_of};
use doc_tables::{NamePlaces, ScopedPlaces};
use doc_tree::Tree;
use std::alloc::{AllocError, Global};

/// The class of a character.
pub fn class_in(c: char) -> Class
    ensures { result ≡ class c }
{
    class_of(c)
}

/// The path to an element.
pub fn path_of(tree: &Tree, alloc: Global, node: usize) -> Result<String, AllocError>
    ensures { IfOk result (λ path. string_bytes path ≡ path_to tree.now node) }
{
    tree.path(alloc, node)
}

/// Whether an element before this one has its name.
pub fn repeats(places: &NamePlaces<'_>, name: Option<&str>, node: usize) -> bool
    ensures { (key : ℕ → Option (List ℕ)) → IsTable key (found_name places.now) →
        option_copied name.entry ≡ key node → (IsTrue result ↔ IsRepeated key node) }
{
    places.is_repeated(name, node)
}

/// The first element with the name in the scope.
pub fn find_in<'a>(places: &ScopedPlaces<'a>, scope: usize, name: &'a str) -> Option<usize>
    ensures { result ≡ found_in places.now (scope, name.now) }
{
    places.find(scope, name)
}
