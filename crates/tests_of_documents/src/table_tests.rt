use doc_tables::{
    NamePlaces, ScopedPlaces, attribute, children, is_in_root, is_named, lacks, lacks_text, name,
    parent, refusal, text_of, unless_empty,
};
use doc_tree::{DescriptionRule, Refusal, Rule, Tree, read_tree};
use std::alloc::{AllocError, Global};
use std::test::Fail;

/// Elements 0 to 5; of those with a name that isn't empty, 1 and 4 have the same one.
const DOCUMENT: &str = r#"<a><b n="x"/><b n=""/><c><b n="x"/><b n="y"/></c></a>"#;

/// An element, the first with its name, and the first with it that stands in 3.
static PLACES: [(usize, Option<usize>, Option<usize>); 3] = [
    (1, Some(1), Some(4)),
    (4, Some(1), Some(4)),
    (5, Some(5), Some(5)),
];

fn names_of<'a>(alloc: Global, tree: &'a Tree) -> Result<NamePlaces<'a>, AllocError> {
    let mut names = NamePlaces::new(alloc);
    for node in 0..tree.len() {
        names.put(unless_empty(attribute(tree, node, "n")), node)?;
    }
    Ok(names)
}

fn scopes_of<'a>(alloc: Global, tree: &'a Tree) -> Result<ScopedPlaces<'a>, AllocError> {
    let mut scopes = ScopedPlaces::new(alloc);
    for node in 0..tree.len() {
        let own = unless_empty(attribute(tree, node, "n"));
        scopes.put(parent(tree, node).zip(own), node)?;
    }
    Ok(scopes)
}

fn are_names(tree: &Tree, names: &NamePlaces) -> bool {
    let same = text_of(tree, 4, "n");
    PLACES
        .iter()
        .all(|row| names.find(text_of(tree, row.0, "n")) == row.1)
        && names.find("").is_none()
        && names.is_repeated(Some(same), 4)
        && !names.is_repeated(Some(same), 1)
}

fn are_scopes<'a>(tree: &'a Tree, scopes: &ScopedPlaces<'a>) -> bool {
    for row in &PLACES {
        let wanted = text_of(tree, row.0, "n");
        let inner = scopes.find(3, wanted);
        if inner != row.2 {
            return false;
        }
    }
    let same = text_of(tree, 4, "n");
    let key = Some((3, same));
    scopes.is_repeated(key, 5) && !scopes.is_repeated(key, 4)
}

fn is_refused_at_4(refused: &Refusal) -> bool {
    matches!(
        refused,
        Refusal::At {
            file: 0,
            node: 4,
            ..
        }
    )
}

fn tells_what_it_has(tree: &Tree) -> bool {
    name(tree, 3) == "c"
        && name(tree, 6) == ""
        && is_named(tree, 2, "b")
        && is_in_root(tree, 2)
        && !is_in_root(tree, 4)
        && lacks(tree, 3, "n")
        && !lacks(tree, 2, "n")
        && lacks_text(tree, 2, "n")
        && text_of(tree, 5, "n") == "y"
        && children(tree, 3) == [4, 5].as_slice()
        && children(tree, 5).is_empty()
        && children(tree, 6).is_empty()
}

#[test]
fn elements_tell_what_they_are_and_are_found_by_their_names(rt: HostRuntime) -> Result<(), Fail> {
    let alloc = rt.alloc();
    let tree = read_tree(alloc, DOCUMENT.as_bytes())?;
    let names = names_of(alloc, &tree)?;
    let scopes = scopes_of(alloc, &tree)?;
    assert!(rt; are_names(&tree, &names) && are_scopes(&tree, &scopes));
    assert!(rt; tells_what_it_has(&tree));
    let refused = refusal(alloc, 4, Rule::Description(DescriptionRule::NameTwice));
    assert!(rt; is_refused_at_4(&refused));
    Ok(())
}
