use doc_tree::{DocError, DocumentRule, Tree, read_tree};
use std::alloc::{AllocError, Global};
use std::test::Fail;

const DESCRIPTION: &str =
    r#"<fmiModelDescription fmiVersion="3.0" modelName="counter" instantiationToken="{c}"><CoSimulation modelIdentifier="counter" canGetAndSetFMUState="true" canHandleVariableCommunicationStepSize="true"/><ModelVariables><Int32 name="inc" valueReference="1" causality="parameter" variability="fixed" start="2"/><Int32 name="y" valueReference="2" causality="output" variability="discrete"/></ModelVariables><ModelStructure><Output valueReference="2" dependencies=""/></ModelStructure></fmiModelDescription>"#;

const SYSTEM: &str =
    r#"<SystemStructureDescription version="1.0" name="s"><System name="s"><Elements><Component name="c" source="counter"/></Elements></System></SystemStructureDescription>"#;

/// A document, and of each element its name and its children.
static DOCUMENTS: [(&str, &str); 36] = [
    (
        DESCRIPTION,
        "fmiModelDescription 1 2 5;CoSimulation;ModelVariables 3 4;Int32;Int32;ModelStructure 6;Output;",
    ),
    (
        SYSTEM,
        "SystemStructureDescription 1;System 2;Elements 3;Component;",
    ),
    ("<a/>", "a;"),
    ("\u{feff}<a></a>", "a;"),
    ("\r\n\t <a />\r\n\t ", "a;"),
    (
        "<a><b/><c><d></d><e/></c><f/></a >",
        "a 1 2 5;b;c 3 4;d;e;f;",
    ),
    ("<a><b></b>t<b><b/></b></a>", "a 1 2;b;b 3;b;"),
    ("<?xml version='1.0'?><a/>", "a;"),
    (
        "\u{feff}<?xml  version = \"1.0\"\nencoding\t=\r'uTf-8' standalone='yes' ?><a/>",
        "a;",
    ),
    ("<?xml version='1.0' standalone=\"no\"?>\n<a/>", "a;"),
    ("<?xml version='1.0' encoding='UTF-8'?><a/>", "a;"),
    (
        "<!----><!-- -> - - <a> & \u{1f600} --><a><!-- <b/> --></a><!---->",
        "a;",
    ),
    (
        "<?p?><?p-1 ??><?xmlx?><?xm l?><a><?p <b/> ? > ?></a><?p?>",
        "a;",
    ),
    ("<a>]]></a>", "a;"),
    (
        "<a>]]]]>> > ' \" / \u{7f}\u{d7ff}\u{e000}\u{fffd}\u{10ffff}</a>",
        "a;",
    ),
    ("<a><![CDATA[]]><![CDATA[<b/> & ]] > ]]]]></a>", "a;"),
    ("<a>&lt;&gt;&amp;&apos;&quot;</a>", "a;"),
    (
        "<a>&#9;&#10;&#13;&#32;&#55295;&#57344;&#65533;&#65536;&#1114111;</a>",
        "a;",
    ),
    (
        "<a>&#x9;&#xA;&#xd;&#x20;&#xd7ff;&#xE000;&#xFffD;&#x10000;&#x10FFFF;</a>",
        "a;",
    ),
    (
        "<a>&#00000000000000000000000000000065;&#x00000000000000000000000041;</a>",
        "a;",
    ),
    ("<_/>", "_;"),
    ("<a.-_9Z/>", "a.-_9Z;"),
    ("<é·/>", "é·;"),
    ("<a\u{a0}></a\u{a0}>", "a\u{a0};"),
    ("<p:a><q:b/></p:a>", "a 1;b;"),
    ("<p:q:a/>", "a;"),
    ("<:/>", ";"),
    ("<a b='' c=\"\"/>", "a;"),
    ("<a\nb\t=\r'' c = \"\" ></a\n>", "a;"),
    ("<a b='>' c='\"' d=\"'\" e=']]>'/>", "a;"),
    ("<a b='' bb='' B='' p:b='' q:b=''/>", "a;"),
    ("<a xmlns='' xmlns:p='' p:xmlns=''/>", "a;"),
    ("<a></a><!-- --><?p?> ", "a;"),
    ("<a>\n<b>\n</b>\n</a>\n", "a 1;b;"),
    ("<x:a xmlns:x='u'>&#65;<x:b/>&#66;</x:a>", "a 1;b;"),
    ("<?xml version='1.0'?><?p?><!----><a/>", "a;"),
];

/// A tag, and what stands under `b`.
static VALUES: [(&str, Option<&str>); 17] = [
    ("<a/>", None),
    ("<a b=''/>", Some("")),
    ("<a c='1' b='2' d='3'/>", Some("2")),
    ("<a b=\"'\"/>", Some("'")),
    ("<a b='\"'/>", Some("\"")),
    ("<a b='x\ty\nz\rv\r\nw'/>", Some("x y z v w")),
    ("<a b='\r\r\n\n'/>", Some("   ")),
    ("<a b='&#9;&#10;&#13;&#13;&#10;'/>", Some("\t\n\r\r\n")),
    ("<a b='\r&#10;\n'/>", Some(" \n ")),
    ("<a b='&#13;\n'/>", Some("\r ")),
    ("<a b='&lt;&gt;&amp;&apos;&quot;'/>", Some("<>&'\"")),
    ("<a b='&#65;&#x42;&#x1F600;é'/>", Some("AB\u{1f600}é")),
    ("<a b='&amp;lt;]]>'/>", Some("&lt;]]>")),
    ("<a p:b='1'/>", None),
    ("<a p:b='1' b='2' q:b='3'/>", Some("2")),
    ("<a B='1' bb='2'/>", None),
    ("<p:a xmlns='1' b='  x  '/>", Some("  x  ")),
];

/// Bytes that are no document, their rule and its place.
static FAULTS: [(&[u8], DocumentRule, usize); 134] = [
    // The encoding is tested first, over all bytes.
    (b"\xff", DocumentRule::NotUtf8, 0),
    (b"<a\xff", DocumentRule::NotUtf8, 2),
    (b"\xef\xbb", DocumentRule::NotUtf8, 0),
    (b"<b></a>\xff", DocumentRule::NotUtf8, 7),
    (b"<a>\xc3</a>", DocumentRule::NotUtf8, 3),
    (b"<a>\xc0\x80</a>", DocumentRule::NotUtf8, 3),
    (b"<a>\xed\xa0\x80</a>", DocumentRule::NotUtf8, 3),
    (b"<a>\xf4\x90\x80\x80</a>", DocumentRule::NotUtf8, 3),
    // A document (1), its beginning (22) and what follows the root (27).
    (b"", DocumentRule::Malformed, 0),
    (b" ", DocumentRule::Malformed, 1),
    (b"t", DocumentRule::Malformed, 0),
    (b"&lt;<a/>", DocumentRule::Malformed, 0),
    (b"\xef\xbb\xbf", DocumentRule::Malformed, 3),
    (b"\xef\xbb\xbc<a/>", DocumentRule::Malformed, 2),
    (b"\xef\xbb\xbf\xef\xbb\xbf<a/>", DocumentRule::Malformed, 3),
    (b"<a/>\xef\xbb\xbf", DocumentRule::Malformed, 4),
    (b"<a/>t", DocumentRule::Malformed, 4),
    (b"<a/>&amp;", DocumentRule::Malformed, 4),
    (b"<a/><b/>", DocumentRule::Malformed, 5),
    (b"<a/></a>", DocumentRule::Malformed, 5),
    // Characters (2) and white space (3).
    (b"<a>\x00</a>", DocumentRule::Malformed, 3),
    (b"<a>\x08</a>", DocumentRule::Malformed, 3),
    (b"<a>\x0b</a>", DocumentRule::Malformed, 3),
    (b"<a>\x1f</a>", DocumentRule::Malformed, 3),
    (b"<a>\xef\xbf\xbe</a>", DocumentRule::Malformed, 5),
    (b"<a>\xef\xbf\xbf</a>", DocumentRule::Malformed, 5),
    (b"<a\x0c/>", DocumentRule::Malformed, 2),
    (b"\xc2\xa0<a/>", DocumentRule::Malformed, 0),
    // Names (4, 4a, 5).
    (b"<1/>", DocumentRule::Malformed, 1),
    (b"<-/>", DocumentRule::Malformed, 1),
    (b"<./>", DocumentRule::Malformed, 1),
    (b"<a+/>", DocumentRule::Malformed, 2),
    (b"<a\xef\xbf\xbf/>", DocumentRule::Malformed, 4),
    (b"<\xef\xbf\xbe/>", DocumentRule::Malformed, 3),
    (b"<a 1='1'/>", DocumentRule::Malformed, 3),
    // Tags (39, 40, 42, 44).
    (b"<", DocumentRule::Malformed, 1),
    (b"<>", DocumentRule::Malformed, 1),
    (b"< a/>", DocumentRule::Malformed, 1),
    (b"</a>", DocumentRule::Malformed, 1),
    (b"<a", DocumentRule::Malformed, 2),
    (b"<a ", DocumentRule::Malformed, 3),
    (b"<a/", DocumentRule::Malformed, 3),
    (b"<a/ >", DocumentRule::Malformed, 3),
    (b"<a / >", DocumentRule::Malformed, 4),
    (b"<a<b/></a>", DocumentRule::Malformed, 2),
    (b"<a>", DocumentRule::Malformed, 3),
    (b"<a><b></b>", DocumentRule::Malformed, 10),
    (b"<a></", DocumentRule::Malformed, 5),
    (b"<a></b>", DocumentRule::Malformed, 5),
    (b"<a></ a>", DocumentRule::Malformed, 5),
    (b"<a></ab>", DocumentRule::Malformed, 6),
    (b"<ab></a>", DocumentRule::Malformed, 7),
    (b"<a></a", DocumentRule::Malformed, 6),
    (b"<a></a x>", DocumentRule::Malformed, 7),
    (b"<a></a/>", DocumentRule::Malformed, 6),
    (b"<x:a></a>", DocumentRule::Malformed, 7),
    (b"<x:a></y:a>", DocumentRule::Malformed, 7),
    (b"<a><b></a></b>", DocumentRule::Malformed, 8),
    (b"<\xc3\xa9></\xc3\xaa>", DocumentRule::Malformed, 7),
    // Attributes (41) and their values (10).
    (b"<a b/>", DocumentRule::Malformed, 4),
    (b"<a b c='1'/>", DocumentRule::Malformed, 5),
    (b"<a ='1'/>", DocumentRule::Malformed, 3),
    (b"<a 'b'/>", DocumentRule::Malformed, 3),
    (b"<a b=1/>", DocumentRule::Malformed, 5),
    (b"<a b=='1'/>", DocumentRule::Malformed, 5),
    (b"<a b='1'c='1'/>", DocumentRule::Malformed, 8),
    (b"<a b='<'/>", DocumentRule::Malformed, 6),
    (b"<a b=\"<\"/>", DocumentRule::Malformed, 6),
    (b"<a b='\x01'/>", DocumentRule::Malformed, 6),
    (b"<a b='x\"/>", DocumentRule::Malformed, 10),
    (b"<a b='&'/>", DocumentRule::Malformed, 7),
    (b"<a b='&x;'/>", DocumentRule::Malformed, 7),
    (b"<a b='&#0;'/>", DocumentRule::Malformed, 9),
    // One full name twice.
    (b"<a b=\"1\" b=\"2\"/>", DocumentRule::AttributeTwice, 9),
    (b"<a b='' c='' b =''/>", DocumentRule::AttributeTwice, 13),
    (b"<a b='' b\n", DocumentRule::AttributeTwice, 8),
    (b"<a b='' b=", DocumentRule::AttributeTwice, 8),
    (b"<a b='' b", DocumentRule::Malformed, 9),
    (b"<a b='' b/>", DocumentRule::Malformed, 9),
    (b"<a p:b='' p:b=''/>", DocumentRule::AttributeTwice, 10),
    (b"<a xmlns='' xmlns=''/>", DocumentRule::AttributeTwice, 12),
    // After the eighth attribute, of a name before it and after it.
    (
        b"<a b='' c='' d='' e='' f='' g='' h='' i='' j='' i=''/>",
        DocumentRule::AttributeTwice,
        48,
    ),
    (
        b"<a b='' c='' d='' e='' f='' g='' h='' i='' j='' j=''/>",
        DocumentRule::AttributeTwice,
        48,
    ),
    (
        b"<a><b \xc3\xa9='' \xc3\xa9=''/></a>",
        DocumentRule::AttributeTwice,
        12,
    ),
    // Comments (15).
    (b"<!-x", DocumentRule::Malformed, 3),
    (b"<!x", DocumentRule::Malformed, 2),
    (b"<!--a--b--><a/>", DocumentRule::Malformed, 7),
    (b"<!----->", DocumentRule::Malformed, 6),
    (b"<!---><a/>", DocumentRule::Malformed, 10),
    (b"<!-- --", DocumentRule::Malformed, 7),
    (b"<!--\x01--><a/>", DocumentRule::Malformed, 4),
    // Processing instructions (16, 17).
    (b"<?p", DocumentRule::Malformed, 3),
    (b"<? p?><a/>", DocumentRule::Malformed, 2),
    (b"<?1?><a/>", DocumentRule::Malformed, 2),
    (b"<?p/?><a/>", DocumentRule::Malformed, 3),
    (b"<?p?x?><a/>", DocumentRule::Malformed, 4),
    (b"<a><?xml?></a>", DocumentRule::Malformed, 8),
    (b"<a><?XmL x?></a>", DocumentRule::Malformed, 8),
    (b"<?XML version='1.0'?><a/>", DocumentRule::Malformed, 5),
    (b"<?p \x00?><a/>", DocumentRule::Malformed, 4),
    // Sections (18 to 21).
    (b"<![CDATA[x]]><a/>", DocumentRule::Malformed, 2),
    (b"<a/><![CDATA[x]]>", DocumentRule::Malformed, 6),
    (b"<a><![cdata[x]]></a>", DocumentRule::Malformed, 6),
    (b"<a><![CDATA x", DocumentRule::Malformed, 11),
    (b"<a><![CDATA[x", DocumentRule::Malformed, 13),
    (b"<a><![CDATA[\x00]]></a>", DocumentRule::Malformed, 12),
    // The declaration (23 to 26, 32, 80, 81).
    (b" <?xml version='1.0'?><a/>", DocumentRule::Malformed, 6),
    (b"<?xml?><a/>", DocumentRule::Malformed, 5),
    (b"<?xml ?><a/>", DocumentRule::Malformed, 6),
    (b"<?xml encoding='utf-8'?><a/>", DocumentRule::Malformed, 6),
    (b"<?xml version='1.1'?><a/>", DocumentRule::Malformed, 17),
    (b"<?xml version='1.0\"?><a/>", DocumentRule::Malformed, 18),
    (b"<?xml version='1.0'><a/>", DocumentRule::Malformed, 19),
    (b"<?xml version='1.0'? ><a/>", DocumentRule::Malformed, 20),
    (
        b"<?xml version='1.0'encoding='utf-8'?><a/>",
        DocumentRule::Malformed,
        19,
    ),
    (
        b"<?xml version='1.0' version='1.0'?><a/>",
        DocumentRule::Malformed,
        20,
    ),
    (
        b"<?xml version='1.0' encoding='utf8'?><a/>",
        DocumentRule::Malformed,
        33,
    ),
    (
        b"<?xml version='1.0' encoding='utf-16'?><a/>",
        DocumentRule::Malformed,
        34,
    ),
    (
        b"<?xml version='1.0' standalone='yep'?><a/>",
        DocumentRule::Malformed,
        34,
    ),
    (
        b"<?xml version='1.0' standalone='NO'?><a/>",
        DocumentRule::Malformed,
        32,
    ),
    (
        b"<?xml version='1.0' standalone='no' encoding='utf-8'?><a/>",
        DocumentRule::Malformed,
        36,
    ),
    // A document type (28).
    (b"<!DOCTYPE x><a/>", DocumentRule::Doctype, 0),
    (b"<a><!DOCTYPE", DocumentRule::Doctype, 3),
    (b"<a/> <!DOCTYPE a>", DocumentRule::Doctype, 5),
    (b"<!DOCTYP", DocumentRule::Malformed, 2),
    // References (66 to 68).
    (b"<a>&x;</a>", DocumentRule::Malformed, 4),
    (b"<a>&am;</a>", DocumentRule::Malformed, 6),
    (b"<a>&#;</a>", DocumentRule::Malformed, 5),
    (b"<a>&#0;</a>", DocumentRule::Malformed, 6),
    (b"<a>&#31;</a>", DocumentRule::Malformed, 7),
    (b"<a>&#X41;</a>", DocumentRule::Malformed, 5),
    (b"<a>&#xd800;</a>", DocumentRule::Malformed, 10),
    (b"<a>&#xFFFE;</a>", DocumentRule::Malformed, 10),
    (b"<a>&#x110000;</a>", DocumentRule::Malformed, 11),
];

/// Of each element its name and its children.
fn show(alloc: Global, tree: &Tree) -> Result<String, AllocError> {
    let mut text = String::new(alloc);
    for node in 0..tree.len() {
        text.push_str(tree.name(node))?;
        for child in tree.children(node) {
            text.push_str(format!(in alloc; " {child}")?.as_str())?;
        }
        text.push_str(";")?;
    }
    Ok(text)
}

/// A text so many times.
fn repeat(alloc: Global, text: &str, times: usize) -> Result<String, AllocError> {
    let mut all = String::new(alloc);
    for _ in 0..times {
        all.push_str(text)?;
    }
    Ok(all)
}

// Whether each child of an element names it as its parent.
fn are_children(tree: &Tree, node: usize) -> bool {
    if node >= tree.len() {
        return false;
    }
    tree.children(node).iter().all(|child| *child < tree.len() && tree.parent(*child) == Some(node))
}

fn is_shown_as(alloc: Global, tree: &Tree, expected: &str) -> bool {
    match show(alloc, tree) {
        Ok(text) => text.as_str() == expected,
        Err(_) => false,
    }
}

fn is_tree_as(alloc: Global, tree: &Tree, expected: &str) -> bool {
    0 < tree.len()
        && tree.parent(0).is_none()
        && (0..tree.len()).all(|node| are_children(tree, node))
        && is_shown_as(alloc, tree, expected)
}

fn is_read_as(alloc: Global, row: &(&str, &str)) -> bool {
    match read_tree(alloc, row.0.as_bytes()) {
        Ok(tree) => is_tree_as(alloc, &tree, row.1),
        Err(_) => false,
    }
}

#[test]
fn documents_are_read(rt: HostRuntime) {
    let alloc = rt.alloc();
    assert_eq!(rt;
        DOCUMENTS.iter().position(|row| !is_read_as(alloc, row)),
        None
    );
}

fn has_values(tree: &Tree, expected: Option<&str>) -> bool {
    0 < tree.len()
        && tree.attribute(0, "b") == expected
        && tree.attribute(0, "p:b").is_none()
        && tree.attribute(0, "xmlns").is_none()
}

fn has_value(alloc: Global, row: &(&str, Option<&str>)) -> bool {
    match read_tree(alloc, row.0.as_bytes()) {
        Ok(tree) => has_values(&tree, row.1),
        Err(_) => false,
    }
}

#[test]
fn values_are_read(rt: HostRuntime) {
    let alloc = rt.alloc();
    assert_eq!(rt; VALUES.iter().position(|row| !has_value(alloc, row)), None);
}

fn is_fault(alloc: Global, bytes: &[u8], rule: DocumentRule, byte: usize) -> bool {
    match read_tree(alloc, bytes) {
        Ok(_) => false,
        Err(error) => error == DocError::At { rule, byte },
    }
}

#[test]
fn faults_are_told(rt: HostRuntime) {
    let alloc = rt.alloc();
    let wrong = FAULTS
        .iter()
        .position(|row| !is_fault(alloc, row.0, row.1, row.2));
    assert_eq!(rt; wrong, None);
}

// Whether each prefix of a document is told as cut at its end.
fn is_cut_at_each_end(alloc: Global, document: &[u8]) -> bool {
    (0..document.len()).all(|at| is_fault(alloc, &document[..at], DocumentRule::Malformed, at))
}

#[test]
fn each_prefix_is_cut_at_its_end(rt: HostRuntime) {
    assert!(rt; is_cut_at_each_end(rt.alloc(), DESCRIPTION.as_bytes()));
    assert!(rt; is_cut_at_each_end(rt.alloc(), SYSTEM.as_bytes()));
}

fn has_elements(alloc: Global, text: &str, count: usize) -> bool {
    match read_tree(alloc, text.as_bytes()) {
        Ok(tree) => tree.len() == count,
        Err(_) => false,
    }
}

// What follows 64 tags, and the rule and the place that are told.
static DEPTHS: [(&str, DocumentRule, usize); 6] = [
    ("<a>", DocumentRule::TooDeep, 192),
    ("<b/>", DocumentRule::TooDeep, 192),
    ("<é", DocumentRule::TooDeep, 192),
    ("<1", DocumentRule::Malformed, 193),
    ("<", DocumentRule::Malformed, 193),
    ("", DocumentRule::Malformed, 192),
];

fn is_fault_after(alloc: Global, prefix: &str, row: &(&str, DocumentRule, usize)) -> bool {
    match format!(in alloc; "{prefix}{}", row.0) {
        Ok(text) => is_fault(alloc, text.as_bytes(), row.1, row.2),
        Err(_) => false,
    }
}

#[test]
fn elements_stand_64_deep(rt: HostRuntime) -> Result<(), Fail> {
    let alloc = rt.alloc();
    let prefix = repeat(alloc, "<a>", 64)?;
    let back = repeat(alloc, "</a>", 64)?;
    let whole = format!(in alloc; "{prefix}<!----><?p?>{back}")?;
    let prefix = prefix.as_str();
    assert!(rt; has_elements(alloc, whole.as_str(), 64));
    assert_eq!(rt;
        DEPTHS
            .iter()
            .position(|row| !is_fault_after(alloc, prefix, row)),
        None
    );
    Ok(())
}

fn many_rows(alloc: Global) -> Result<String, AllocError> {
    let row = "<Int32 name=\"inc\" valueReference=\"1\" start=\"2\"/>\n";
    let rows = repeat(alloc, row, 350_000)?;
    format!(in alloc; "<a>{rows}</a>")
}

fn many_nests(alloc: Global) -> Result<String, AllocError> {
    let prefix = repeat(alloc, "<a>", 63)?;
    let back = repeat(alloc, "</a>", 63)?;
    let nest = format!(in alloc; "{prefix}{back}")?;
    let nests = repeat(alloc, nest.as_str(), 39_000)?;
    format!(in alloc; "<a>{nests}</a>")
}

// A tag with a million attributes, without its end.
fn many_attributes(alloc: Global) -> Result<String, AllocError> {
    let mut text = String::new(alloc);
    text.push_str("<a")?;
    for at in 0..1_000_000u32 {
        text.push_str(format!(in alloc; " a{at}=''")?.as_str())?;
    }
    Ok(text)
}

fn is_large(text: &str) -> bool {
    16_777_216 <= text.len()
}

#[test]
fn large_documents_are_read(rt: HostRuntime) -> Result<(), Fail> {
    let alloc = rt.alloc();
    let rows = many_rows(alloc)?;
    assert!(rt; is_large(&rows) && has_elements(alloc, &rows, 350_001));
    let nests = many_nests(alloc)?;
    assert!(rt; is_large(&nests) && has_elements(alloc, &nests, 39_000 * 63 + 1));
    let text = many_attributes(alloc)?;
    let whole = format!(in alloc; "{text}/>")?;
    assert!(rt; has_elements(alloc, &whole, 1));
    let double = format!(in alloc; "{text} a7=''/>")?;
    let byte = text.len().saturating_add(1);
    assert!(rt; is_fault(alloc, double.as_bytes(), DocumentRule::AttributeTwice, byte));
    Ok(())
}
