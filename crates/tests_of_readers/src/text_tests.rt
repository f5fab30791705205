//! Texts of attributes in a model description: what each says, and the rule by which others are refused.
use crate::shape_tests::{BACK, PREFIX, shape_text};
use doc_tree::{Refusal, Tree, read_tree};
use fmu_description::read_description;
use std::alloc::{AllocError, Global};
use value_types::Shape;

// What stands before and after a text in a description.
type Around = (&'static str, &'static str);

const FLAG: Around = (
    r#"<ModelVariables><Int32 name="a" valueReference="1" causality="input" canHandleMultipleSetPerTimeInstant=""#,
    r#""/></ModelVariables>"#,
);

const REFERENCE: Around = (
    r#"<ModelVariables><Int32 name="a" valueReference=""#,
    r#""/></ModelVariables>"#,
);

const COUNTER: Around = (
    r#"<ModelVariables><Clock name="c" valueReference="1" causality="input" intervalVariability="fixed" supportsFraction="true" resolution="1" intervalCounter="1" shiftCounter=""#,
    r#""/></ModelVariables>"#,
);

const LIST: Around = (
    r#"<ModelVariables><Int32 name="a" valueReference="1" causality="input"/><Int32 name="b" valueReference="2" causality="input"/><Int32 name="c" valueReference="3" causality="input"/><Int32 name="d" valueReference="4294967295" causality="input"/><Int32 name="y" valueReference="5" causality="output"/></ModelVariables><ModelStructure><Output valueReference="5" dependencies=""#,
    r#""/></ModelStructure>"#,
);

const TYPE: Around = (
    r#"<ModelVariables><"#,
    r#" name="a" valueReference="1"/></ModelVariables>"#,
);

const CAUSALITY: Around = (
    r#"<ModelVariables><Int32 name="a" valueReference="1" causality=""#,
    r#""/></ModelVariables>"#,
);

const VARIABILITY: Around = (
    r#"<ModelVariables><Clock name="c" valueReference="1" causality="input" intervalDecimal="1" intervalVariability=""#,
    r#""/></ModelVariables>"#,
);

/// Where a text stands, the text, and the end of what the shape that is read says (its variables, Clocks, dependencies, and
/// those of Initialization Mode), or the rule that is broken.
static TEXTS: [(Around, &str, Result<&str, u32>); 67] = [
    (FLAG, "true", Ok("a 1 Some(Int32) Input None;|||")),
    (FLAG, "1", Ok("a 1 Some(Int32) Input None;|||")),
    (FLAG, "false", Ok("a 1 Some(Int32) Input None once;|||")),
    (FLAG, "0", Ok("a 1 Some(Int32) Input None once;|||")),
    (FLAG, "", Err(14)),
    (FLAG, "True", Err(14)),
    (FLAG, "00", Err(14)),
    (FLAG, " true", Err(14)),
    (FLAG, "true1", Err(14)),
    (REFERENCE, "0", Ok("a 0 Some(Int32) Local None;|||")),
    (REFERENCE, "007", Ok("a 7 Some(Int32) Local None;|||")),
    (
        REFERENCE,
        "4294967295",
        Ok("a 4294967295 Some(Int32) Local None;|||"),
    ),
    (REFERENCE, "4294967296", Err(14)),
    (REFERENCE, "", Err(14)),
    (REFERENCE, "+1", Err(14)),
    (REFERENCE, "-1", Err(14)),
    (REFERENCE, "1 ", Err(14)),
    (REFERENCE, "1e3", Err(14)),
    (REFERENCE, "0x10", Err(14)),
    (REFERENCE, "\u{661}", Err(14)),
    (
        COUNTER,
        "0",
        Ok("c 1 Some(Clock) Input None;|1 Fixed true 1/1 0/1;||"),
    ),
    (
        COUNTER,
        "007",
        Ok("c 1 Some(Clock) Input None;|1 Fixed true 1/1 7/1;||"),
    ),
    (
        COUNTER,
        "4294967296",
        Ok("c 1 Some(Clock) Input None;|1 Fixed true 1/1 4294967296/1;||"),
    ),
    (
        COUNTER,
        "18446744073709551615",
        Ok("c 1 Some(Clock) Input None;|1 Fixed true 1/1 18446744073709551615/1;||"),
    ),
    (COUNTER, "18446744073709551616", Err(14)),
    (COUNTER, "", Err(14)),
    (COUNTER, "+1", Err(14)),
    (COUNTER, "1 ", Err(14)),
    (LIST, "", Ok("|5:;|5:;")),
    (LIST, "1", Ok("|5: 1;|5: 1;")),
    (LIST, "1 2 3", Ok("|5: 1 2 3;|5: 1 2 3;")),
    (
        LIST,
        "3   03 4294967295",
        Ok("|5: 3 3 4294967295;|5: 3 3 4294967295;"),
    ),
    (LIST, " ", Err(14)),
    (LIST, " 1", Err(14)),
    (LIST, "1 ", Err(14)),
    (LIST, "1,2", Err(14)),
    // A tab in an attribute is read as a space (XML 1.0, 3.3.3), one by its number isn't.
    (LIST, "1\t2", Ok("|5: 1 2;|5: 1 2;")),
    (LIST, "1&#9;2", Err(14)),
    (TYPE, "Int8", Ok("a 1 Some(Int8) Local None;|||")),
    (TYPE, "UInt8", Ok("a 1 Some(UInt8) Local None;|||")),
    (TYPE, "Int16", Ok("a 1 Some(Int16) Local None;|||")),
    (TYPE, "UInt16", Ok("a 1 Some(UInt16) Local None;|||")),
    (TYPE, "Int32", Ok("a 1 Some(Int32) Local None;|||")),
    (TYPE, "UInt32", Ok("a 1 Some(UInt32) Local None;|||")),
    (TYPE, "Int64", Ok("a 1 Some(Int64) Local None;|||")),
    (TYPE, "UInt64", Ok("a 1 Some(UInt64) Local None;|||")),
    (TYPE, "Boolean", Ok("a 1 Some(Boolean) Local None;|||")),
    (
        TYPE,
        "Enumeration",
        Ok("a 1 Some(Enumeration) Local None;|||"),
    ),
    (TYPE, "Float32", Ok("a 1 None Local None;|||")),
    (TYPE, "Float64", Ok("a 1 None Local None;|||")),
    (TYPE, "String", Ok("a 1 None Local None;|||")),
    (TYPE, "Binary", Ok("a 1 None Local None;|||")),
    (TYPE, "Alias", Ok("|||")),
    (TYPE, "int8", Ok("|||")),
    (
        CAUSALITY,
        "parameter",
        Ok("a 1 Some(Int32) Parameter None;|||"),
    ),
    (
        CAUSALITY,
        "calculatedParameter",
        Ok("a 1 Some(Int32) CalculatedParameter None;|||"),
    ),
    (
        CAUSALITY,
        "structuralParameter",
        Ok("a 1 Some(Int32) StructuralParameter None;|||"),
    ),
    (
        CAUSALITY,
        "independent",
        Ok("a 1 Some(Int32) Independent None;|||"),
    ),
    (CAUSALITY, "dependent", Ok("a 1 None Other None;|||")),
    (CAUSALITY, "", Ok("a 1 None Other None;|||")),
    (VARIABILITY, "constant", Ok("|1 Constant false 1/1 0/1;||")),
    (VARIABILITY, "fixed", Ok("|1 Fixed false 1/1 0/1;||")),
    (VARIABILITY, "tunable", Err(23)),
    (VARIABILITY, "changing", Ok("|1 Changing false 1/1 0/1;||")),
    (
        VARIABILITY,
        "countdown",
        Ok("|1 Countdown false 1/1 0/1;||"),
    ),
    (
        VARIABILITY,
        "triggered",
        Ok("|1 Triggered false 1/1 0/1;||"),
    ),
    (VARIABILITY, "discrete", Err(14)),
];

fn document(alloc: Global, around: Around, text: &str) -> Result<String, AllocError> {
    let (before, after) = around;
    format!(in alloc; "{PREFIX}{before}{text}{after}{BACK}")
}

fn ends_so(alloc: Global, shape: &Shape, wanted: &str) -> bool {
    match shape_text(alloc, shape) {
        Ok(text) => text.as_str().ends_with(wanted),
        Err(_) => false,
    }
}

fn is_so(alloc: Global, tree: &Tree, wanted: Result<&str, u32>) -> bool {
    match (read_description(alloc, tree, 1000), wanted) {
        (Ok(shape), Ok(text)) => ends_so(alloc, &shape, text),
        (Err(Refusal::At { rule, .. }), Err(number)) => rule.number() == number,
        _ => false,
    }
}

fn says(alloc: Global, row: &(Around, &str, Result<&str, u32>)) -> bool {
    let Ok(document) = document(alloc, row.0, row.1) else {
        return false;
    };
    match read_tree(alloc, document.as_bytes()) {
        Ok(tree) => is_so(alloc, &tree, row.2),
        Err(_) => false,
    }
}

#[test]
fn texts_are_read(rt: HostRuntime) {
    let alloc = rt.alloc();
    assert_eq!(rt; TEXTS.iter().position(|row| !says(alloc, row)), None);
}
