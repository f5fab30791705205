use doc_tree::{Refusal, Tree, read_tree};
use parameter_sets::{read_mapping_in, read_ssm, read_ssv, read_values_in};
use parameter_values::{
    Change, Mapping, MappingEntry, Parameter, ParameterSet, ParameterValue, Transformation,
};
use std::alloc::Global;
use std::test::Fail;

/// A document, the element that the set stands in where it isn't the root, and the element and the rule that are answered.
static REFUSED_SETS: [(&str, Option<usize>, usize, u32); 17] = [
    (r#"<ParameterSet version="1.1"/>"#, None, 0, 50),
    (r#"<ParameterSet/>"#, None, 0, 50),
    (r#"<ParameterMapping version="1.0"/>"#, None, 0, 50),
    (
        r#"<ParameterSet version="1.0"><Parameters/><Parameters><Parameter/></Parameters></ParameterSet>"#,
        None,
        3,
        51,
    ),
    (
        r#"<ParameterSet version="1.0"><Parameters><Parameter name="a"><Integer/></Parameter></Parameters></ParameterSet>"#,
        None,
        2,
        51,
    ),
    (
        r#"<ParameterSet version="1.0"><Parameters><Parameter name="a"><Integer value="1.0"/></Parameter></Parameters></ParameterSet>"#,
        None,
        2,
        51,
    ),
    (
        r#"<ParameterSet version="1.0"><Parameters><Parameter name="a"><Integer value="18446744073709551616"/></Parameter></Parameters></ParameterSet>"#,
        None,
        2,
        51,
    ),
    (
        r#"<ParameterSet version="1.0"><Parameters><Parameter name="a"><Integer value="-9223372036854775809"/></Parameter></Parameters></ParameterSet>"#,
        None,
        2,
        51,
    ),
    (
        r#"<ParameterSet version="1.0"><Parameters><Parameter name="a"><Boolean/></Parameter></Parameters></ParameterSet>"#,
        None,
        2,
        51,
    ),
    (
        r#"<ParameterSet version="1.0"><Parameters><Parameter name="a"><Boolean value="True"/></Parameter></Parameters></ParameterSet>"#,
        None,
        2,
        51,
    ),
    (
        r#"<ParameterSet version="1.0"><Parameters><Parameter name="a"><Integer value="x"/><Real value="1"/></Parameter></Parameters></ParameterSet>"#,
        None,
        2,
        51,
    ),
    (
        r#"<ParameterSet><Parameters><Parameter/></Parameters></ParameterSet>"#,
        None,
        0,
        50,
    ),
    (r#"<ParameterValues/>"#, Some(0), 0, 50),
    (
        r#"<ParameterValues><ParameterMapping version="1.0"/></ParameterValues>"#,
        Some(0),
        0,
        50,
    ),
    (
        r#"<x><ParameterValues><ParameterSet version="1.0"/><ParameterSet version="1.0"/></ParameterValues></x>"#,
        Some(1),
        1,
        50,
    ),
    (
        r#"<ParameterValues><x/><ParameterSet version="2.0"/></ParameterValues>"#,
        Some(0),
        2,
        50,
    ),
    (
        r#"<ParameterValues><ParameterSet version="1.0"><Parameters><Parameter name=""><Boolean value="2"/></Parameter></Parameters></ParameterSet></ParameterValues>"#,
        Some(0),
        3,
        51,
    ),
];

/// The same of mappings.
static REFUSED_MAPPINGS: [(&str, Option<usize>, usize, u32); 12] = [
    (r#"<ParameterSet version="1.0"/>"#, None, 0, 50),
    (r#"<ParameterMapping/>"#, None, 0, 50),
    (
        r#"<ParameterMapping version="1.0"><MappingEntry source="a"/></ParameterMapping>"#,
        None,
        1,
        51,
    ),
    (
        r#"<ParameterMapping version="1.0"><MappingEntry source="a" target="b"/><MappingEntry target="b"><LinearTransformation factor="x"/></MappingEntry></ParameterMapping>"#,
        None,
        2,
        51,
    ),
    (
        r#"<ParameterMapping version="1.0"><MappingEntry source="a" target="b"><LinearTransformation/><IntegerMappingTransformation><MapEntry source="1"/></IntegerMappingTransformation></MappingEntry></ParameterMapping>"#,
        None,
        3,
        54,
    ),
    (
        r#"<ParameterMapping version="1.0"><MappingEntry source="a" target="b"><IntegerMappingTransformation><MapEntry source="1" target="18446744073709551616"/></IntegerMappingTransformation></MappingEntry></ParameterMapping>"#,
        None,
        2,
        54,
    ),
    (
        r#"<ParameterMapping version="1.0"><MappingEntry source="a" target="b"><BooleanMappingTransformation><MapEntry source="true" target="2"/></BooleanMappingTransformation></MappingEntry></ParameterMapping>"#,
        None,
        2,
        54,
    ),
    (
        r#"<ParameterMapping version="1.0"><MappingEntry source="a" target="b"><LinearTransformation offset="1.5"/></MappingEntry><MappingEntry/></ParameterMapping>"#,
        None,
        2,
        54,
    ),
    (
        r#"<ParameterMapping version="1.0"><MappingEntry source="a" target="b"><EnumerationMappingTransformation/></MappingEntry></ParameterMapping>"#,
        None,
        2,
        54,
    ),
    (r#"<ParameterMapping version="1.0"/>"#, Some(0), 0, 50),
    (
        r#"<ParameterMapping><ParameterMapping version="1"/></ParameterMapping>"#,
        Some(0),
        1,
        50,
    ),
    (
        r#"<ParameterMapping><ParameterMapping version="1.0"><MappingEntry source="a" target="b"><LinearTransformation factor="1e0"/></MappingEntry></ParameterMapping></ParameterMapping>"#,
        Some(0),
        3,
        54,
    ),
];

/// Two lists, and a value of each kind.
const SET: &str =
    r#"<ssv:ParameterSet xmlns:ssv="x" version="1.0" name="s"><ssv:Parameters><ssv:Parameter name="a.k"><ssv:Integer value="-5"/></ssv:Parameter><ssv:Parameter name=""><ssv:Real value="x"/><ssv:Integer value="1"/></ssv:Parameter></ssv:Parameters><ssv:Parameters><ssv:Parameter name="b"><x/><ssv:Boolean value="1"/></ssv:Parameter><ssv:Parameter name="u"><ssv:Integer value="18446744073709551615"/></ssv:Parameter><ssv:Parameter name="n"/></ssv:Parameters></ssv:ParameterSet>"#;

/// Its parameters.
static PARAMETERS: [(usize, &str, ParameterValue); 5] = [
    (2, "a.k", ParameterValue::Integer(-5)),
    (4, "", ParameterValue::Other),
    (8, "b", ParameterValue::Boolean(true)),
    (11, "u", ParameterValue::Integer(18_446_744_073_709_551_615)),
    (13, "n", ParameterValue::Other),
];

/// An entry of each kind.
const MAPPING: &str =
    r#"<ssm:ParameterMapping xmlns:ssm="x" version="1.0"><ssm:MappingEntry source="a" target="b"><ssc:LinearTransformation factor="-2.0"/></ssm:MappingEntry><ssm:MappingEntry source="" target="c"/><ssm:MappingEntry source="d" target="e"><ssc:IntegerMappingTransformation><ssc:MapEntry source="1" target="18446744073709551615"/><x/><ssc:MapEntry source="1" target="-1"/></ssc:IntegerMappingTransformation><ssc:LinearTransformation/></ssm:MappingEntry><ssm:MappingEntry source="f" target="g"><ssc:BooleanMappingTransformation><ssc:MapEntry source="true" target="0"/></ssc:BooleanMappingTransformation></ssm:MappingEntry></ssm:ParameterMapping>"#;

/// What an entry's transformation has: factor and offset, or its last pair.
#[derive(Clone, Copy, Debug, PartialEq)]
enum Given {
    Linear(i64, i64),
    Integers(usize, i128, i128),
    Booleans(usize, bool, bool),
}

/// Its entries: element, source and target, and the element of the transformation with what it has.
static ENTRIES: [(usize, &str, &str, Option<(usize, Given)>); 4] = [
    (1, "a", "b", Some((2, Given::Linear(-2, 0)))),
    (3, "", "c", None),
    (4, "d", "e", Some((5, Given::Integers(2, 1, -1)))),
    (10, "f", "g", Some((11, Given::Booleans(1, true, false)))),
];

/// Texts of factors and offsets.
static FACTORS: [(&str, Option<i64>); 20] = [
    ("0", Some(0)),
    ("-0", Some(0)),
    ("007", Some(7)),
    ("-0.000", Some(0)),
    ("1.0", Some(1)),
    ("-9223372036854775808.00", Some(i64::MIN)),
    ("9223372036854775807", Some(i64::MAX)),
    ("9223372036854775808", None),
    ("", None),
    ("-", None),
    ("+1", None),
    ("1.", None),
    (".0", None),
    (".", None),
    ("1.5", None),
    ("1.0.0", None),
    ("1e0", None),
    ("--1", None),
    (" 1", None),
    ("1.0 ", None),
];

// Whether this is a refusal of a rule at an element of the first file that names no ports.
fn is_refusal(refusal: &Refusal, number: u32, element: usize) -> bool {
    match refusal {
        Refusal::Memory => false,
        Refusal::At {
            file,
            node,
            rule,
            ports,
        } => *file == 0 && ports.len() == 0 && rule.number() == number && *node == element,
    }
}

fn read_set(alloc: Global, tree: &Tree, holder: Option<usize>) -> Result<ParameterSet, Refusal> {
    match holder {
        Some(holder) => read_values_in(alloc, tree, holder),
        None => read_ssv(alloc, tree),
    }
}

fn read_mapping(alloc: Global, tree: &Tree, holder: Option<usize>) -> Result<Mapping, Refusal> {
    match holder {
        Some(holder) => read_mapping_in(alloc, tree, holder),
        None => read_ssm(alloc, tree),
    }
}

fn is_set_refused(alloc: Global, row: &(&str, Option<usize>, usize, u32)) -> bool {
    let Ok(tree) = read_tree(alloc, row.0.as_bytes()) else {
        return false;
    };
    match read_set(alloc, &tree, row.1) {
        Ok(_) => false,
        Err(refusal) => is_refusal(&refusal, row.3, row.2),
    }
}

fn is_mapping_refused(alloc: Global, row: &(&str, Option<usize>, usize, u32)) -> bool {
    let Ok(tree) = read_tree(alloc, row.0.as_bytes()) else {
        return false;
    };
    match read_mapping(alloc, &tree, row.1) {
        Ok(_) => false,
        Err(refusal) => is_refusal(&refusal, row.3, row.2),
    }
}

#[test]
fn the_first_violation_is_told(rt: HostRuntime) {
    let alloc = rt.alloc();
    assert_eq!(rt;
        REFUSED_SETS
            .iter()
            .position(|row| !is_set_refused(alloc, row)),
        None
    );
    assert_eq!(rt;
        REFUSED_MAPPINGS
            .iter()
            .position(|row| !is_mapping_refused(alloc, row)),
        None
    );
}

fn is_parameter(parameter: &Parameter, row: &(usize, &str, ParameterValue), before: usize) -> bool {
    parameter.node.checked_sub(before) == Some(row.0)
        && parameter.name.as_str() == row.1
        && parameter.value == row.2
}

fn has_parameters(set: &ParameterSet, before: usize) -> bool {
    set.parameters.len() == PARAMETERS.len()
        && set
            .parameters
            .as_slice()
            .iter()
            .zip(&PARAMETERS)
            .all(|(parameter, row)| is_parameter(parameter, row, before))
}

fn is_set(alloc: Global, text: &str, holder: Option<usize>, before: usize) -> bool {
    let Ok(tree) = read_tree(alloc, text.as_bytes()) else {
        return false;
    };
    match read_set(alloc, &tree, holder) {
        Ok(set) => has_parameters(&set, before),
        Err(_) => false,
    }
}

#[test]
fn a_set_is_read_in_a_file_and_in_a_binding(rt: HostRuntime) -> Result<(), Fail> {
    let inline = format!(in rt.alloc(); "<ParameterValues>{SET}</ParameterValues>")?;
    assert!(rt; is_set(rt.alloc(), SET, None, 0));
    assert!(rt; is_set(rt.alloc(), inline.as_str(), Some(0), 1));
    Ok(())
}

fn is_given(change: &Change, given: &Given) -> bool {
    match (change, given) {
        (Change::Linear { factor, offset }, Given::Linear(wanted, added)) => {
            *factor == *wanted && *offset == *added
        }
        (Change::Integers { pairs }, Given::Integers(count, source, target)) => {
            pairs.len() == *count
                && pairs
                    .as_slice()
                    .last()
                    .is_some_and(|pair| pair.source == *source && pair.target == *target)
        }
        (Change::Booleans { pairs }, Given::Booleans(count, source, target)) => {
            pairs.len() == *count
                && pairs
                    .as_slice()
                    .last()
                    .is_some_and(|pair| pair.source == *source && pair.target == *target)
        }
        _ => false,
    }
}

fn is_transformation(
    found: &Option<Transformation>,
    wanted: &Option<(usize, Given)>,
    before: usize,
) -> bool {
    match (found, wanted) {
        (Some(found), Some((node, given))) => {
            found.node.checked_sub(before) == Some(*node) && is_given(&found.change, given)
        }
        (found, wanted) => found.is_none() && wanted.is_none(),
    }
}

fn is_entry(
    entry: &MappingEntry,
    row: &(usize, &str, &str, Option<(usize, Given)>),
    before: usize,
) -> bool {
    entry.node.checked_sub(before) == Some(row.0)
        && entry.source.as_str() == row.1
        && entry.target.as_str() == row.2
        && is_transformation(&entry.transformation, &row.3, before)
}

fn has_entries(mapping: &Mapping, before: usize) -> bool {
    mapping.entries.len() == ENTRIES.len()
        && mapping
            .entries
            .as_slice()
            .iter()
            .zip(&ENTRIES)
            .all(|(entry, row)| is_entry(entry, row, before))
}

fn is_mapping(alloc: Global, text: &str, holder: Option<usize>, before: usize) -> bool {
    let Ok(tree) = read_tree(alloc, text.as_bytes()) else {
        return false;
    };
    match read_mapping(alloc, &tree, holder) {
        Ok(mapping) => has_entries(&mapping, before),
        Err(_) => false,
    }
}

#[test]
fn a_mapping_is_read_in_a_file_and_in_a_binding(rt: HostRuntime) -> Result<(), Fail> {
    let inline = format!(in rt.alloc(); "<ParameterMapping>{MAPPING}</ParameterMapping>")?;
    assert!(rt; is_mapping(rt.alloc(), MAPPING, None, 0));
    assert!(rt; is_mapping(rt.alloc(), inline.as_str(), Some(0), 1));
    Ok(())
}

// Whether the only entry multiplies by this factor.
fn multiplies_by(mapping: &Mapping, factor: i64) -> bool {
    match mapping.entries.get(0) {
        Some(entry) => {
            is_transformation(
                &entry.transformation,
                &Some((2, Given::Linear(factor, 0))),
                0,
            )
        }
        None => false,
    }
}

// Whether a factor is read, or refused at its transformation.
fn is_factor(alloc: Global, row: &(&str, Option<i64>)) -> bool {
    let Ok(text) = format!(in alloc;
        "<ParameterMapping version=\"1.0\"><MappingEntry source=\"a\" target=\"b\"><LinearTransformation factor=\"{}\"/></MappingEntry></ParameterMapping>",
        row.0
    ) else {
        return false;
    };
    let Ok(tree) = read_tree(alloc, text.as_bytes()) else {
        return false;
    };
    match (read_ssm(alloc, &tree), row.1) {
        (Ok(mapping), Some(factor)) => multiplies_by(&mapping, factor),
        (Err(refusal), None) => is_refusal(&refusal, 54, 2),
        _ => false,
    }
}

#[test]
fn factors_are_read(rt: HostRuntime) {
    let alloc = rt.alloc();
    assert_eq!(rt; FACTORS.iter().position(|row| !is_factor(alloc, row)), None);
}
