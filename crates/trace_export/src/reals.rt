use crate::fault::ViewFault;
use std::alloc::Global;
use trace_reading::read_name;

/// A port whose number holds the bits of a real, as a list of such ports tells it. Names are bytes as they are.
#[derive(Debug, Drop)]
pub struct RealPort {
    pub is_double: bool,
    pub component: Vec<u8>,
    pub variable: Vec<u8>,
    /// Empty where the list has none.
    pub unit: Vec<u8>,
}

/// The ports that a list tells: on each line a type, the names of a component and of a variable, and a unit or none, with
/// their bytes escaped as in a trace.
pub fn read_real_list(alloc: Global, text: &[u8]) -> Result<Vec<RealPort>, ViewFault> {
    let mut ports = Vec::new(alloc);
    let mut number = 0u64;
    for line in text.split(|byte| *byte == b'\n') {
        number = number.saturating_add(1);
        if line.is_empty() {
            continue;
        }
        match read_real_port(alloc, line)? {
            Some(port) => ports.push(port)?,
            None => return Err(ViewFault::List(number)),
        }
    }
    Ok(ports)
}

fn read_real_port(alloc: Global, line: &[u8]) -> Result<Option<RealPort>, ViewFault> {
    let mut words = line.split(|byte| *byte == b' ');
    let is_double = match words.next() {
        Some(b"Float64") => true,
        Some(b"Float32") => false,
        _ => return Ok(None),
    };
    let Some(component) = next_name(alloc, words.next())? else {
        return Ok(None);
    };
    let Some(variable) = next_name(alloc, words.next())? else {
        return Ok(None);
    };
    let unit = match words.next() {
        Some(word) => match read_name(alloc, word)? {
            Some(unit) => unit,
            None => return Ok(None),
        },
        None => Vec::new(alloc),
    };
    if words.next().is_some() {
        return Ok(None);
    }
    Ok(Some(RealPort {
        is_double,
        component,
        variable,
        unit,
    }))
}

fn next_name(alloc: Global, word: Option<&[u8]>) -> Result<Option<Vec<u8>>, ViewFault> {
    match word {
        Some(word) => Ok(read_name(alloc, word)?),
        None => Ok(None),
    }
}
