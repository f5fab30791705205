ghost use Rattle.std.specs.Prelude.{◌≡◌, map, option_copied, IfOk};
ghost use Rattle.std.specs.List.{find};
ghost use Rattle.trace_export.specs.Columns.{form_in, form_of_entry, forms_in, holds_real, means};

use crate::cells::Form;
use crate::reals::RealPort;
use std::alloc::{AllocError, Global};
use trace_reading::TracePort;
use value_types::PortType;

/// How a port is shown.
#[derive(Debug, Drop)]
pub struct Column {
    pub form: Form,
    pub kind: PortType,
    /// Empty where none is known.
    pub unit: Vec<u8>,
}

/// How each port is shown: those of the list as reals. An entry of the list counts where its type has the port's width.
pub fn columns_of(
    alloc: Global,
    ports: &[TracePort],
    reals: &[RealPort],
) -> Result<Vec<Column>, AllocError>
    ensures { IfOk result (λ columns.
        map (λ column. column.form) columns.items ≡ forms_in reals.now ports.now) }
{
    let mut columns = Vec::with_capacity(alloc, ports.len())?;
    for port in ports {
        columns.push(column_of(alloc, port, reals)?)?;
    }
    Ok(columns)
}

fn column_of(alloc: Global, port: &TracePort, reals: &[RealPort]) -> Result<Column, AllocError>
    ensures { IfOk result (λ column. column.form ≡ form_in reals.now port.now) }
{
    let entry = entry_of(reals, port);
    let unit = match entry {
        Some(real) => real.unit.to_vec(alloc)?,
        None => Vec::new(alloc),
    };
    Ok(Column {
        form: form_of_entry(entry),
        kind: port.kind,
        unit,
    })
}

// The first entry of a list that means a port.
fn entry_of<'a>(reals: &'a [RealPort], port: &TracePort) -> Option<&'a RealPort>
    ensures { option_copied result ≡ find (λ (real : RealPort). means real port.now) reals.now }
{
    reals.iter().find(|real| means(*real, port))
}

fn form_of_entry(entry: Option<&RealPort>) -> Form
    ensures { result ≡ form_of_entry (option_copied entry.entry) }
{
    match entry {
        None => Form::Whole,
        Some(real) => {
            if real.is_double {
                Form::Float64
            } else {
                Form::Float32
            }
        }
    }
}

fn means(real: &RealPort, port: &TracePort) -> bool
    ensures { result ≡ means real.now port.now }
{
    holds_real(real.is_double, port.kind)
        && real.component.as_slice() == port.component.as_slice()
        && real.variable.as_slice() == port.variable.as_slice()
}

// Whether a real of 64 bits, or one of 32, stands in a number of this type.
fn holds_real(is_double: bool, kind: PortType) -> bool
    ensures { result ≡ holds_real is_double kind }
{
    match kind {
        PortType::Int64 => is_double,
        PortType::Int32 => !is_double,
        _ => false,
    }
}

/// What each port's number stands for.
pub(crate) fn forms_of(alloc: Global, columns: &[Column]) -> Result<Vec<Form>, AllocError>
    ensures { IfOk result (λ forms. forms.items ≡ map (λ column. column.form) columns.now) }
{
    let mut forms = Vec::with_capacity(alloc, columns.len())?;
    for column in columns {
        forms.push(column.form)?;
    }
    Ok(forms)
}

/// Appends a port's name to a text: its component's, a dot, and its variable's.
pub(crate) fn append_name(port: &TracePort, out: &mut Vec<u8>) -> Result<(), AllocError> {
    out.extend_from_slice(port.component.as_slice())?;
    out.push(b'.')?;
    out.extend_from_slice(port.variable.as_slice())
}
