ghost use Rattle.std.specs.Prelude.{◌≡◌, ◌++◌, ℕ, List, OnOk};
ghost use Rattle.std.specs.Float.{binary32, binary64};
ghost use Rattle.std.specs.Fmt.{signed_decimal};
ghost use Rattle.trace_export.specs.Fields.{AddsReal, AddsText, IsField};

use crate::cells::{Cell, Form, float32_of, float64_of};
use std::alloc::AllocError;

/// Appends the text of a port's value to another: nothing where it has none, a number as a decimal, a real as the
/// shortest decimal that reads back, or `nan`, `inf` or `-inf`.
pub(crate) fn append_field(cell: Cell, out: &mut Vec<u8>) -> Result<(), AllocError>
    ensures { OnOk result ((field : List ℕ) × IsField cell.form cell.value field ×
        (out.new.items ≡ out.old.items ++ field)) }
{
    match cell.value {
        None => Ok(()),
        Some(value) => append_value(cell.form, value, out),
    }
}

fn append_value(form: Form, value: i128, out: &mut Vec<u8>) -> Result<(), AllocError>
    ensures { OnOk result (AddsText form value out.old.items out.new.items) }
{
    match form {
        Form::Whole => append_whole(value, out),
        Form::Float64 => append_float64(float64_of(value), out),
        Form::Float32 => append_float32(float32_of(value), out),
    }
}

fn append_whole(value: i128, out: &mut Vec<u8>) -> Result<(), AllocError>
    ensures { OnOk result (out.new.items ≡ out.old.items ++ signed_decimal value) }
{
    out.extend_from_slice(itoa::Buffer::new().format(value).as_bytes())
}

fn append_float64(x: f64, out: &mut Vec<u8>) -> Result<(), AllocError>
    ensures { OnOk result (AddsReal binary64 x out.old.items out.new.items) }
{
    if x.is_nan() {
        out.extend_from_slice(b"nan")
    } else {
        out.extend_from_slice(ryu::Buffer::new().format(x).as_bytes())
    }
}

fn append_float32(x: f32, out: &mut Vec<u8>) -> Result<(), AllocError>
    ensures { OnOk result (AddsReal binary32 x out.old.items out.new.items) }
{
    if x.is_nan() {
        out.extend_from_slice(b"nan")
    } else {
        out.extend_from_slice(ryu::Buffer::new().format(x).as_bytes())
    }
}
