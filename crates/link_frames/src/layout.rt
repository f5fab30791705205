ghost use Rattle.std.specs.Prelude.{◌≡◌, ◌<◌, slice_index};
ghost use Rattle.link_frames.specs.Layout.{any, any_reference, around_zero, batch_row, between, call_row, done_row, interval_row, kind_at, kind_numbers, kinds_of, kinds_of_items, of_clock, plain_call, plain_reply, reply_row, row_of, size_at, spans_at, text_max, type_at, type_number, words, zero_only};

use exact_parts::{Span, Spans};
use fmi_calls::Kind;
use value_types::PortType;

/// Of which kind the items of a batch are.
#[derive(Clone, Copy, Debug, PartialEq, Eq)]
pub(crate) enum Items {
    Either,
    Gets,
    Sets,
}

/// Whose layout it is.
#[derive(Clone, Copy, Debug, PartialEq, Eq)]
pub(crate) enum Form {
    OfCall,
    OfReply,
    /// the head of a batch
    OfBatch,
    CallItem(Items),
    ReplyItem(Items),
}

/// The spans of the numbers after the kind.
#[derive(Clone, Copy, Debug, PartialEq, Eq)]
pub(crate) struct Row {
    /// the type of the variable, or the status
    pub detail: Spans,
    pub flags: Spans,
    /// the value reference, the qualifier of an interval, or the length of a state
    pub reference: Spans,
    pub first: Spans,
    pub last: Spans,
}

const TEXT_MAX: u64 = 1 << 24;

const STATE_MAX: u64 = 1 << 20;

/// The kind with this number.
pub(crate) fn kind_at(number: u64) -> Kind
    ensures { result ≡ kind_at number }
{
    match number {
        1 => Kind::Instantiate,
        2 => Kind::EnterInitialization,
        3 => Kind::ExitInitialization,
        4 => Kind::EnterEvent,
        5 => Kind::EnterStep,
        6 => Kind::DoStep,
        7 => Kind::Update,
        8 => Kind::Get,
        9 => Kind::Set,
        10 => Kind::GetClock,
        11 => Kind::SetClock,
        12 => Kind::GetInterval,
        13 => Kind::GetShift,
        14 => Kind::Save,
        15 => Kind::Restore,
        16 => Kind::Free,
        17 => Kind::Terminate,
        20 => Kind::Serialize,
        21 => Kind::Deserialize,
        _ => Kind::FreeInstance,
    }
}

/// The number of a type.
pub(crate) fn type_number(kind: PortType) -> u8
    ensures { result ≡ type_number kind }
{
    match kind {
        PortType::Int8 => 1,
        PortType::UInt8 => 2,
        PortType::Int16 => 3,
        PortType::UInt16 => 4,
        PortType::Int32 => 5,
        PortType::UInt32 => 6,
        PortType::Int64 => 7,
        PortType::UInt64 => 8,
        PortType::Boolean => 9,
        PortType::Enumeration => 10,
        PortType::Clock => 11,
    }
}

/// The type with this number.
pub(crate) fn type_at(number: u64) -> PortType
    ensures { result ≡ type_at number }
{
    match number {
        1 => PortType::Int8,
        2 => PortType::UInt8,
        3 => PortType::Int16,
        4 => PortType::UInt16,
        5 => PortType::Int32,
        6 => PortType::UInt32,
        7 => PortType::Int64,
        8 => PortType::UInt64,
        9 => PortType::Boolean,
        10 => PortType::Enumeration,
        _ => PortType::Clock,
    }
}

fn between(low: u64, high: u64) -> Spans
    ensures { result ≡ between low high }
{
    let span = Span { low, high };
    Spans {
        one: span,
        other: span,
    }
}

/// 0 alone.
pub(crate) fn zero_only() -> Spans
    ensures { result ≡ zero_only }
{
    between(0, 0)
}

fn any() -> Spans
    ensures { result ≡ any }
{
    between(0, u64::MAX)
}

fn any_reference() -> Spans
    ensures { result ≡ any_reference }
{
    between(0, u64::from(u32::MAX))
}

// The words of the values of a type with a sign, of which the greatest is one less than `half`.
fn around_zero(half: u32) -> Spans
    requires { 0 < half }
    ensures { result ≡ around_zero half }
{
    let half = u64::from(half);
    Spans {
        one: Span {
            low: 0,
            high: half - 1,
        },
        other: Span {
            low: u64::MAX - (half - 1),
            high: u64::MAX,
        },
    }
}

// The words that are right for a type.
fn words(kind: PortType) -> Spans
    ensures { result ≡ words kind }
{
    match kind {
        PortType::Int8 => around_zero(1 << 7),
        PortType::Int16 => around_zero(1 << 15),
        PortType::Int32 => around_zero(1 << 31),
        PortType::UInt8 => between(0, u64::from(u8::MAX)),
        PortType::UInt16 => between(0, u64::from(u16::MAX)),
        PortType::UInt32 => between(0, u64::from(u32::MAX)),
        PortType::Boolean | PortType::Clock => between(0, 1),
        PortType::Int64 | PortType::UInt64 | PortType::Enumeration => any(),
    }
}

fn plain_call() -> Row
    ensures { result ≡ plain_call }
{
    Row {
        detail: zero_only(),
        flags: zero_only(),
        reference: zero_only(),
        first: zero_only(),
        last: zero_only(),
    }
}

// The row of a call, for Set by the type.
fn call_row(kind: Kind, port_type: PortType) -> Row
    ensures { result ≡ call_row kind port_type }
{
    match kind {
        Kind::Instantiate => Row {
            reference: between(0, 7),
            first: between(1, TEXT_MAX),
            last: between(0, TEXT_MAX),
            ..plain_call()
        },
        Kind::EnterInitialization | Kind::DoStep => Row {
            first: any(),
            last: any(),
            ..plain_call()
        },
        Kind::Get => Row {
            detail: between(1, 10),
            reference: any_reference(),
            ..plain_call()
        },
        Kind::Set => Row {
            detail: between(1, 10),
            reference: any_reference(),
            first: words(port_type),
            ..plain_call()
        },
        Kind::GetClock | Kind::SetClock | Kind::GetInterval | Kind::GetShift => Row {
            reference: any_reference(),
            ..plain_call()
        },
        Kind::ExitInitialization
        | Kind::EnterEvent
        | Kind::EnterStep
        | Kind::Update
        | Kind::Save
        | Kind::Restore
        | Kind::Free
        | Kind::Terminate
        | Kind::FreeInstance
        | Kind::Serialize => plain_call(),
        Kind::Deserialize => Row {
            reference: any_reference(),
            first: any(),
            last: any(),
            ..plain_call()
        },
    }
}

fn plain_reply() -> Row
    ensures { result ≡ plain_reply }
{
    Row {
        detail: between(0, 4),
        ..plain_call()
    }
}

// The row of a reply with OK or Warning.
fn done_row(kind: Kind, flags: u64, qualifier: u64) -> Row
    ensures { result ≡ done_row kind flags qualifier }
{
    match kind {
        Kind::Instantiate => Row {
            flags: between(0, 1),
            ..plain_reply()
        },
        Kind::DoStep => Row {
            flags: between(0, 7),
            first: any(),
            ..plain_reply()
        },
        Kind::Update => Row {
            flags: between(0, 7),
            first: if 4 <= flags { any() } else { zero_only() },
            ..plain_reply()
        },
        Kind::Get | Kind::GetClock => Row {
            first: any(),
            ..plain_reply()
        },
        Kind::GetInterval => interval_row(qualifier),
        Kind::GetShift => Row {
            first: any(),
            last: any(),
            ..plain_reply()
        },
        Kind::EnterInitialization
        | Kind::ExitInitialization
        | Kind::EnterEvent
        | Kind::EnterStep
        | Kind::Set
        | Kind::SetClock
        | Kind::Save
        | Kind::Restore
        | Kind::Free
        | Kind::Terminate
        | Kind::FreeInstance
        | Kind::Deserialize => plain_reply(),
        Kind::Serialize => Row {
            reference: between(0, STATE_MAX),
            ..plain_reply()
        },
    }
}

fn interval_row(qualifier: u64) -> Row
    ensures { result ≡ interval_row qualifier }
{
    let number = if 0 < qualifier { any() } else { zero_only() };
    Row {
        reference: between(0, 2),
        first: number,
        last: number,
        ..plain_reply()
    }
}

fn reply_row(kind: Kind, status: u64, flags: u64, qualifier: u64) -> Row
    ensures { result ≡ reply_row kind status flags qualifier }
{
    if 2 <= status {
        plain_reply()
    } else {
        done_row(kind, flags, qualifier)
    }
}

// The head of a batch: the number of its items, where a call has its reference.
fn batch_row() -> Row
    ensures { result ≡ batch_row }
{
    Row {
        reference: between(1, 64),
        ..plain_call()
    }
}

fn kinds_of_items(items: Items) -> Spans
    ensures { result ≡ kinds_of_items items }
{
    match items {
        Items::Either => between(8, 9),
        Items::Gets => between(8, 8),
        Items::Sets => between(9, 9),
    }
}

// The numbers of the kinds of single frames: 19 is that of a batch.
fn kind_numbers() -> Spans
    ensures { result ≡ kind_numbers }
{
    Spans {
        one: Span { low: 1, high: 18 },
        other: Span { low: 20, high: 21 },
    }
}

/// The numbers of the kinds that a frame of the form may have.
pub(crate) fn kinds_of(form: Form) -> Spans
    ensures { result ≡ kinds_of form }
{
    match form {
        Form::OfCall | Form::OfReply => kind_numbers(),
        Form::OfBatch => between(19, 19),
        Form::CallItem(items) | Form::ReplyItem(items) => kinds_of_items(items),
    }
}

fn number_at(before: &[u64], place: usize) -> u64
    ensures { result ≡ slice_index before.now place }
{
    before.get(place).copied().unwrap_or(0)
}

/// The row for these numbers, of which the first is the kind.
pub(crate) fn row_of(form: Form, before: &[u64]) -> Row
    ensures { result ≡ row_of form before.now }
{
    let kind = kind_at(number_at(before, 0));
    let detail = number_at(before, 1);
    match form {
        Form::OfCall | Form::CallItem(_) => call_row(kind, type_at(detail)),
        Form::OfReply | Form::ReplyItem(_) => {
            reply_row(kind, detail, number_at(before, 2), number_at(before, 4))
        }
        Form::OfBatch => batch_row(),
    }
}

/// How many bytes the number at a place has.
pub(crate) fn size_at(place: usize) -> usize
    ensures { result ≡ size_at place }
{
    match place {
        0..=3 => 1,
        4 => 4,
        _ => 8,
    }
}

/// The spans of the number that follows these.
pub(crate) fn spans_at(form: Form, before: &[u64]) -> Spans
    ensures { result ≡ spans_at form before.now }
{
    let row = row_of(form, before);
    match before.len() {
        0 => kinds_of(form),
        1 => row.detail,
        2 => row.flags,
        4 => row.reference,
        5 => row.first,
        6 => row.last,
        _ => zero_only(),
    }
}
