ghost use Rattle.std.specs.Prelude.{◌≡◌, ◌+◌, ◌<◌, ◌≤◌, ◌^◌, [], IfOk, false, filter, if◌then◌else◌, int_lt, length, map, pos, set, slice_get, true, unwrap_or, vec_capacity};
ghost use Rattle.std.specs.Option.{option_map_or};
ghost use Rattle.fmi_calls.specs.Permission.{Permitted, is_input_clock};
ghost use Rattle.fmu_peer.specs.Machine.{after, all_written, mark_after, written, zero_at};
ghost use Rattle.value_types.specs.Shape.{dependency_at, is_known};
ghost use Rattle.bench_fmus.specs.BuiltIn.{no_fraction, spread, start_of, step_content, value_of};
ghost use Rattle.bench_fmus.specs.Told.{number_of_flag};

use crate::packed::{fits_bytes, order_of, pack, packed_size};
use crate::wrap::{count_of, wrapped_word, wrapping_sum};
use crate::{Model, SavedState};
use clock_fraction::Fraction;
use fmi_calls::{BadStatus, Call, Content, Kind, Phase, Reply};
use std::alloc::{AllocError, Global};
use value_types::{ByReference, Dependency, Knowns, PortType, Shape, Variable};

/// The numbers of a built-in machine's own.
#[derive(Clone, Copy, Debug, PartialEq, Eq)]
pub struct Numbers {
    /// whether the machine is in Initialization Mode
    pub is_initializing: bool,
    /// what a machine holds of its inputs
    pub held: i64,
    pub count: i64,
    /// the point of time, in counts
    pub point: u64,
    /// whether what happens once has happened
    pub has_fired: bool,
}

impl Numbers {
    ghost use Rattle.bench_fmus.specs.BuiltIn.{at_first, one_more};
    ghost use Rattle.bench_fmus.specs.Told.{told};

    /// The numbers before the first call.
    pub fn at_first() -> Numbers
        ensures { told result ≡ at_first }
    {
        Numbers {
            is_initializing: false,
            held: 0,
            count: 0,
            point: 0,
            has_fired: false,
        }
    }

    /// The count goes on by one.
    pub(crate) fn one_more(self) -> Numbers
        ensures { told result ≡ one_more (told self) }
    {
        Numbers {
            count: wrapping_sum(self.count, 1),
            ..self
        }
    }
}

/// The state of a built-in machine: its numbers, the value under each reference at the place of the first variable that
/// has it, and what Save keeps of both.
#[derive(Debug, Drop)]
pub struct BuiltInState {
    pub numbers: Numbers,
    pub values: Vec<i128>,
    pub saved: SavedState,
    /// the references with the places of their variables, in order
    pub order: Vec<(u32, usize)>,
    /// the references of the input Clocks
    pub clocks: Vec<u32>,
}

impl BuiltInState {
    ghost use Rattle.bench_fmus.specs.BuiltIn.{content_of, count_at, first_state, fraction_at, is_declared_at, is_packable, is_refused, is_ticking, machine_of, numbers_after, point_after, reply_of, reply_to_bytes, seen_by};
    ghost use Rattle.bench_fmus.specs.Packed.{packed, unpacked};
    ghost use Rattle.bench_fmus.specs.Models.{behaviour_of};
    ghost use Rattle.bench_fmus.specs.Told.{HasRoom, saved_in, slot_in, state_in, told, values_in};

    /// The state before the first call.
    pub fn at_first(alloc: Global, shape: &Shape) -> Result<BuiltInState, AllocError>
        ensures first { IfOk result (λ s. state_in shape.now.variables s ≡
            first_state shape.now.variables) }
        ensures room { IfOk result (HasRoom shape.now) }
    {
        Ok(BuiltInState {
            numbers: Numbers::at_first(),
            values: first_values(alloc, shape.variables.as_slice())?,
            saved: SavedState::none(alloc, shape.variables.len())?,
            order: order_of(alloc, shape.variables.as_slice())?,
            clocks: input_clocks(alloc, shape.variables.as_slice())?,
        })
    }

    /// The value under a reference, or 0 where no variable has it.
    pub(crate) fn value(&self, variables: &ByReference<Variable>, reference: u32) -> i128
        ensures { result ≡ value_of variables.now (values_in variables.now self.now) reference }
    {
        value_under(variables, self.values.as_slice(), reference)
    }

    /// Whether the Clock under a reference is active.
    pub(crate) fn is_ticking(&self, variables: &ByReference<Variable>, reference: u32) -> bool
        ensures { result ≡ is_ticking variables.now (values_in variables.now self.now) reference }
    {
        self.value(variables, reference) == 1
    }

    /// A fraction of a second, by the counts under two references.
    pub(crate) fn fraction_at(
        &self,
        variables: &ByReference<Variable>,
        counter: u32,
        resolution: u32,
    ) -> Fraction
        ensures { result ≡ fraction_at variables.now (values_in variables.now self.now) counter
            resolution }
    {
        Fraction {
            counter: count_of(self.value(variables, counter)),
            resolution: count_of(self.value(variables, resolution)),
        }
    }

    /// The count under a reference of its own, and the value under any other.
    pub(crate) fn count_at(&self, shape: &Shape, own: u32, reference: u32) -> i128
        ensures { result ≡ count_at own shape.now (told self.now.numbers)
            (values_in shape.now.variables self.now) reference }
    {
        if reference == own {
            i128::from(self.numbers.count)
        } else {
            self.value(&shape.variables, reference)
        }
    }

    /// What an output sees of the variable under a reference: its value where the output declares to depend on it, else
    /// what is held.
    pub(crate) fn seen_by(&self, shape: &Shape, output: u32, reference: u32) -> i128
        ensures { result ≡ seen_by shape.now (told self.now.numbers)
            (values_in shape.now.variables self.now) output reference }
    {
        if self.is_declared_at(shape, output, reference) {
            self.value(&shape.variables, reference)
        } else {
            i128::from(self.numbers.held)
        }
    }

    // Whether the output declares to depend on the variable under a reference, by the list of the mode.
    fn is_declared_at(&self, shape: &Shape, output: u32, reference: u32) -> bool
        ensures { result ≡ is_declared_at shape.now (told self.now.numbers) output reference }
    {
        let dependencies = dependencies_in(shape, self.numbers.is_initializing);
        match shape.variables.find(reference) {
            Some(variable) => declares(dependencies, output, variable),
            None => false,
        }
    }

    // Whether the state that is saved can be serialized: there is one, and its bytes are few enough.
    fn is_packable(&self, shape: &Shape) -> bool
        ensures { result ≡ is_packable shape.now (slot_in shape.now.variables self.now.saved) }
    {
        self.saved.is_full && fits_bytes(shape.variables.as_slice())
    }

    // Whether a call is answered by Error.
    fn is_refused(&self, shape: &Shape, call: &Call) -> bool
        ensures { result ≡ is_refused shape.now (slot_in shape.now.variables self.now.saved)
            call.now }
    {
        match call {
            Call::Serialize => !self.is_packable(shape),
            _ => false,
        }
    }

    /// The reply to a call.
    pub(crate) fn reply(&self, model: Model, shape: &Shape, phase: &Phase, call: &Call) -> Reply
        requires { Permitted shape.now phase.now call.now }
        ensures { result ≡ reply_of (behaviour_of model) shape.now
            (state_in shape.now.variables self.now) call.now }
    {
        if self.is_refused(shape, call) {
            Reply::Refused {
                kind: Kind::Serialize,
                status: BadStatus::Error,
            }
        } else {
            Reply::Done {
                is_warning: false,
                content: self.content(model, shape, phase, call),
            }
        }
    }

    // What a good reply to a call carries.
    fn content(&self, model: Model, shape: &Shape, phase: &Phase, call: &Call) -> Content
        requires permitted { Permitted shape.now phase.now call.now }
        requires answered { is_refused shape.now (slot_in shape.now.variables self.now.saved)
            call.now ≡ false }
        ensures { result ≡ content_of (behaviour_of model) shape.now (told self.now.numbers)
            (values_in shape.now.variables self.now) call.now }
    {
        match *call {
            Call::Instantiate { .. } => Content::Instantiate { batches: false },
            Call::EnterInitialization { .. } => Content::EnterInitialization,
            Call::ExitInitialization => Content::ExitInitialization,
            Call::EnterEvent => Content::EnterEvent,
            Call::EnterStep => Content::EnterStep,
            Call::DoStep { at, size } => step_content(
                shape.has_event_mode,
                model.asks_to_end(&shape.variables, self, size),
                step_end(phase.stop, at, size),
                model.early_end(shape, self, at, size),
            ),
            Call::Update => Content::Update {
                again: model.asks_again(&shape.variables, self),
                terminate: false,
                event_time: model.event_time(&shape.variables, self),
            },
            Call::Get { kind, reference } => Content::Get {
                word: wrapped_word(kind, model.shown_value(shape, self, reference)),
            },
            Call::Set { .. } => Content::Set,
            Call::GetClock { reference } => Content::GetClock {
                word: wrapped_word(PortType::Clock, model.shown_value(shape, self, reference)),
            },
            Call::SetClock { .. } => Content::SetClock,
            Call::GetInterval { reference } => Content::GetInterval {
                interval: model.interval(shape, self, reference),
            },
            Call::GetShift { reference } => Content::GetShift {
                shift: model.shift(shape, self, reference),
            },
            Call::Save => Content::Save,
            Call::Restore => Content::Restore,
            Call::Free => Content::Free,
            Call::Terminate => Content::Terminate,
            Call::FreeInstance => Content::FreeInstance,
            Call::Serialize => Content::Serialize {
                length: packed_size(shape.variables.as_slice()),
            },
            Call::Deserialize { .. } => Content::Deserialize,
        }
    }

    // The point of time after a call.
    fn next_point(&self, model: Model, shape: &Shape, phase: &Phase, call: &Call) -> u64
        requires { Permitted shape.now phase.now call.now }
        ensures { pos result ≡ point_after (behaviour_of model) shape.now
            (pos self.now.numbers.point) (values_in shape.now.variables self.now) call.now }
    {
        match *call {
            Call::EnterInitialization { start, .. } => start,
            Call::DoStep { at, size } => {
                let bound = step_end(phase.stop, at, size);
                model.early_end(shape, self, at, size).unwrap_or(bound)
            }
            _ => self.numbers.point,
        }
    }

    fn next_numbers(&self, model: Model, shape: &Shape, phase: &Phase, call: &Call) -> Numbers
        requires { Permitted shape.now phase.now call.now }
        ensures { told result ≡ numbers_after (behaviour_of model) shape.now (told self.now.numbers)
            (values_in shape.now.variables self.now) call.now }
    {
        Numbers {
            is_initializing: is_initializing_after(self.numbers.is_initializing, call),
            point: self.next_point(model, shape, phase, call),
            ..model.changed_numbers(shape, self, call)
        }
    }

    /// Goes on to the state after a call.
    pub(crate) fn change(&mut self, model: Model, shape: &Shape, phase: &Phase, call: &Call)
        requires permitted { Permitted shape.now phase.now call.now }
        requires room { HasRoom shape.now self.old }
        ensures state { state_in shape.now.variables self.new ≡
            after (machine_of (behaviour_of model) shape.now)
            (state_in shape.now.variables self.old) call.now }
        ensures room { HasRoom shape.now self.new }
    {
        match *call {
            Call::Get { .. }
            | Call::GetClock { .. }
            | Call::GetInterval { .. }
            | Call::GetShift { .. }
            | Call::Serialize
            | Call::Deserialize { .. } => {}
            Call::SetClock { reference } => {
                write_value(&shape.variables, &mut self.values, reference, 1);
            }
            Call::Set {
                reference,
                value,
                ..
            } => write_value(&shape.variables, &mut self.values, reference, value),
            Call::Save => self.save(),
            Call::Restore => self.restore(),
            Call::Free => self.saved.is_full = false,
            Call::Instantiate { .. }
            | Call::EnterInitialization { .. }
            | Call::ExitInitialization
            | Call::EnterEvent
            | Call::EnterStep
            | Call::DoStep { .. }
            | Call::Terminate
            | Call::FreeInstance => {
                self.numbers = self.next_numbers(model, shape, phase, call);
            }
            Call::Update => {
                self.numbers = self.next_numbers(model, shape, phase, call);
                untick(&shape.variables, self.clocks.as_slice(), &mut self.values);
            }
        }
    }

    /// Puts the bytes of the state that is saved into the room, where it can be serialized.
    pub(crate) fn serialize(&self, shape: &Shape, into: &mut Vec<u8>)
        requires state { HasRoom shape.now self.now }
        requires empty { into.old.items ≡ [] }
        requires room { 2 ^ 20 ≤ vec_capacity into.old }
        ensures bytes { into.new.items ≡
            (if is_packable shape.now (slot_in shape.now.variables self.now.saved)
            then packed shape.now.variables (saved_in shape.now.variables self.now.saved)
            else []) }
        ensures room { vec_capacity into.old ≤ vec_capacity into.new }
    {
        if self.is_packable(shape) {
            pack(&shape.variables, self.order.as_slice(), &self.saved, into);
        }
    }

    /// Fills the slot with the state of these bytes, where they are one's, and empties it where they aren't.
    pub(crate) fn deserialize(&mut self, shape: &Shape, bytes: &[u8]) -> Reply
        requires { HasRoom shape.now self.old }
        ensures reply { result ≡ reply_to_bytes (unpacked shape.now.variables bytes.now) }
        ensures state { state_in shape.now.variables self.new ≡ record
            (state_in shape.now.variables self.old)
            { slot = unpacked shape.now.variables bytes.now } }
        ensures room { HasRoom shape.now self.new }
    {
        self.saved
            .unpack(&shape.variables, self.order.as_slice(), bytes);
        if self.saved.is_full {
            Reply::Done {
                is_warning: false,
                content: Content::Deserialize,
            }
        } else {
            Reply::Refused {
                kind: Kind::Deserialize,
                status: BadStatus::Error,
            }
        }
    }

    fn save(&mut self)
        requires { length self.old.saved.values.items ≡ length self.old.values.items }
        ensures full { self.new.saved.is_full ≡ true }
        ensures kept { (self.new.saved.numbers ≡ self.old.numbers) ×
            (self.new.saved.values.items ≡ self.old.values.items) }
        ensures same { (self.new.numbers ≡ self.old.numbers) ×
            (self.new.values.items ≡ self.old.values.items) }
        ensures order { self.new.order.items ≡ self.old.order.items }
        ensures clocks { self.new.clocks.items ≡ self.old.clocks.items }
    {
        self.saved.is_full = true;
        self.saved.numbers = self.numbers;
        self.saved.values.copy_from_slice(self.values.as_slice());
    }

    fn restore(&mut self)
        requires { length self.old.saved.values.items ≡ length self.old.values.items }
        ensures numbers { self.new.numbers ≡
            (if self.old.saved.is_full then self.old.saved.numbers else self.old.numbers) }
        ensures values { self.new.values.items ≡
            (if self.old.saved.is_full then self.old.saved.values.items else
            self.old.values.items) }
        ensures same { self.new.saved ≡ self.old.saved }
        ensures order { self.new.order.items ≡ self.old.order.items }
        ensures clocks { self.new.clocks.items ≡ self.old.clocks.items }
    {
        if self.saved.is_full {
            self.numbers = self.saved.numbers;
            self.values.copy_from_slice(self.saved.values.as_slice());
        }
    }
}

/// What is told of no fraction: all of it is 0.
pub(crate) fn no_fraction() -> Fraction
    ensures { result ≡ no_fraction }
{
    Fraction {
        counter: 0,
        resolution: 0,
    }
}

// What a step answers.
fn step_content(
    has_event_mode: bool,
    terminate: bool,
    bound: u64,
    early_end: Option<u64>,
) -> Content
    ensures { result ≡ step_content has_event_mode terminate bound early_end }
{
    match early_end {
        None => Content::DoStep {
            event_needed: false,
            terminate,
            early: false,
            end: bound,
        },
        Some(end) => Content::DoStep {
            event_needed: has_event_mode,
            terminate,
            early: true,
            end,
        },
    }
}

// The stop shows that the sum fits.
fn step_end(_stop: u64, at: u64, size: u64) -> u64
    requires { at + size ≤ _stop }
    ensures { result ≡ at + size }
{
    at + size
}

/// The value under a reference, or 0 where no variable has it.
#[tactic(auto, using(crate::proofs::ValueLemmas::value_of_missing))]
pub(crate) fn value_under(
    variables: &ByReference<Variable>,
    values: &[i128],
    reference: u32,
) -> i128
    ensures { result ≡ value_of variables.now (spread variables.now values.now) reference }
{
    match variables.place_of(reference) {
        Some(place) => number_at(values, place),
        None => 0,
    }
}

fn number_at(values: &[i128], place: usize) -> i128
    ensures { result ≡ unwrap_or (slice_get values.now place) (pos 0) }
{
    values.get(place).copied().unwrap_or(0)
}

fn first_values(alloc: Global, variables: &[Variable]) -> Result<Vec<i128>, AllocError>
    ensures { IfOk result (λ values. values.items ≡ map start_of variables.now) }
{
    let mut values = Vec::with_capacity(alloc, variables.len())?;
    for variable in variables {
        values.push(variable.start.unwrap_or(0))?;
    }
    Ok(values)
}

// Writes the value under a reference.
fn write_value(variables: &ByReference<Variable>, values: &mut [i128], reference: u32, value: i128)
    requires { length values.old ≡ length variables.now }
    ensures values { spread variables.now values.new ≡ written
        (map (λ v. v.reference) variables.now) (spread variables.now values.old) reference value }
    ensures room { length values.new ≡ length values.old }
{
    match variables.place_of(reference) {
        Some(place) => put(values, place, value),
        None => {}
    }
}

// The references of the input Clocks.
fn input_clocks(alloc: Global, variables: &[Variable]) -> Result<Vec<u32>, AllocError>
    ensures { IfOk result (λ clocks. clocks.items ≡ map (λ v. v.reference)
        (filter is_input_clock variables.now)) }
{
    let mut clocks = Vec::new(alloc);
    for variable in variables {
        if is_input_clock(variable) {
            clocks.push(variable.reference)?;
        }
    }
    Ok(clocks)
}

// Makes the input Clocks, whose references these are, inactive.
fn untick(variables: &ByReference<Variable>, clocks: &[u32], values: &mut [i128])
    requires clocks { clocks.now ≡ map (λ v. v.reference) (filter is_input_clock variables.now) }
    requires room { length values.old ≡ length variables.now }
    ensures values { spread variables.now values.new ≡ all_written
        (map (λ v. v.reference) variables.now)
        (zero_at (map (λ v. v.reference) (filter is_input_clock variables.now)))
        (spread variables.now values.old) }
    ensures room { length values.new ≡ length values.old }
{
    for &reference in clocks {
        write_value(variables, values, reference, 0);
    }
}

fn is_input_clock(variable: &Variable) -> bool
    ensures { result ≡ is_input_clock variable.now }
{
    variable.is_input_port() && variable.is_clock()
}

/// Puts a value at a place.
pub(crate) fn put(values: &mut [i128], place: usize, value: i128)
    requires { place < length values.old }
    ensures { values.new ≡ set values.old place value }
{
    values[place] = value;
}

// Initialization Mode begins with EnterInitialization and ends with ExitInitialization.
fn is_initializing_after(is_initializing: bool, call: &Call) -> bool
    ensures { number_of_flag result ≡ mark_after (number_of_flag is_initializing) call.now }
{
    match *call {
        Call::EnterInitialization { .. } => true,
        Call::ExitInitialization => false,
        _ => is_initializing,
    }
}

// What the outputs depend on, in Initialization Mode or after it.
fn dependencies_in(shape: &Shape, is_initializing: bool) -> &ByReference<Dependency>
    ensures { result.now ≡ (if int_lt (pos 0) (number_of_flag is_initializing) then
        shape.now.initial_dependencies else shape.now.dependencies) }
{
    if is_initializing {
        &shape.initial_dependencies
    } else {
        &shape.dependencies
    }
}

// Whether the output declares by this list to depend on the variable.
fn declares(dependencies: &ByReference<Dependency>, output: u32, variable: &Variable) -> bool
    ensures { result ≡ option_map_or (λ d. is_known d.on variable.now)
        (dependency_at dependencies.now output) false }
{
    match dependencies.find(output) {
        Some(dependency) => is_known(&dependency.on, variable),
        None => false,
    }
}

// Whether the variable is among the knowns of an output.
fn is_known(knowns: &Knowns, variable: &Variable) -> bool
    ensures { result ≡ is_known knowns.now variable.now }
{
    match knowns {
        Knowns::AllInputs => variable.is_input_port(),
        Knowns::Listed(on) => on.as_slice().contains(&variable.reference),
    }
}
