//! References.
ghost use Rattle.std.specs.Prelude.{◌≡◌, ◌+◌, ◌*◌, IfOk};
ghost use Rattle.doc_grammar.specs.Characters.{class, is_char};
ghost use Rattle.doc_grammar.specs.Grammar as g;
ghost use Rattle.doc_grammar.specs.Machine as m;
ghost use Rattle.doc_events.specs.View.{state_in, hole_of, tail_of, base_of, StepTaken};

use crate::state::{Base, Hole, Reader, State, Stop, Tail};
use doc_grammar::Why;
use std::alloc::{AllocError, Global};

fn is_numeral(base: Base, c: char) -> bool
    ensures { result ≡ g.is_numeral (base_of base) c }
{
    match base {
        Base::Ten => matches!(c, '0'..='9'),
        Base::Sixteen => matches!(c, '0'..='9' | 'a'..='f' | 'A'..='F'),
    }
}

/// A number with one digit more.
fn with_digit(base: Base, number: u32, c: char) -> u64
    ensures { result ≡ g.with_digit (base_of base) number c }
{
    let code = u64::from(u32::from(c));
    let digit = if code <= 57 {
        code.saturating_sub(48)
    } else if code <= 70 {
        code.saturating_sub(55)
    } else {
        code.saturating_sub(87)
    };
    match base {
        Base::Ten => 10 * u64::from(number) + digit,
        Base::Sixteen => 16 * u64::from(number) + digit,
    }
}

fn is_legal(number: u32) -> bool
    ensures { result ≡ is_char number }
{
    matches!(number, 9 | 10 | 13 | 32..=55295 | 57344..=65533 | 65536..=1_114_111)
}

/// The greatest code of a character.
const GREATEST: u64 = 1_114_111;

impl Reader {
    /// What goes on after a reference.
    fn after_reference(
        &mut self,
        alloc: Global,
        hole: Hole,
        code: char,
    ) -> Result<State, AllocError>
        ensures { IfOk result
            (λ s. state_in s self.new ≡ m.after_reference (hole_of hole self.old) code) }
    {
        match hole {
            Hole::InText => {
                self.reopen(alloc)?;
                Ok(State::Content)
            }
            Hole::InValue(quote) => {
                self.value.push(code)?;
                Ok(State::AttributeValue(quote, false))
            }
        }
    }

    /// In a reference that only these characters can end.
    pub(crate) fn named_reference(
        &mut self,
        alloc: Global,
        hole: Hole,
        code: char,
        next: char,
        tail: Tail,
        b: char,
    ) -> Result<State, Stop>
        ensures { StepTaken (m.step_named_reference (hole_of hole self.old) code next (tail_of tail)
            b)
            result self.new }
    {
        if b != next {
            return Err(Stop::Dead(Why::Plain));
        }
        match tail {
            Tail::Nothing => Ok(self.after_reference(alloc, hole, code)?),
            Tail::Semicolon => Ok(State::NamedReference(hole, code, ';', Tail::Nothing)),
            Tail::T => Ok(State::NamedReference(hole, code, 't', Tail::Semicolon)),
            Tail::Ot => Ok(State::NamedReference(hole, code, 'o', Tail::T)),
            Tail::S => Ok(State::NamedReference(hole, code, 's', Tail::Semicolon)),
        }
    }

    /// After `&`.
    pub(crate) fn reference(&self, hole: Hole, b: char) -> Result<State, Stop>
        ensures { StepTaken (m.step_reference (hole_of hole self.now) b) result self.now }
    {
        match b {
            'l' => Ok(State::NamedReference(hole, '<', 't', Tail::Semicolon)),
            'g' => Ok(State::NamedReference(hole, '>', 't', Tail::Semicolon)),
            'q' => Ok(State::NamedReference(hole, '"', 'u', Tail::Ot)),
            '#' => Ok(State::NumericReference(hole)),
            'a' => Ok(State::ReferenceA(hole)),
            _ => Err(Stop::Dead(Why::Plain)),
        }
    }

    /// After `&a`.
    pub(crate) fn reference_a(&self, hole: Hole, b: char) -> Result<State, Stop>
        ensures { StepTaken (m.step_reference_a (hole_of hole self.now) b) result self.now }
    {
        match b {
            'm' => Ok(State::NamedReference(hole, '&', 'p', Tail::Semicolon)),
            'p' => Ok(State::NamedReference(hole, '\'', 'o', Tail::S)),
            _ => Err(Stop::Dead(Why::Plain)),
        }
    }

    /// One digit more, where some further digits can make a character.
    pub(crate) fn digit(&self, hole: Hole, base: Base, number: u32, b: char) -> Result<State, Stop>
        ensures { StepTaken (m.step_digit (hole_of hole self.now) (base_of base) number b) result
            self.now }
    {
        if !is_numeral(base, b) {
            return Err(Stop::Dead(Why::Plain));
        }
        let more = with_digit(base, number, b);
        if more <= GREATEST {
            Ok(State::ReferenceDigits(hole, base, more as u32))
        } else {
            Err(Stop::Dead(Why::Plain))
        }
    }

    /// After `&#`.
    pub(crate) fn numeric_reference(&self, hole: Hole, b: char) -> Result<State, Stop>
        ensures { StepTaken (m.step_numeric_reference (hole_of hole self.now) b) result self.now }
    {
        if b == 'x' {
            Ok(State::HexadecimalReference(hole))
        } else {
            self.digit(hole, Base::Ten, 0, b)
        }
    }

    /// In the digits of a reference.
    pub(crate) fn reference_digits(
        &mut self,
        alloc: Global,
        hole: Hole,
        base: Base,
        number: u32,
        b: char,
    ) -> Result<State, Stop>
        ensures { StepTaken (m.step_reference_digits (hole_of hole self.old) (base_of base) number
            b)
            result self.new }
    {
        if b != ';' {
            return self.digit(hole, base, number, b);
        }
        if !is_legal(number) {
            return Err(Stop::Dead(Why::Plain));
        }
        match char::from_u32(number) {
            Some(code) => Ok(self.after_reference(alloc, hole, code)?),
            None => Err(Stop::Dead(Why::Plain)),
        }
    }
}
