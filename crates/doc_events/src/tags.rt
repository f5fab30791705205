//! Tags.
ghost use Rattle.std.specs.Prelude.{◌≡◌, ◌∷◌, [], ◌++◌, drop, IfOk, IfErr, OnOk};
ghost use Rattle.doc_grammar.specs.Characters.{class};
ghost use Rattle.doc_grammar.specs.Grammar.{strict};
ghost use Rattle.doc_grammar.specs.Grammar as g;
ghost use Rattle.doc_grammar.specs.Machine as m;
ghost use Rattle.doc_events.specs.View.{state_in, place_of, stack_of, quote_of, unless_twice, StepTaken, Moves};
ghost use Rattle.doc_events.specs.declared.state.Stop.TheVariants.{Memory};

use crate::attributes::{Attributes, text_of};
use crate::markup::bad;
use crate::state::{Hole, Place, Quote, Reader, State, Stop, Token};
use doc_grammar::{Class, Why, class_of};
use std::alloc::{AllocError, Global};
use std::mem;

/// How many bytes two texts begin with alike.
#[tactic(auto, using(crate::proofs::CommonPrefix::common_prefix_short, crate::proofs::CommonPrefix::common_prefix_whole, crate::proofs::CommonPrefix::common_prefix_apart, crate::proofs::CommonPrefix::common_prefix_more))]
fn common_prefix_length(a: &[u8], b: &[u8]) -> usize
    ensures { result ≡ m.common_prefix_length a.now b.now }
{
    for i in 0..a.len() {
        if i >= b.len() {
            return i;
        }
        if a[i] != b[i] {
            return i;
        }
    }
    a.len()
}

/// Where only another character goes on.
pub(crate) fn partly(alloc: Global, expected: char, b: char) -> Result<Why, AllocError>
    ensures { IfOk result (λ w. w ≡ m.partly expected b) }
{
    let expected = text_of(alloc, &[expected])?;
    let found = text_of(alloc, &[b])?;
    Ok(Why::Partly(common_prefix_length(expected.as_bytes(), found.as_bytes())))
}

/// How deep an element may stand.
const DEPTH: usize = 64;

/// Whether an element may begin here.
fn may_open(place: &Place) -> bool
    ensures { result ≡ m.may_open strict (place_of place.now) }
{
    match place {
        Place::Before => true,
        Place::Within(names) => !names.is_empty() && names.len() < DEPTH,
    }
}

/// Why no element may begin here.
fn why_open(place: &Place) -> Why
    ensures { result ≡ m.why_open (place_of place.now) }
{
    match place {
        Place::Within(names) if !names.is_empty() => Why::Deep,
        _ => Why::Plain,
    }
}

/// Why a character that may stand nowhere ends all documents after `<`.
fn bad_tag_open(place: &Place, b: char) -> Why
    ensures { result ≡ m.bad_tag_open strict (place_of place.now) b }
{
    if b < '\u{80}' {
        Why::Plain
    } else if may_open(place) {
        Why::Partly(2)
    } else {
        why_open(place)
    }
}

/// Adds what a raw character of a value means.
fn push_raw(text: &mut Vec<char>, after_return: bool, b: char) -> Result<(), Stop>
    ensures ok { OnOk result (text.new.items ≡ text.old.items ++ g.raw_value after_return b) }
    ensures err { IfErr result (λ e. e ≡ Memory) }
{
    if after_return && b == '\n' {
        return Ok(());
    }
    let plain = match b {
        ' ' | '\t' | '\n' | '\r' => ' ',
        _ => b,
    };
    text.push(plain)?;
    Ok(())
}

impl Place {
    /// Goes in, where it stands before the root.
    pub(crate) fn enter(&mut self, alloc: Global)
        ensures { place_of self.new ≡ m.within (stack_of self.old) }
    {
        if let Place::Before = self {
            *self = Place::Within(Vec::new(alloc));
        }
    }

    /// An element of this name begins.
    pub(crate) fn open(&mut self, alloc: Global, name: Vec<char>) -> Result<(), AllocError>
        ensures { OnOk result (place_of self.new ≡ m.within (name.items ∷ stack_of self.old)) }
    {
        match self {
            Place::Before => {
                let mut names = Vec::new(alloc);
                names.push(name)?;
                *self = Place::Within(names);
            }
            Place::Within(names) => names.push(name)?,
        }
        Ok(())
    }
}

impl Reader {
    /// Goes back into the element around a reference or a section.
    pub(crate) fn reopen(&mut self, alloc: Global) -> Result<(), AllocError>
        ensures { OnOk result (place_of self.new.place ≡ m.within (self.old.name.items
            ∷ stack_of self.old.place)) }
    {
        let name = mem::replace(&mut self.name, Vec::new(alloc));
        self.place.open(alloc, name)
    }

    /// After `<`.
    pub(crate) fn tag_open(&mut self, b: char) -> Result<State, Stop>
        ensures { StepTaken (m.step_tag_open strict (place_of self.old.place) (class b) b) result
            self.new }
    {
        match (&mut self.place, class_of(b)) {
            (_, Class::Bang) => Ok(State::MarkupDeclaration),
            (_, Class::Question) => Ok(State::ProcessingInstruction),
            (place, Class::Letter) => {
                if may_open(place) {
                    self.name.clear();
                    self.name.push(b)?;
                    Ok(State::TagName)
                } else {
                    Err(Stop::Dead(why_open(place)))
                }
            }
            (place, Class::Bad) => Err(Stop::Dead(bad_tag_open(place, b))),
            (Place::Within(names), Class::Slash) => match names.pop() {
                None => Err(Stop::Dead(Why::Plain)),
                Some(name) => {
                    self.name = name;
                    Ok(State::EndTagName(0))
                }
            },
            _ => Err(Stop::Dead(Why::Plain)),
        }
    }

    /// After a name or a value in a tag.
    pub(crate) fn in_tag(&mut self, alloc: Global, b: char) -> Result<(State, Token), Stop>
        ensures { Moves (m.step_tag (place_of self.old.place) self.old.name.items
            self.old.attributes (class b)) result self.new }
    {
        match class_of(b) {
            Class::Blank => Ok((State::BeforeAttributeName, Token::Nothing)),
            Class::Slash => Ok((State::SelfClosingStartTag, Token::Nothing)),
            Class::Greater => {
                let name = Vec::from_slice(alloc, self.name.as_slice())?;
                self.place.open(alloc, name)?;
                Ok((State::Content, Token::Begin))
            }
            _ => Err(Stop::Dead(Why::Plain)),
        }
    }

    /// In the name of an element.
    pub(crate) fn tag_name(&mut self, alloc: Global, b: char) -> Result<(State, Token), Stop>
        ensures { Moves (m.step_tag_name (place_of self.old.place) self.old.name.items (class b) b)
            result self.new }
    {
        match class_of(b) {
            Class::Letter | Class::Digit | Class::Dash => {
                self.name.push(b)?;
                Ok((State::TagName, Token::Nothing))
            }
            Class::Bad => Err(Stop::Dead(bad(b))),
            _ => {
                let attributes = mem::replace(&mut self.attributes, Attributes::new(alloc));
                self.attributes = attributes.emptied(alloc);
                self.in_tag(alloc, b)
            }
        }
    }

    /// After white space in a tag.
    pub(crate) fn before_attribute_name(
        &mut self,
        alloc: Global,
        b: char,
    ) -> Result<(State, Token), Stop>
        ensures { Moves (m.step_before_attribute_name (place_of self.old.place)
            self.old.name.items self.old.attributes (class b) b) result self.new }
    {
        match class_of(b) {
            Class::Letter => {
                self.attribute.clear();
                self.attribute.push(b)?;
                Ok((State::AttributeName, Token::Nothing))
            }
            Class::Bad => Err(Stop::Dead(bad(b))),
            _ => self.in_tag(alloc, b),
        }
    }

    /// In the name of an attribute.
    pub(crate) fn attribute_name(&mut self, alloc: Global, b: char) -> Result<State, Stop>
        ensures { StepTaken (m.step_attribute_name strict (place_of self.old.place)
            self.old.name.items
            self.old.attributes self.old.attribute.items (class b) b) result self.new }
    {
        match class_of(b) {
            Class::Letter | Class::Digit | Class::Dash => {
                self.attribute.push(b)?;
                Ok(State::AttributeName)
            }
            Class::Blank => self.unless_twice(alloc, State::AfterAttributeName),
            Class::Equal => self.unless_twice(alloc, State::BeforeAttributeValue),
            Class::Bad => Err(Stop::Dead(bad(b))),
            _ => Err(Stop::Dead(Why::Plain)),
        }
    }

    /// What goes on after an attribute's name, which the tag doesn't have yet.
    fn unless_twice(&self, alloc: Global, next: State) -> Result<State, Stop>
        ensures { StepTaken (unless_twice self.now.attributes self.now.attribute.items
            (state_in next self.now)) result self.now }
    {
        let name = self.attribute.as_slice();
        if self.attributes.has(alloc, name)? {
            Err(Stop::Dead(Why::Twice(text_of(alloc, name)?.len())))
        } else {
            Ok(next)
        }
    }

    /// After an attribute's name.
    pub(crate) fn after_attribute_name(&self, b: char) -> Result<State, Stop>
        ensures { StepTaken (m.step_after_attribute_name (place_of self.now.place)
            self.now.name.items
            self.now.attributes self.now.attribute.items (class b)) result self.now }
    {
        match class_of(b) {
            Class::Blank => Ok(State::AfterAttributeName),
            Class::Equal => Ok(State::BeforeAttributeValue),
            _ => Err(Stop::Dead(Why::Plain)),
        }
    }

    /// After an attribute's `=`.
    pub(crate) fn before_attribute_value(&mut self, b: char) -> Result<State, Stop>
        ensures { StepTaken (m.step_before_attribute_value (place_of self.old.place)
            self.old.name.items self.old.attributes self.old.attribute.items (class b)) result
            self.new }
    {
        self.value.clear();
        match class_of(b) {
            Class::Blank => Ok(State::BeforeAttributeValue),
            Class::DoubleQuote => Ok(State::AttributeValue(Quote::Double, false)),
            Class::SingleQuote => Ok(State::AttributeValue(Quote::Single, false)),
            _ => Err(Stop::Dead(Why::Plain)),
        }
    }

    /// After an attribute's value.
    fn attribute_end(&mut self, alloc: Global) -> Result<State, Stop>
        ensures { StepTaken (m.go (m.after_attribute_value (place_of self.old.place)
            self.old.name.items (self.old.attributes
            ++ (self.old.attribute.items, self.old.value.items) ∷ []))) result self.new }
    {
        let attributes = mem::replace(&mut self.attributes, Attributes::new(alloc));
        self.attributes = attributes.with(alloc, self.attribute.as_slice(), self.value.as_slice())?;
        Ok(State::AfterAttributeValue)
    }

    /// In an attribute's value.
    pub(crate) fn attribute_value(
        &mut self,
        alloc: Global,
        quote: Quote,
        after_return: bool,
        b: char,
    ) -> Result<State, Stop>
        ensures { StepTaken (m.step_attribute_value (place_of self.old.place) self.old.name.items
            self.old.attributes self.old.attribute.items (quote_of quote) self.old.value.items
            after_return (class b) b) result self.new }
    {
        match (quote, class_of(b)) {
            (Quote::Double, Class::DoubleQuote) => self.attribute_end(alloc),
            (Quote::Single, Class::SingleQuote) => self.attribute_end(alloc),
            (_, Class::Less) => Err(Stop::Dead(Why::Plain)),
            (_, Class::Bad) => Err(Stop::Dead(bad(b))),
            (_, Class::Ampersand) => Ok(State::Reference(Hole::InValue(quote))),
            _ => {
                push_raw(&mut self.value, after_return, b)?;
                Ok(State::AttributeValue(quote, b == '\r'))
            }
        }
    }

    /// After `/` in a tag.
    pub(crate) fn self_closing_start_tag(
        &mut self,
        alloc: Global,
        b: char,
    ) -> Result<(State, Token), Stop>
        ensures { Moves (m.step strict (m.self_closing_start_tag (place_of self.old.place)
            self.old.name.items self.old.attributes) (class b) b) result self.new }
    {
        match class_of(b) {
            Class::Greater => {
                self.place.enter(alloc);
                Ok((State::Content, Token::Empty))
            }
            _ => Err(Stop::Dead(Why::Plain)),
        }
    }

    /// After an end tag's name.
    pub(crate) fn after_end_tag_name(
        &mut self,
        alloc: Global,
        b: char,
    ) -> Result<(State, Token), Stop>
        ensures { Moves (m.step_after_end_tag_name (stack_of self.old.place) (class b)) result
            self.new }
    {
        match class_of(b) {
            Class::Blank => Ok((State::AfterEndTagName, Token::Nothing)),
            Class::Greater => {
                self.place.enter(alloc);
                Ok((State::Content, Token::End))
            }
            _ => Err(Stop::Dead(Why::Plain)),
        }
    }

    /// In an end tag's name, of which `done` characters were read.
    pub(crate) fn end_tag_name(
        &mut self,
        alloc: Global,
        done: usize,
        b: char,
    ) -> Result<(State, Token), Stop>
        ensures { Moves (m.step_end_tag_name (stack_of self.old.place)
            (drop done self.old.name.items) (class b) b) result self.new }
    {
        match self.name.get(done).copied() {
            None => self.after_end_tag_name(alloc, b),
            Some(expected) => {
                if expected == b {
                    Ok((State::EndTagName(done + 1), Token::Nothing))
                } else {
                    Err(Stop::Dead(partly(alloc, expected, b)?))
                }
            }
        }
    }
}
