//! One character at a time.
ghost use Rattle.std.specs.Prelude.{◌≡◌, ◌<◌, ◌^◌, ◌∷◌, [], map, Bool, true, false, IfOk, IsTrue, IsFalse};
ghost use Rattle.doc_events.specs.Pairs.{pair_of};
ghost use Rattle.doc_grammar.specs.Characters.{class, names};
ghost use Rattle.doc_grammar.specs.Grammar.{Quote, is_valued, raw_value, strict};
ghost use Rattle.doc_grammar.specs.Machine as m;
ghost use Rattle.doc_grammar.specs.Faults.{judged};
ghost use Rattle.doc_events.specs.View.{state_of, tag_name, tag_attributes, is_return, quieted, Moves, Takes, TakesPlain};
ghost use Rattle.doc_events.specs.Answers.{refused, PlaceFits};

use crate::attributes::{Attribute, Attributes};
use crate::error::DocError;
use crate::state::{Base, Place, Reader, State, Stop, Token};
use doc_grammar::{Rule, Why};
use std::alloc::{AllocError, Global};

/// A step that completes nothing.
fn quiet(step: Result<State, Stop>) -> Result<(State, Token), Stop>
    ensures { result ≡ quieted step }
{
    match step {
        Ok(state) => Ok((state, Token::Nothing)),
        Err(stop) => Err(stop),
    }
}

/// Whether a character is one of ASCII that may stand in a name.
#[tactic(auto, unfolding(doc_grammar::specs::Characters::class, doc_grammar::specs::Characters::other_class))]
fn stands_in_name(c: char) -> bool
    ensures { IsTrue result → names (class c) ≡ true }
{
    matches!(c, '0'..='9' | 'a'..='z' | 'A'..='Z' | '_' | ':' | '.' | '-')
}

/// Whether a character is one of ASCII that stands for itself in a value, and no white space.
#[tactic(auto, unfolding(doc_grammar::specs::Characters::class, doc_grammar::specs::Characters::other_class))]
fn stands_in_value(c: char) -> bool
    ensures valued { IsTrue result → (quote : Quote) → is_valued quote (class c) ≡ true }
    ensures itself { IsTrue result → (after_return : Bool) → raw_value after_return c ≡ c ∷ [] }
    ensures no_return { IsTrue result → is_return c ≡ false }
{
    matches!(c, '('..=';' | '='..='\u{7f}')
}

impl Reader {
    /// A reader that has read nothing.
    pub fn new(alloc: Global) -> Reader
        ensures { state_of result ≡ m.start }
    {
        Reader {
            state: State::Start,
            place: Place::Before,
            name: Vec::new(alloc),
            attributes: Attributes::new(alloc),
            attribute: Vec::new(alloc),
            value: Vec::new(alloc),
        }
    }

    /// The full name of the tag that was read last.
    pub fn name(&self) -> &[char]
        ensures { result.now ≡ tag_name self.now }
    {
        self.name.as_slice()
    }

    /// The attributes of the tag that was read last, in order.
    pub fn attributes(&self) -> &[Attribute]
        ensures { map pair_of result.now ≡ tag_attributes self.now }
    {
        self.attributes.as_slice()
    }

    /// Whether a document may end here.
    #[tactic(auto, using(crate::proofs::Steps::final_is))]
    pub fn is_final(&self) -> bool
        ensures yes { IsTrue result → m.Final (state_of self.now) }
        ensures no { IsFalse result → m.Final (state_of self.now) → ⊥ }
    {
        match (self.state, &self.place) {
            (State::Content, Place::Within(names)) => names.is_empty(),
            _ => false,
        }
    }

    /// One character more, and what it completes.
    pub fn take(&mut self, alloc: Global, c: char) -> Result<Token, Stop>
        ensures { Takes (m.step strict (state_of self.old) (class c) c) result self.new }
    {
        if self.take_plain(c)? {
            Ok(Token::Nothing)
        } else {
            self.take_any(alloc, c)
        }
    }

    /// Takes a character that most often comes: one more of a name or of a value. Else it stays as it is.
    fn take_plain(&mut self, c: char) -> Result<bool, AllocError>
        ensures { IfOk result (TakesPlain (m.step strict (state_of self.old) (class c) c) self.old
            self.new) }
    {
        match self.state {
            State::AttributeValue(quote, _) if stands_in_value(c) => {
                self.value.push(c)?;
                self.state = State::AttributeValue(quote, false);
                Ok(true)
            }
            State::AttributeName if stands_in_name(c) => {
                self.attribute.push(c)?;
                Ok(true)
            }
            State::TagName if stands_in_name(c) => {
                self.name.push(c)?;
                Ok(true)
            }
            _ => Ok(false),
        }
    }

    /// One character more, whatever it is, and what it completes.
    fn take_any(&mut self, alloc: Global, c: char) -> Result<Token, Stop>
        ensures { Takes (m.step strict (state_of self.old) (class c) c) result self.new }
    {
        let (state, token) = self.next(alloc, c)?;
        self.state = state;
        Ok(token)
    }

    /// The state after one character more, and what it completes.
    #[tactic(auto, using(crate::proofs::Steps::goes_moves))]
    fn next(&mut self, alloc: Global, b: char) -> Result<(State, Token), Stop>
        ensures { Moves (m.step strict (state_of self.old) (class b) b) result self.new }
    {
        match self.state {
            State::Start => quiet(self.start(alloc, b)),
            State::AfterByteOrderMark => quiet(self.after_byte_order_mark(b, Why::Plain)),
            State::DocumentTagOpen => quiet(self.document_tag_open(b)),
            State::DocumentProcessingInstruction => quiet(self.document_processing_instruction(b)),
            State::DocumentInstructionTarget => quiet(self.document_instruction_target(b)),
            State::BeforeVersion => quiet(self.before_version(b)),
            State::AfterSetting(part) => quiet(self.after_setting(part, b)),
            State::BetweenSettings(part) => quiet(self.between_settings(part, b)),
            State::SettingName(part, done) => quiet(self.setting_name(part, done, b)),
            State::AfterSettingName(part) => quiet(self.after_setting_name(part, b)),
            State::BeforeSettingValue(part) => quiet(self.before_setting_value(part, b)),
            State::StandaloneValue(quote) => quiet(self.standalone_value(quote, b)),
            State::SettingValue(saying, quote, done) => {
                quiet(self.setting_value(saying, quote, done, b))
            }
            State::DeclarationEnd => quiet(self.declaration_end(b)),
            State::Content => quiet(self.content(b)),
            State::TagOpen => quiet(self.tag_open(b)),
            State::MarkupDeclaration => quiet(self.markup_declaration(b)),
            State::CommentStart => quiet(self.comment_start(b)),
            State::Comment => quiet(self.comment(b)),
            State::CommentDash => quiet(self.comment_dash(b)),
            State::CommentEnd => quiet(self.greater(State::Content, b)),
            State::ProcessingInstruction => quiet(self.processing_instruction(b)),
            State::InstructionTarget => quiet(self.instruction_target(b)),
            State::InstructionTargetEnd => quiet(self.greater(State::Content, b)),
            State::InstructionText => quiet(self.instruction_text(b)),
            State::InstructionEnd => quiet(self.instruction_end(b)),
            State::CdataStart(done) => quiet(self.cdata_start(done, b)),
            State::CdataSection => quiet(self.cdata_section(b)),
            State::CdataSectionBracket => quiet(self.cdata_section_bracket(b)),
            State::CdataSectionEnd => quiet(self.cdata_section_end(alloc, b)),
            State::TagName => self.tag_name(alloc, b),
            State::BeforeAttributeName => self.before_attribute_name(alloc, b),
            State::AttributeName => quiet(self.attribute_name(alloc, b)),
            State::AfterAttributeName => quiet(self.after_attribute_name(b)),
            State::BeforeAttributeValue => quiet(self.before_attribute_value(b)),
            State::AttributeValue(quote, after_return) => {
                quiet(self.attribute_value(alloc, quote, after_return, b))
            }
            State::AfterAttributeValue => self.in_tag(alloc, b),
            State::SelfClosingStartTag => self.self_closing_start_tag(alloc, b),
            State::EndTagName(done) => self.end_tag_name(alloc, done, b),
            State::AfterEndTagName => self.after_end_tag_name(alloc, b),
            State::Reference(hole) => quiet(self.reference(hole, b)),
            State::ReferenceA(hole) => quiet(self.reference_a(hole, b)),
            State::NamedReference(hole, code, next, tail) => {
                quiet(self.named_reference(alloc, hole, code, next, tail, b))
            }
            State::NumericReference(hole) => quiet(self.numeric_reference(hole, b)),
            State::HexadecimalReference(hole) => quiet(self.digit(hole, Base::Sixteen, 0, b)),
            State::ReferenceDigits(hole, base, code) => {
                quiet(self.reference_digits(alloc, hole, base, code, b))
            }
        }
    }
}

/// The rule and the place, where the next byte is the first of `rest`.
fn judge(why: Why, rest: &[u8], at: usize) -> (Rule, usize)
    requires { (judged why rest.now at).1 < 2 ^ 64 }
    ensures { (result.0, result.1) ≡ judged why rest.now at }
{
    match why {
        Why::Plain => (Rule::Malformed, at),
        Why::Bang => {
            if rest.starts_with(b"DOCTYPE") {
                (Rule::Doctype, at.saturating_sub(2))
            } else {
                (Rule::Malformed, at)
            }
        }
        Why::Deep => (Rule::TooDeep, at.saturating_sub(1)),
        Why::Twice(n) => (Rule::AttributeTwice, at.saturating_sub(n)),
        Why::Partly(n) => (Rule::Malformed, at + n),
    }
}

/// The error at a character that was not taken, at this byte, which is the first of `rest`.
pub fn refusal(stop: Stop, rest: &[u8], at: usize) -> DocError
    requires { PlaceFits stop rest.now at }
    ensures { result ≡ refused stop rest.now at }
{
    match stop {
        Stop::Memory => DocError::Memory,
        Stop::Dead(why) => {
            let (rule, byte) = judge(why, rest, at);
            DocError::At { rule, byte }
        }
    }
}
