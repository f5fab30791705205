//! Between the tokens, and in comments, processing instructions and CDATA sections.
ghost use Rattle.std.specs.Prelude.{◌≡◌, ◌+◌, ◌∷◌, [], drop, MatchOption, not};
ghost use Rattle.doc_grammar.specs.Characters.{class};
ghost use Rattle.doc_grammar.specs.Grammar.{strict, is_xml};
ghost use Rattle.doc_grammar.specs.Machine as m;
ghost use Rattle.doc_events.specs.View.{state_in, place_of, stack_of, StepTaken, cdata_start_from, cdata};
ghost use Rattle.doc_grammar.specs.declared.reasons.Why.TheVariants.{Plain};

use crate::state::{Hole, Place, Reader, State, Stop};
use doc_grammar::{Class, Why, class_of};
use std::alloc::Global;

/// Why a character that may stand nowhere ends all documents, where a letter may stand.
pub(crate) fn bad(b: char) -> Why
    ensures { result ≡ m.bad b }
{
    if b >= '\u{80}' {
        Why::Partly(2)
    } else {
        Why::Plain
    }
}

/// The character that is to come in a text of which so many were read.
pub(crate) fn next_of(text: &[char], done: usize) -> Option<char>
    ensures { MatchOption result (drop done text.now ≡ [])
        (λ c. drop done text.now ≡ c ∷ drop (done + 1) text.now) }
{
    text.get(done).copied()
}

/// Whether a name is `xml`, in any case.
pub(crate) fn is_any_xml(name: &[char]) -> bool
    ensures { result ≡ is_xml name.now }
{
    match name {
        ['x' | 'X', 'm' | 'M', 'l' | 'L'] => true,
        _ => false,
    }
}

static CDATA: [char; 6] = ['C', 'D', 'A', 'T', 'A', '['];

impl Reader {
    /// Where only one character goes on.
    pub(crate) fn exactly(&self, expected: char, b: char, then: State) -> Result<State, Stop>
        ensures { StepTaken (m.exactly expected b (state_in then self.now)) result self.now }
    {
        if b == expected {
            Ok(then)
        } else {
            Err(Stop::Dead(Why::Plain))
        }
    }

    /// Where only `>` goes on.
    pub(crate) fn greater(&self, then: State, b: char) -> Result<State, Stop>
        ensures { StepTaken (m.step_greater (class b) (m.go (state_in then self.now))) result
            self.now }
    {
        match class_of(b) {
            Class::Greater => Ok(then),
            _ => Err(Stop::Dead(Why::Plain)),
        }
    }

    /// Between the tokens.
    pub(crate) fn content(&mut self, b: char) -> Result<State, Stop>
        ensures { StepTaken (m.step_content (place_of self.old.place) (class b) b) result self.new }
    {
        match (&mut self.place, class_of(b)) {
            (_, Class::Less) => Ok(State::TagOpen),
            (_, Class::Blank) => Ok(State::Content),
            (Place::Before, _) => Err(Stop::Dead(Why::Plain)),
            (Place::Within(names), Class::Ampersand) => match names.pop() {
                None => Err(Stop::Dead(Why::Plain)),
                Some(name) => {
                    self.name = name;
                    Ok(State::Reference(Hole::InText))
                }
            },
            (Place::Within(names), Class::Bad) => {
                if names.is_empty() {
                    Err(Stop::Dead(Why::Plain))
                } else {
                    Err(Stop::Dead(bad(b)))
                }
            }
            (Place::Within(names), _) => {
                if names.is_empty() {
                    Err(Stop::Dead(Why::Plain))
                } else {
                    Ok(State::Content)
                }
            }
        }
    }

    /// After `<!`.
    pub(crate) fn markup_declaration(&mut self, b: char) -> Result<State, Stop>
        ensures { StepTaken (m.step_markup_declaration (place_of self.old.place) (class b)) result
            self.new }
    {
        match (&mut self.place, class_of(b)) {
            (_, Class::Dash) => Ok(State::CommentStart),
            (Place::Within(names), Class::OpenBracket) => match names.pop() {
                None => Err(Stop::Dead(Why::Bang)),
                Some(name) => {
                    self.name = name;
                    Ok(State::CdataStart(0))
                }
            },
            _ => Err(Stop::Dead(Why::Bang)),
        }
    }

    /// After `<!-`.
    pub(crate) fn comment_start(&self, b: char) -> Result<State, Stop>
        ensures { StepTaken (m.step_dash (class b) (m.comment (place_of self.now.place))) result
            self.now }
    {
        match class_of(b) {
            Class::Dash => Ok(State::Comment),
            _ => Err(Stop::Dead(Why::Plain)),
        }
    }

    /// In a comment.
    pub(crate) fn comment(&self, b: char) -> Result<State, Stop>
        ensures { StepTaken (m.step_comment (place_of self.now.place) (class b) b) result self.now }
    {
        match class_of(b) {
            Class::Dash => Ok(State::CommentDash),
            Class::Bad => Err(Stop::Dead(bad(b))),
            _ => Ok(State::Comment),
        }
    }

    /// After a dash in a comment.
    pub(crate) fn comment_dash(&self, b: char) -> Result<State, Stop>
        ensures { StepTaken (m.step_comment_dash (place_of self.now.place) (class b) b) result
            self.now }
    {
        match class_of(b) {
            Class::Dash => Ok(State::CommentEnd),
            Class::Bad => Err(Stop::Dead(bad(b))),
            _ => Ok(State::Comment),
        }
    }

    /// After `<?`.
    pub(crate) fn processing_instruction(&mut self, b: char) -> Result<State, Stop>
        ensures { StepTaken (m.step_processing_instruction (place_of self.old.place) (class b) b)
            result
            self.new }
    {
        match class_of(b) {
            Class::Letter => {
                self.name.clear();
                self.name.push(b)?;
                Ok(State::InstructionTarget)
            }
            Class::Bad => Err(Stop::Dead(bad(b))),
            _ => Err(Stop::Dead(Why::Plain)),
        }
    }

    /// In the target of a processing instruction.
    pub(crate) fn instruction_target(&mut self, b: char) -> Result<State, Stop>
        ensures { StepTaken (m.step_instruction_target (place_of self.old.place) self.old.name.items
            (class b) b) result self.new }
    {
        match class_of(b) {
            Class::Letter | Class::Digit | Class::Dash => {
                self.name.push(b)?;
                Ok(State::InstructionTarget)
            }
            Class::Blank => self.unless_xml(State::InstructionText),
            Class::Question => self.unless_xml(State::InstructionTargetEnd),
            Class::Bad => Err(Stop::Dead(bad(b))),
            _ => Err(Stop::Dead(Why::Plain)),
        }
    }

    /// What goes on after a target, which is not `xml`.
    pub(crate) fn unless_xml(&self, then: State) -> Result<State, Stop>
        ensures { StepTaken (m.guard Plain (not (is_xml self.now.name.items))
            (state_in then self.now))
            result self.now }
    {
        if is_any_xml(self.name.as_slice()) {
            Err(Stop::Dead(Why::Plain))
        } else {
            Ok(then)
        }
    }

    /// After the target of a processing instruction.
    pub(crate) fn instruction_text(&self, b: char) -> Result<State, Stop>
        ensures { StepTaken (m.step_instruction_text (place_of self.now.place) (class b) b) result
            self.now }
    {
        match class_of(b) {
            Class::Question => Ok(State::InstructionEnd),
            Class::Bad => Err(Stop::Dead(bad(b))),
            _ => Ok(State::InstructionText),
        }
    }

    /// After a `?` in a processing instruction.
    pub(crate) fn instruction_end(&self, b: char) -> Result<State, Stop>
        ensures { StepTaken (m.step_instruction_end (place_of self.now.place) (class b) b) result
            self.now }
    {
        match class_of(b) {
            Class::Greater => Ok(State::Content),
            Class::Question => Ok(State::InstructionEnd),
            Class::Bad => Err(Stop::Dead(bad(b))),
            _ => Ok(State::InstructionText),
        }
    }

    /// In `CDATA[`, of which `done` characters were read.
    pub(crate) fn cdata_start(&self, done: usize, b: char) -> Result<State, Stop>
        ensures { StepTaken (m.step strict (cdata_start_from self.now.name.items
            (stack_of self.now.place) (drop done cdata)) (class b) b) result self.now }
    {
        match next_of(&CDATA, done) {
            None => self.cdata_section(b),
            Some(expected) => {
                self.exactly(expected, b, State::CdataStart(done.saturating_add(1)))
            }
        }
    }

    /// In a CDATA section.
    pub(crate) fn cdata_section(&self, b: char) -> Result<State, Stop>
        ensures { StepTaken (m.step_cdata_section self.now.name.items (stack_of self.now.place)
            (class b) b) result self.now }
    {
        match class_of(b) {
            Class::CloseBracket => Ok(State::CdataSectionBracket),
            Class::Bad => Err(Stop::Dead(bad(b))),
            _ => Ok(State::CdataSection),
        }
    }

    /// After `]` in a CDATA section.
    pub(crate) fn cdata_section_bracket(&self, b: char) -> Result<State, Stop>
        ensures { StepTaken (m.step_cdata_section_bracket self.now.name.items
            (stack_of self.now.place)
            (class b) b) result self.now }
    {
        match class_of(b) {
            Class::CloseBracket => Ok(State::CdataSectionEnd),
            Class::Bad => Err(Stop::Dead(bad(b))),
            _ => Ok(State::CdataSection),
        }
    }

    /// After `]]` in a CDATA section.
    pub(crate) fn cdata_section_end(&mut self, alloc: Global, b: char) -> Result<State, Stop>
        ensures { StepTaken (m.step_cdata_section_end self.old.name.items (stack_of self.old.place)
            (class b) b) result self.new }
    {
        match class_of(b) {
            Class::CloseBracket => Ok(State::CdataSectionEnd),
            Class::Greater => {
                self.reopen(alloc)?;
                Ok(State::Content)
            }
            Class::Bad => Err(Stop::Dead(bad(b))),
            _ => Ok(State::CdataSection),
        }
    }
}
