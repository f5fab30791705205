//! The calls that scripts are to get, with their answers.
use crate::answers::{Answer, answer_of};
use bench_fmus::Scripts;
use sim_base::Items;
use std::alloc::{AllocError, Global};

/// A call that a component's script is to get, as it is printed, and what it answers: nothing past the end of its list. With
/// `-` in place of the call it is an answer that nothing asks for.
#[derive(Drop)]
pub(crate) struct Exchanged {
    pub(crate) component: usize,
    pub(crate) call: String,
    answer: Option<Answer>,
}

impl Exchanged {
    fn copy(&self, alloc: Global, answer: Option<Answer>) -> Result<Exchanged, AllocError> {
        Ok(Exchanged {
            component: self.component,
            call: String::from_str(alloc, self.call.as_str())?,
            answer,
        })
    }
}

// What a script answers, or nothing where the words say none.
fn read_answer(text: &str) -> Option<Option<Answer>> {
    if text == "none" {
        return Some(None);
    }
    Some(Some(answer_of(text)?))
}

/// The exchanges of a run, in order.
#[derive(Drop)]
pub(crate) struct Exchanges {
    list: Vec<Exchanged>,
}

impl Exchanges {
    pub(crate) fn new(alloc: Global) -> Exchanges {
        Exchanges {
            list: Vec::new(alloc),
        }
    }

    /// Adds `COMPONENT CALL = ANSWER`.
    pub(crate) fn add(&mut self, alloc: Global, line: &str) -> Result<bool, AllocError> {
        let (component, rest) = line.split_once(' ').unwrap_or((line, ""));
        let (call, answer) = rest.split_once(" = ").unwrap_or((rest, "none"));
        match (component.parse::<usize>().ok(), read_answer(answer)) {
            (Some(component), Some(answer)) => self.push(alloc, component, call, answer),
            _ => Ok(false),
        }
    }

    fn push(
        &mut self,
        alloc: Global,
        component: usize,
        call: &str,
        answer: Option<Answer>,
    ) -> Result<bool, AllocError> {
        let call = String::from_str(alloc, call)?;
        self.list.push(Exchanged {
            component,
            call,
            answer,
        })?;
        Ok(true)
    }

    /// Takes the first exchanges of another run, and one more with this answer: `COUNT ANSWER`.
    pub(crate) fn take_until(
        &mut self,
        alloc: Global,
        run: &Exchanges,
        line: &str,
    ) -> Result<bool, AllocError> {
        let (count, answer) = line.split_once(' ').unwrap_or((line, "none"));
        match (count.parse::<usize>().ok(), read_answer(answer)) {
            (Some(count), Some(answer)) => self.take(alloc, run, count, answer),
            _ => Ok(false),
        }
    }

    fn take(
        &mut self,
        alloc: Global,
        run: &Exchanges,
        count: usize,
        answer: Option<Answer>,
    ) -> Result<bool, AllocError> {
        for place in 0..count {
            self.push_usual(alloc, run, place)?;
        }
        self.push_from(alloc, run, count, answer)?;
        Ok(count < run.list.len())
    }

    /// Adds an exchange of a run, where it has one with this number.
    pub(crate) fn push_usual(
        &mut self,
        alloc: Global,
        run: &Exchanges,
        number: usize,
    ) -> Result<(), AllocError> {
        match run.get(number) {
            Some(usual) => self.push_from(alloc, run, number, usual.answer),
            None => Ok(()),
        }
    }

    /// Adds an exchange of a run with this answer.
    pub(crate) fn push_from(
        &mut self,
        alloc: Global,
        run: &Exchanges,
        number: usize,
        answer: Option<Answer>,
    ) -> Result<(), AllocError> {
        match run.get(number) {
            Some(usual) => self.list.push(usual.copy(alloc, answer)?)?,
            None => {}
        }
        Ok(())
    }

    /// Adds a call that has nothing but a name, answered well.
    pub(crate) fn push_good(
        &mut self,
        alloc: Global,
        component: usize,
        name: &str,
    ) -> Result<bool, AllocError> {
        self.push(alloc, component, name, answer_of(name))
    }

    /// How many exchanges there are.
    pub(crate) fn len(&self) -> usize {
        self.list.len()
    }

    /// The exchange with this number.
    pub(crate) fn get(&self, number: usize) -> Option<&Exchanged> {
        self.list.get(number)
    }

    /// The component that is called there.
    pub(crate) fn component(&self, number: usize) -> Option<usize> {
        match self.get(number) {
            Some(exchange) => Some(exchange.component),
            None => None,
        }
    }

    /// How many calls a component got before the exchange with this number.
    pub(crate) fn calls_before(&self, component: usize, number: usize) -> u32 {
        let mut count: u32 = 0;
        for place in 0..number {
            if self.component(place) == Some(component) {
                count = count.saturating_add(1);
            }
        }
        count
    }

    fn answers_of(&self, alloc: Global, component: usize) -> Result<Items<Answer>, AllocError> {
        let mut answers = Vec::new(alloc);
        for exchange in &self.list {
            if let (true, Some(answer)) = (exchange.component == component, exchange.answer) {
                answers.push(answer)?;
            }
        }
        Ok(Items::from_vec(answers))
    }

    /// A script for each of so many components, with the answers to its calls.
    pub(crate) fn scripts(&self, alloc: Global, components: usize) -> Result<Scripts, AllocError> {
        let mut lists = Vec::new(alloc);
        for component in 0..components {
            let answers = self.answers_of(alloc, component)?;
            lists.push(answers)?;
        }
        Ok(Scripts::new(alloc, lists, Vec::new(alloc)))
    }

    fn tell_calls(
        &self,
        alloc: Global,
        component: usize,
        told: &mut Vec<u8>,
    ) -> Result<(), AllocError> {
        for exchange in &self.list {
            if exchange.component == component && exchange.call.as_str() != "-" {
                tell_call(alloc, component, exchange.call.as_str(), told)?;
            }
        }
        Ok(())
    }

    /// How many scripts there are, and the calls that they are to get, each on a line.
    pub(crate) fn calls(&self, alloc: Global, components: usize) -> Result<Vec<u8>, AllocError> {
        let mut told = Vec::new(alloc);
        tell_count(alloc, components, &mut told)?;
        for component in 0..components {
            self.tell_calls(alloc, component, &mut told)?;
        }
        Ok(told)
    }
}

/// Tells how many scripts there are, on a line.
pub(crate) fn tell_count(
    alloc: Global,
    count: usize,
    told: &mut Vec<u8>,
) -> Result<(), AllocError> {
    told.extend_from_slice(format!(in alloc; "scripts {count}\n")?.as_bytes())
}

/// Tells a call of a component, on a line.
pub(crate) fn tell_call(
    alloc: Global,
    component: usize,
    call: &str,
    told: &mut Vec<u8>,
) -> Result<(), AllocError> {
    told.extend_from_slice(format!(in alloc; "{component} {call}\n")?.as_bytes())
}
