//! A whole run, and what has to follow where one of its answers is another.
use crate::answers::{Answer, answer_of};
use crate::exchanges::Exchanges;
use std::alloc::{AllocError, Global};

/// An FMU: the name of its component, and its source.
#[derive(Drop)]
struct Member {
    name: String,
    source: String,
}

/// The exchanges that one round makes, by their places.
#[derive(Clone, Copy)]
struct Round {
    from: usize,
    to: usize,
}

/// From an exchange on so many lines of the trace are put, and a fault ends the trace at this point.
#[derive(Clone, Copy)]
struct Put {
    from: usize,
    lines: usize,
    point: u64,
}

/// The frames of a call and of its reply, as hexadecimal digits.
#[derive(Drop)]
struct Frames {
    call: String,
    reply: String,
}

/// The exchanges of a whole run, in order, and what is to be known of it.
#[derive(Drop)]
pub(crate) struct Course {
    pub(crate) run: Exchanges,
    /// Those of its frames, where it is to go over a wire.
    frames: Vec<Frames>,
    members: Vec<Member>,
    rounds: Vec<Round>,
    puts: Vec<Put>,
    closing: Option<usize>,
}

/// A call that gets another answer.
#[derive(Clone, Copy)]
pub(crate) struct Bad<'a> {
    pub(crate) component: usize,
    /// How many calls its component got before.
    pub(crate) earlier: u32,
    pub(crate) name: &'a str,
    pub(crate) is_in_closing: bool,
}

/// Where an FMU stands, by its calls that were answered well.
#[derive(Clone, Copy)]
struct Standing {
    is_made: bool,
    is_running: bool,
    is_saved: bool,
}

impl Standing {
    fn new() -> Standing {
        Standing {
            is_made: false,
            is_running: false,
            is_saved: false,
        }
    }

    fn take(&mut self, name: &str) {
        match name {
            "Instantiate" => self.is_made = true,
            "ExitInitialization" | "Restore" => self.is_running = true,
            "Save" | "Deserialize" => self.is_saved = true,
            "Free" => self.is_saved = false,
            _ => {}
        }
    }

    // What closes it.
    fn close(
        self,
        alloc: Global,
        component: usize,
        exchanges: &mut Exchanges,
    ) -> Result<(), AllocError> {
        if self.is_saved {
            exchanges.push_good(alloc, component, "Free")?;
        }
        if self.is_running {
            exchanges.push_good(alloc, component, "Terminate")?;
        }
        if self.is_made {
            exchanges.push_good(alloc, component, "FreeInstance")?;
        }
        Ok(())
    }
}

/// The name of a call, as it is printed.
fn name_of(call: &str) -> &str {
    let (name, _) = call.split_once(' ').unwrap_or((call, ""));
    name
}

impl Course {
    pub(crate) fn new(alloc: Global) -> Course {
        Course {
            run: Exchanges::new(alloc),
            frames: Vec::new(alloc),
            members: Vec::new(alloc),
            rounds: Vec::new(alloc),
            puts: Vec::new(alloc),
            closing: None,
        }
    }

    /// Adds `NAME SOURCE`, the next component.
    pub(crate) fn add_member(&mut self, alloc: Global, rest: &str) -> Result<bool, AllocError> {
        let (name, source) = rest.split_once(' ').unwrap_or((rest, rest));
        let name = String::from_str(alloc, name)?;
        let source = String::from_str(alloc, source)?;
        self.members.push(Member { name, source })?;
        Ok(true)
    }

    /// The next exchanges, `COUNT` of them, are made by one round.
    pub(crate) fn add_round(&mut self, count: &str) -> Result<bool, AllocError> {
        let from = self.run.len();
        let Ok(count) = count.parse::<usize>() else {
            return Ok(false);
        };
        let to = from.saturating_add(count);
        self.rounds.push(Round { from, to })?;
        Ok(true)
    }

    /// From here on `LINES POINT`.
    pub(crate) fn add_put(&mut self, rest: &str) -> Result<bool, AllocError> {
        let from = self.run.len();
        let (lines, point) = rest.split_once(' ').unwrap_or((rest, ""));
        match (lines.parse::<usize>(), point.parse::<u64>()) {
            (Ok(lines), Ok(point)) => self.puts.push(Put { from, lines, point })?,
            _ => return Ok(false),
        }
        Ok(true)
    }

    /// Adds `CALL REPLY`, the frames of the next exchange.
    pub(crate) fn add_frames(&mut self, alloc: Global, rest: &str) -> Result<bool, AllocError> {
        let (call, reply) = rest.split_once(' ').unwrap_or((rest, ""));
        let call = String::from_str(alloc, call)?;
        let reply = String::from_str(alloc, reply)?;
        self.frames.push(Frames { call, reply })?;
        Ok(true)
    }

    /// The digits of the frames of the first calls.
    pub(crate) fn sent(&self, alloc: Global, calls: usize) -> Result<String, AllocError> {
        let mut sent = String::new(alloc);
        for place in 0..calls {
            if place < self.frames.len() {
                sent.push_str(self.frames[place].call.as_str())?;
            }
        }
        Ok(sent)
    }

    /// The digits of the frames of all replies.
    pub(crate) fn coming(&self, alloc: Global) -> Result<String, AllocError> {
        let mut coming = String::new(alloc);
        for frames in &self.frames {
            coming.push_str(frames.reply.as_str())?;
        }
        Ok(coming)
    }

    /// The closing begins here.
    pub(crate) fn begin_closing(&mut self) -> bool {
        self.closing = Some(self.run.len());
        true
    }

    /// The call with this number.
    pub(crate) fn bad_at(&self, number: usize) -> Option<Bad<'_>> {
        let exchange = self.run.get(number)?;
        let earlier = self.run.calls_before(exchange.component, number);
        let is_in_closing = match self.closing {
            Some(closing) => closing <= number,
            None => false,
        };
        Some(Bad {
            component: exchange.component,
            earlier,
            name: name_of(exchange.call.as_str()),
            is_in_closing,
        })
    }

    fn name(&self, component: usize) -> &str {
        match self.members.get(component) {
            Some(member) => member.name.as_str(),
            None => "",
        }
    }

    fn are_siblings(&self, one: usize, other: usize) -> bool {
        match (self.members.get(one), self.members.get(other)) {
            (Some(one), Some(other)) => one.source.as_str() == other.source.as_str(),
            _ => false,
        }
    }

    // The end of the round in which an exchange is made, or of the exchange.
    fn round_end(&self, number: usize) -> usize {
        let mut end = number.saturating_add(1);
        for round in &self.rounds {
            if round.from <= number && number < round.to {
                end = round.to;
            }
        }
        end
    }

    // Where an FMU stands after exchanges, the bad one aside.
    fn standing(&self, component: usize, number: usize, end: usize) -> Standing {
        let mut standing = Standing::new();
        for place in 0..end {
            if let Some(exchange) = self.run.get(place) {
                if place != number && exchange.component == component {
                    standing.take(name_of(exchange.call.as_str()));
                }
            }
        }
        standing
    }

    // What closes the FMU that gave the bad answer.
    fn close_bad(
        &self,
        alloc: Global,
        bad: Bad<'_>,
        answer: &str,
        standing: Standing,
        exchanges: &mut Exchanges,
    ) -> Result<(), AllocError> {
        match (answer, bad.name) {
            (_, "Instantiate") | ("Discard", "Free") => Ok(()),
            ("Discard", _) => standing.close(alloc, bad.component, exchanges),
            ("Error", _) => {
                exchanges.push_good(alloc, bad.component, "FreeInstance")?;
                Ok(())
            }
            _ => Ok(()),
        }
    }

    fn close_all(
        &self,
        alloc: Global,
        number: usize,
        bad: Bad<'_>,
        answer: &str,
        exchanges: &mut Exchanges,
    ) -> Result<(), AllocError> {
        let end = self.round_end(number);
        for component in 0..self.members.len() {
            let standing = self.standing(component, number, end);
            if component == bad.component {
                self.close_bad(alloc, bad, answer, standing, exchanges)?;
            } else if answer != "Fatal" || !self.are_siblings(component, bad.component) {
                standing.close(alloc, component, exchanges)?;
            }
        }
        Ok(())
    }

    // The exchanges where one in the closing gets another answer: its FMU gets no further call.
    fn closing_with(
        &self,
        alloc: Global,
        number: usize,
        bad: Bad<'_>,
        given: Option<Answer>,
    ) -> Result<Exchanges, AllocError> {
        let mut exchanges = Exchanges::new(alloc);
        for place in 0..self.run.len() {
            if place == number {
                exchanges.push_from(alloc, &self.run, place, given)?;
            } else if place < number || self.run.component(place) != Some(bad.component) {
                exchanges.push_usual(alloc, &self.run, place)?;
            }
        }
        Ok(exchanges)
    }

    /// The exchanges where the one with this number gets another answer.
    pub(crate) fn with_answer(
        &self,
        alloc: Global,
        number: usize,
        bad: Bad<'_>,
        answer: &str,
    ) -> Result<Exchanges, AllocError> {
        let given = answer_to(alloc, bad.name, answer)?;
        if bad.is_in_closing {
            return self.closing_with(alloc, number, bad, given);
        }
        let mut exchanges = Exchanges::new(alloc);
        for place in 0..self.round_end(number) {
            if place == number {
                exchanges.push_from(alloc, &self.run, place, given)?;
            } else {
                exchanges.push_usual(alloc, &self.run, place)?;
            }
        }
        self.close_all(alloc, number, bad, answer, &mut exchanges)?;
        Ok(exchanges)
    }

    // What is put when the exchange with this number is made.
    fn put_at(&self, number: usize) -> Option<Put> {
        let mut found = None;
        for put in &self.puts {
            if put.from <= number {
                found = Some(*put);
            }
        }
        found
    }

    /// What is put of a whole trace where that exchange gets another answer.
    pub(crate) fn put_until(
        &self,
        alloc: Global,
        number: usize,
        whole: &str,
    ) -> Result<String, AllocError> {
        let mut text = String::new(alloc);
        if let Some(put) = self.put_at(number) {
            push_lines(&mut text, whole, put.lines)?;
            let point = put.point;
            text.push_str(format!(in alloc; "end fault {point}\n")?.as_str())?;
        }
        Ok(text)
    }

    /// The line that tells it.
    pub(crate) fn line(
        &self,
        alloc: Global,
        bad: Bad<'_>,
        answer: &str,
    ) -> Result<String, AllocError> {
        let component = self.name(bad.component);
        let name = bad.name;
        match answer {
            "lost" => format!(in alloc; "link {component} {name}"),
            _ => format!(in alloc; "fmu {component} {name} {answer}"),
        }
    }
}

// Adds the first lines of a text.
fn push_lines(text: &mut String, whole: &str, count: usize) -> Result<(), AllocError> {
    let mut left = count;
    for line in whole.split('\n') {
        if left > 0 {
            text.push_str(line)?;
            text.push('\n')?;
            left -= 1;
        }
    }
    Ok(())
}

// The answer to a call of this name.
fn answer_to(alloc: Global, name: &str, answer: &str) -> Result<Option<Answer>, AllocError> {
    if answer == "lost" {
        return Ok(answer_of("lost"));
    }
    Ok(answer_of(format!(in alloc; "{name} {answer}")?.as_str()))
}
