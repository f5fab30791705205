//! Rows of commands, line by line.
use crate::case::Case;
use crate::course::Course;
use crate::running::run;
use crate::texts::Texts;
use std::alloc::{AllocError, Global};
use std::thread::Threads;

/// The case so far, what it shares with others of its section, and how many commands were run and gave what isn't expected.
#[derive(Drop)]
pub(crate) struct Rows {
    shared: Texts,
    course: Course,
    case: Case,
    commands: u64,
    wrong: u64,
}

impl Rows {
    pub(crate) fn new(alloc: Global) -> Rows {
        Rows {
            shared: Texts::new(alloc),
            course: Course::new(alloc),
            case: Case::new(alloc),
            commands: 0,
            wrong: 0,
        }
    }

    /// Takes a line. It tells what a command gave that isn't expected, and a line that says nothing.
    pub(crate) fn take<R: Threads + Sync>(
        &mut self,
        rt: &R,
        alloc: Global,
        line: &str,
    ) -> Result<Vec<u8>, AllocError> {
        if line == "go" {
            return self.go(rt, alloc);
        }
        if line == "each wire" {
            return self.go_each_of_wire(rt, alloc);
        }
        if let Some(answer) = line.strip_prefix("each ") {
            return self.go_each(rt, alloc, answer);
        }
        if line.is_empty() || line.starts_with("# ") || self.take_line(alloc, line)? {
            return Ok(Vec::new(alloc));
        }
        self.wrong = self.wrong.saturating_add(1);
        Ok(format!(in alloc; "this says nothing: {line}\n")?.into_bytes())
    }

    // Whether the line says anything.
    fn take_line(&mut self, alloc: Global, line: &str) -> Result<bool, AllocError> {
        let (what, rest) = line.split_once(' ').unwrap_or((line, ""));
        match what {
            "section" => self.begin_section(alloc),
            "shared" => self.share(alloc, rest),
            "usual" => self.course.run.add(alloc, rest),
            "peer" => self.course.add_member(alloc, rest),
            "frames" => self.course.add_frames(alloc, rest),
            "round" => self.course.add_round(rest),
            "put" => self.course.add_put(rest),
            "closing" => Ok(self.course.begin_closing()),
            "case" => self.begin_case(alloc),
            "line" => self.case.exchanges.add(alloc, rest),
            "until" => self
                .case
                .exchanges
                .take_until(alloc, &self.course.run, rest),
            "fails" => self.case.failing.add(rest),
            "wire" => self.take_wire(alloc, rest),
            "words" => self.case.take_words(alloc, rest),
            "system" => self.take_system(alloc, rest),
            "file" => self.take_file(alloc, rest),
            "|" => self.take_text(rest),
            "more" => self.case.texts.push(rest),
            "times" => self.take_times(alloc, rest),
            "byte" => self.take_byte(rest),
            "bytes" => self.take_bytes(alloc, rest),
            "out" | "asked" | "hosts" => self.want(alloc, what, ""),
            "err" | "or" => self.want(alloc, what, rest),
            _ => Ok(self.take_number(what, rest)),
        }
    }

    fn begin_section(&mut self, alloc: Global) -> Result<bool, AllocError> {
        self.shared = Texts::new(alloc);
        self.course = Course::new(alloc);
        Ok(true)
    }

    fn begin_case(&mut self, alloc: Global) -> Result<bool, AllocError> {
        self.case = Case::new(alloc);
        Ok(true)
    }

    // A file that each case of the section finds: its path and its text.
    fn share(&mut self, alloc: Global, rest: &str) -> Result<bool, AllocError> {
        let (path, text) = rest.split_once(' ').unwrap_or((rest, ""));
        self.shared.begin(alloc, path, text)?;
        Ok(true)
    }

    fn take_file(&mut self, alloc: Global, rest: &str) -> Result<bool, AllocError> {
        let (path, text) = rest.split_once(' ').unwrap_or((rest, ""));
        self.case.texts.begin(alloc, path, text)?;
        Ok(true)
    }

    // The structure of a system with this inside.
    fn take_system(&mut self, alloc: Global, inside: &str) -> Result<bool, AllocError> {
        let text = format!(in alloc;
            "<SystemStructureDescription version=\"1.0\" name=\"s\"><System name=\"s\">{inside}</System></SystemStructureDescription>"
        )?;
        self.case
            .texts
            .begin(alloc, "d/SystemStructure.ssd", text.as_str())?;
        Ok(true)
    }

    // Goes on with a line.
    fn take_text(&mut self, text: &str) -> Result<bool, AllocError> {
        self.case.texts.push(text)?;
        self.case.texts.push("\n")
    }

    // `SENT COMING`, both in hexadecimal digits: the FMUs stand behind a wire.
    fn take_wire(&mut self, alloc: Global, rest: &str) -> Result<bool, AllocError> {
        let (sent, coming) = rest.split_once(' ').unwrap_or((rest, ""));
        let coming = format!(in alloc; "{coming}")?;
        let sent = format!(in alloc; "{sent}")?;
        self.case.go_over_wire(coming, sent, None);
        Ok(true)
    }

    // `COUNT TEXT`.
    fn take_times(&mut self, alloc: Global, rest: &str) -> Result<bool, AllocError> {
        let (count, text) = rest.split_once(' ').unwrap_or((rest, ""));
        match count.parse::<u64>() {
            Ok(count) => self.case.texts.repeat(alloc, count, text),
            Err(_) => Ok(false),
        }
    }

    fn take_byte(&mut self, rest: &str) -> Result<bool, AllocError> {
        match rest.parse::<u8>() {
            Ok(byte) => self.case.texts.push_byte(byte),
            Err(_) => Ok(false),
        }
    }

    // Bytes by their hexadecimal digits.
    fn take_bytes(&mut self, alloc: Global, rest: &str) -> Result<bool, AllocError> {
        let Ok(bytes) = hex::decode(alloc, rest) else {
            return Ok(false);
        };
        for byte in &bytes {
            if !self.case.texts.push_byte(*byte)? {
                return Ok(false);
            }
        }
        Ok(true)
    }

    // A line, or none, or further lines after it, on an output.
    fn want(&mut self, alloc: Global, name: &str, line: &str) -> Result<bool, AllocError> {
        self.case.texts.begin(alloc, name, line)?;
        if line.is_empty() {
            return Ok(true);
        }
        self.case.texts.push("\n")
    }

    fn take_number(&mut self, what: &str, rest: &str) -> bool {
        match (what, rest.parse::<u8>().ok(), rest.parse::<usize>().ok()) {
            ("status", Some(status), _) => self.case.status = status,
            ("room", _, Some(room)) => self.case.room = Some(room),
            ("scripts", _, Some(scripts)) => {
                self.case.peers = Some(scripts);
                self.case.is_scripted = true;
            }
            ("machines", _, Some(machines)) => self.case.peers = Some(machines),
            ("bare", _, _) => self.case.is_bare = true,
            _ => return false,
        }
        true
    }

    // Runs the command of the case.
    fn go<R: Threads + Sync>(&mut self, rt: &R, alloc: Global) -> Result<Vec<u8>, AllocError> {
        self.commands = self.commands.saturating_add(1);
        let calls = self.case.calls(alloc)?;
        let given = run(rt, alloc, &self.case, &self.shared)?;
        if given.is_wanted(self.case.status, &self.case.texts, calls.as_slice()) {
            return Ok(Vec::new(alloc));
        }
        self.wrong = self.wrong.saturating_add(1);
        given.tell(alloc, self.case.words.as_str())
    }

    // Runs the command with another answer to one call after the other: a lost one to each, a bad one to each before the closing.
    fn go_each<R: Threads + Sync>(
        &mut self,
        rt: &R,
        alloc: Global,
        answer: &str,
    ) -> Result<Vec<u8>, AllocError> {
        let whole = self.whole_trace(alloc)?;
        let mut told = Vec::new(alloc);
        for number in 0..self.course.run.len() {
            if let Some(bad) = self.course.bad_at(number) {
                if answer == "lost" || !bad.is_in_closing {
                    self.case
                        .want_bad(alloc, &self.course, number, bad, answer, whole.as_str())?;
                    told.extend_from_slice(self.go(rt, alloc)?.as_slice())?;
                }
            }
        }
        Ok(told)
    }

    // Runs the command over a wire that does all, and then with one send or receive after the other that fails.
    fn go_each_of_wire<R: Threads + Sync>(
        &mut self,
        rt: &R,
        alloc: Global,
    ) -> Result<Vec<u8>, AllocError> {
        let whole = self.whole_trace(alloc)?;
        let coming = self.course.coming(alloc)?;
        let calls = self.course.run.len();
        let sent = self.course.sent(alloc, calls)?;
        self.case.go_over_wire(coming, sent, None);
        let mut told = self.go(rt, alloc)?;
        for number in 0..calls {
            if let Some(bad) = self.course.bad_at(number) {
                self.case
                    .want_bad(alloc, &self.course, number, bad, "lost", whole.as_str())?;
                told.extend_from_slice(self.go_cut(rt, alloc, number, false)?.as_slice())?;
                told.extend_from_slice(self.go_cut(rt, alloc, number, true)?.as_slice())?;
            }
        }
        Ok(told)
    }

    // The frame of the call isn't sent, or it is and nothing is received.
    fn go_cut<R: Threads + Sync>(
        &mut self,
        rt: &R,
        alloc: Global,
        number: usize,
        is_received: bool,
    ) -> Result<Vec<u8>, AllocError> {
        let coming = self.course.coming(alloc)?;
        let sent = number.saturating_add(usize::from(is_received));
        let sent = self.course.sent(alloc, sent)?;
        let failing = (number as u64)
            .saturating_mul(2)
            .saturating_add(u64::from(is_received));
        self.case.go_over_wire(coming, sent, Some(failing));
        self.go(rt, alloc)
    }

    fn whole_trace(&self, alloc: Global) -> Result<String, AllocError> {
        let whole = self.case.texts.find("out").unwrap_or(b"");
        match str::from_utf8(whole) {
            Ok(whole) => String::from_str(alloc, whole),
            Err(_) => Ok(String::new(alloc)),
        }
    }

    /// How many commands were run, and how many lines gave what isn't expected.
    pub(crate) fn count(&self, alloc: Global) -> Result<Vec<u8>, AllocError> {
        let (commands, wrong) = (self.commands, self.wrong);
        Ok(format!(in alloc; "commands {commands} wrong {wrong}\n")?.into_bytes())
    }
}
