use crate::hosting::host_words;
use sim_base::{Items, MemFile, MemFolder, MemSink, MemSource, Text};
use std::alloc::{AllocError, Global};

// The counter's description, and three that are changed.
const COUNTER: &str =
    r#"<fmiModelDescription fmiVersion="3.0" modelName="counter" instantiationToken="{c}"><CoSimulation modelIdentifier="counter" canGetAndSetFMUState="true" canHandleVariableCommunicationStepSize="true"/><ModelVariables><Int32 name="inc" valueReference="1" causality="parameter" variability="fixed" start="2"/><Int32 name="y" valueReference="2" causality="output" variability="discrete"/></ModelVariables><ModelStructure><Output valueReference="2" dependencies=""/></ModelStructure></fmiModelDescription>"#;

// It names no built-in machine.
const UNKNOWN: &str =
    r#"<fmiModelDescription fmiVersion="3.0" modelName="pump" instantiationToken="{p}"><CoSimulation modelIdentifier="pump"/></fmiModelDescription>"#;

// It has no CoSimulation.
const BROKEN: &str =
    r#"<fmiModelDescription fmiVersion="3.0" modelName="pump" instantiationToken="{p}"></fmiModelDescription>"#;

// Frames of calls, in hexadecimal digits: the instance is `m`, its token `{c}`; from 0 to 20; the reference 2; a step from 0 by 10.
const INSTANTIATE: &str = "0100000000000000000000000000000100000000000000036d7b637d";

const ENTER: &str = "020000000000000000000000000000000000000000000014";

const EXIT: &str = "030000000000000000000000000000000000000000000000";

const GET: &str = "080500000000000200000000000000000000000000000000";

const STEP: &str = "06000000000000000000000000000000000000000000000a";

const TERMINATE: &str = "110000000000000000000000000000000000000000000000";

const FREE: &str = "120000000000000000000000000000000000000000000000";

const SAVE_WITH_REFERENCE: &str = "0e0000000000000100000000000000000000000000000000";

// Frames of replies: the value is 0, the step ends at 10, and the value is 2.
const INSTANTIATED: &str = "010000000000000000000000000000000000000000000000";

const ENTERED: &str = "020000000000000000000000000000000000000000000000";

const EXITED: &str = "030000000000000000000000000000000000000000000000";

const GOT_0: &str = "080000000000000000000000000000000000000000000000";

const STEPPED: &str = "0600000000000000000000000000000a0000000000000000";

const GOT_2: &str = "080000000000000000000000000000020000000000000000";

const TERMINATED: &str = "110000000000000000000000000000000000000000000000";

const FREED: &str = "120000000000000000000000000000000000000000000000";

// A command with what is to fail, by numbers from 0, the bytes of its input, and what it is to give. The description stands at
// `d/counter/modelDescription.xml`.
#[derive(Clone, Copy)]
struct Case {
    words: &'static str,
    description: &'static str,
    reads: &'static [u64],
    takes: &'static [u64],
    puts: &'static [u64],
    input: &'static [&'static str],
    status: u8,
    output: &'static [&'static str],
}

const EMPTY: Case = Case {
    words: "d/counter|1000",
    description: COUNTER,
    reads: &[],
    takes: &[],
    puts: &[],
    input: &[],
    status: 0,
    output: &[],
};

static WORDS: [Case; 9] = [
    EMPTY,
    Case {
        words: "d/none|1000",
        status: 3,
        ..EMPTY
    },
    Case {
        reads: &[0],
        status: 3,
        ..EMPTY
    },
    Case {
        words: "d/counter",
        status: 2,
        ..EMPTY
    },
    Case {
        words: "|1000",
        status: 2,
        ..EMPTY
    },
    Case {
        words: "d/counter|01000",
        status: 2,
        ..EMPTY
    },
    Case {
        words: "d/counter|1000|x",
        status: 2,
        ..EMPTY
    },
    Case {
        description: BROKEN,
        status: 4,
        ..EMPTY
    },
    Case {
        description: UNKNOWN,
        status: 5,
        ..EMPTY
    },
];

// With version 2: the instance is `c`; a batch of two Gets of the reference 2, one whose second Get is of no variable, and the
// beginning of one of 65 calls. Its replies: version 2 is agreed, and both values are 0.
const INSTANTIATE_2: &str = "010000000000000400000000000000010000000000000003637b637d";

const TWO_CALLS: &str = "130000000000000200000000000000000000000000000000";

const GET_NONE: &str = "080500000000000500000000000000000000000000000000";

const TOO_MANY_CALLS: &str = "130000000000004100000000000000000000000000000000";

const INSTANTIATED_2: &str = "010001000000000000000000000000000000000000000000";

const TWO_REPLIES: &str = "130000000000000200000000000000000000000000000000";

// The counter, whose states can be had as bytes.
const SERIALIZING: &str =
    r#"<fmiModelDescription fmiVersion="3.0" modelName="counter" instantiationToken="{c}"><CoSimulation modelIdentifier="counter" canGetAndSetFMUState="true" canSerializeFMUState="true" canHandleVariableCommunicationStepSize="true"/><ModelVariables><Int32 name="inc" valueReference="1" causality="parameter" variability="fixed" start="2"/><Int32 name="y" valueReference="2" causality="output" variability="discrete"/></ModelVariables><ModelStructure><Output valueReference="2" dependencies=""/></ModelStructure></fmiModelDescription>"#;

const SAVE: &str = "0e0000000000000000000000000000000000000000000000";

const RESTORE: &str = "0f0000000000000000000000000000000000000000000000";

const FREE_STATE: &str = "100000000000000000000000000000000000000000000000";

const SERIALIZE: &str = "140000000000000000000000000000000000000000000000";

// With 56 bytes, and with 55, of a state at 10 in a run to 20.
const DESERIALIZE: &str = "1500000000000038000000000000000a0000000000000014";

const DESERIALIZE_55: &str = "1500000000000037000000000000000a0000000000000014";

const STEP_ON: &str = "0600000000000000000000000000000a000000000000000a";

const SAVED: &str = "0e0000000000000000000000000000000000000000000000";

const RESTORED: &str = "0f0000000000000000000000000000000000000000000000";

const STATE_FREED: &str = "100000000000000000000000000000000000000000000000";

const SERIALIZED: &str = "140000000000003800000000000000000000000000000000";

const DESERIALIZED: &str = "150000000000000000000000000000000000000000000000";

const NO_STATE: &str = "150300000000000000000000000000000000000000000000";

const GOT_4: &str = "080000000000000000000000000000040000000000000000";

const STEPPED_ON: &str = "060000000000000000000000000000140000000000000000";

// States of the counter: the point, what is held, the count and whether it has fired; `inc` and `y` under their references.
const AT_0: &str =
    "000000000000000000000000000000000000000000000000000000000000000000000001000000000000000200000002";

const AT_0_END: &str = "0000000000000000";

const AT_10: &str =
    "000000000000000a00000000000000000000000000000002000000000000000000000001000000000000000200000002";

static RUNS: [Case; 24] = [
    // A whole run of the counter. What follows FreeInstance isn't read.
    Case {
        input: &[
            INSTANTIATE,
            ENTER,
            EXIT,
            GET,
            STEP,
            GET,
            TERMINATE,
            FREE,
            "00",
        ],
        output: &[
            INSTANTIATED,
            ENTERED,
            EXITED,
            GOT_0,
            STEPPED,
            GOT_2,
            TERMINATED,
            FREED,
        ],
        ..EMPTY
    },
    Case {
        input: &[INSTANTIATE, ENTER],
        output: &[INSTANTIATED, ENTERED],
        ..EMPTY
    },
    Case {
        input: &["00"],
        status: 1,
        ..EMPTY
    },
    // The input ends inside the token.
    Case {
        input: &["010000000000000000000000000000010000000000000003", "6d7b63"],
        status: 1,
        ..EMPTY
    },
    // A field that isn't used isn't 0.
    Case {
        input: &[INSTANTIATE, SAVE_WITH_REFERENCE],
        status: 1,
        output: &[INSTANTIATED],
        ..EMPTY
    },
    // There is no instance to be freed.
    Case {
        input: &[FREE],
        status: 6,
        ..EMPTY
    },
    Case {
        input: &[INSTANTIATE, STEP],
        status: 6,
        output: &[INSTANTIATED],
        ..EMPTY
    },
    Case {
        input: &[INSTANTIATE, ENTER],
        puts: &[1],
        status: 10,
        output: &[INSTANTIATED],
        ..EMPTY
    },
    Case {
        input: &[INSTANTIATE, ENTER],
        takes: &[2],
        status: 10,
        output: &[INSTANTIATED],
        ..EMPTY
    },
    // The machine's second.
    Case {
        words: "d/counter|1",
        input: &[INSTANTIATE, FREE],
        output: &[INSTANTIATED, FREED],
        ..EMPTY
    },
    // Version 2 is agreed where it is asked for.
    Case {
        input: &[INSTANTIATE_2],
        output: &[INSTANTIATED_2],
        ..EMPTY
    },
    Case {
        input: &[INSTANTIATE_2, ENTER, EXIT, TWO_CALLS, GET, GET, STEP, GET],
        output: &[
            INSTANTIATED_2,
            ENTERED,
            EXITED,
            TWO_REPLIES,
            GOT_0,
            GOT_0,
            STEPPED,
            GOT_2,
        ],
        ..EMPTY
    },
    // Nothing is put for a batch with a call that isn't permitted.
    Case {
        input: &[INSTANTIATE_2, ENTER, EXIT, TWO_CALLS, GET, GET_NONE],
        status: 6,
        output: &[INSTANTIATED_2, ENTERED, EXITED],
        ..EMPTY
    },
    // The input ends inside a batch.
    Case {
        input: &[INSTANTIATE_2, ENTER, EXIT, TWO_CALLS, GET],
        status: 1,
        output: &[INSTANTIATED_2, ENTERED, EXITED],
        ..EMPTY
    },
    // A call of another kind in a batch of Gets.
    Case {
        input: &[INSTANTIATE_2, ENTER, EXIT, TWO_CALLS, GET, STEP],
        status: 1,
        output: &[INSTANTIATED_2, ENTERED, EXITED],
        ..EMPTY
    },
    Case {
        input: &[INSTANTIATE_2, TOO_MANY_CALLS],
        status: 1,
        output: &[INSTANTIATED_2],
        ..EMPTY
    },
    // A state is told after the reply.
    Case {
        description: SERIALIZING,
        input: &[INSTANTIATE, ENTER, EXIT, SAVE, SERIALIZE, FREE_STATE, GET],
        output: &[
            INSTANTIATED,
            ENTERED,
            EXITED,
            SAVED,
            SERIALIZED,
            AT_0,
            AT_0_END,
            STATE_FREED,
            GOT_0,
        ],
        ..EMPTY
    },
    // One that is taken in goes on from its point.
    Case {
        description: SERIALIZING,
        input: &[
            INSTANTIATE,
            DESERIALIZE,
            AT_10,
            AT_0_END,
            RESTORE,
            FREE_STATE,
            GET,
            STEP_ON,
            GET,
        ],
        output: &[
            INSTANTIATED,
            DESERIALIZED,
            RESTORED,
            STATE_FREED,
            GOT_2,
            STEPPED_ON,
            GOT_4,
        ],
        ..EMPTY
    },
    // Bytes of no state.
    Case {
        description: SERIALIZING,
        input: &[INSTANTIATE, DESERIALIZE_55, AT_10, "00000000000000", FREE],
        output: &[INSTANTIATED, NO_STATE, FREED],
        ..EMPTY
    },
    // The input ends before the last of them.
    Case {
        description: SERIALIZING,
        input: &[INSTANTIATE, DESERIALIZE, AT_10, "00000000000000"],
        status: 1,
        output: &[INSTANTIATED],
        ..EMPTY
    },
    // A Deserialize that isn't permitted: its bytes aren't waited for.
    Case {
        input: &[INSTANTIATE, DESERIALIZE],
        status: 6,
        output: &[INSTANTIATED],
        ..EMPTY
    },
    // Nothing is saved.
    Case {
        description: SERIALIZING,
        input: &[INSTANTIATE, ENTER, EXIT, SERIALIZE],
        status: 6,
        output: &[INSTANTIATED, ENTERED, EXITED],
        ..EMPTY
    },
    // The put of the bytes of a state fails, and a take of them.
    Case {
        description: SERIALIZING,
        input: &[INSTANTIATE, ENTER, EXIT, SAVE, SERIALIZE],
        puts: &[5],
        status: 10,
        output: &[INSTANTIATED, ENTERED, EXITED, SAVED, SERIALIZED],
        ..EMPTY
    },
    Case {
        description: SERIALIZING,
        input: &[INSTANTIATE, DESERIALIZE, AT_10, AT_0_END],
        takes: &[3],
        status: 10,
        output: &[INSTANTIATED],
        ..EMPTY
    },
];

fn split_words(alloc: Global, line: &str) -> Result<Vec<String>, AllocError> {
    let mut words = Vec::new(alloc);
    for word in line.split('|') {
        words.push(String::from_str(alloc, word)?)?;
    }
    Ok(words)
}

fn digit(byte: u8) -> u8 {
    match byte {
        b'0'..=b'9' => byte - b'0',
        b'a'..=b'f' => byte - b'a' + 10,
        _ => 0,
    }
}

// The bytes of texts in hexadecimal digits.
fn bytes_of(alloc: Global, texts: &[&str]) -> Result<Vec<u8>, AllocError> {
    let mut bytes = Vec::new(alloc);
    for text in texts {
        let mut high = None;
        for byte in text.as_bytes() {
            match high {
                None => high = Some(digit(*byte)),
                Some(first) => {
                    bytes.push((u16::from(first) * 16 + u16::from(digit(*byte))).to_be_bytes()[1])?;
                    high = None;
                }
            }
        }
    }
    Ok(bytes)
}

fn make_folder(alloc: Global, case: &Case) -> Result<MemFolder, AllocError> {
    let file = MemFile {
        path: Text::from_str(alloc, "d/counter/modelDescription.xml")?,
        bytes: Items::from_vec(case.description.as_bytes().to_vec(alloc)?),
    };
    Ok(MemFolder::new(alloc, vec![in alloc; file]?, case.reads.to_vec(alloc)?))
}

fn answers(alloc: Global, case: &Case) -> Result<bool, AllocError> {
    let words = split_words(alloc, case.words)?;
    let wanted = bytes_of(alloc, case.output)?;
    let mut input = MemSource::new(bytes_of(alloc, case.input)?, case.takes.to_vec(alloc)?);
    let mut output = MemSink::with_room(alloc, 1024, 64, case.puts.to_vec(alloc)?)?;
    let mut folder = make_folder(alloc, case)?;
    let status = host_words(alloc, &words, &mut folder, &mut input, &mut output);
    Ok(status == case.status && output.bytes.as_slice() == wanted.as_slice())
}

// Whether the case has its status, and what is written.
fn is_as_told(alloc: Global, case: &Case) -> bool {
    answers(alloc, case) == Ok(true)
}

#[test]
fn words_and_descriptions_have_their_status(rt: HostRuntime) {
    let alloc = rt.alloc();
    assert_eq!(rt;
        WORDS.iter().position(|case| !is_as_told(alloc, case)),
        None
    );
}

#[test]
fn calls_get_their_replies(rt: HostRuntime) {
    let alloc = rt.alloc();
    assert_eq!(rt; RUNS.iter().position(|case| !is_as_told(alloc, case)), None);
}
