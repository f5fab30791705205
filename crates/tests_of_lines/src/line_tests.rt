//! Lines of arguments: what they ask for, and those that are none.
use command_line::{CommandLine, Request, WordsFault, read_words};
use std::alloc::{AllocError, Global};
use system_model::Plan;

// What arguments ask for: the directory, and the resolution, start, step, stop and limit; of a check the resolution alone. Of
// the run of a generated system the seed, and the numbers of components and workers; of a run that is to be held the point,
// too.
#[derive(Clone, Copy, PartialEq)]
enum Asked<'a> {
    One(&'a str, [u64; 5]),
    Run(&'a str, [u64; 5]),
    Check(&'a str, u64),
    TraceCheck(&'a str, &'a str),
    Bench(u32, usize, u32),
    Checkpoint(&'a str, [u64; 5], u64),
    Resume(&'a str, &'a str),
}

use Asked::{Bench, Check, Checkpoint, One, Resume, Run, TraceCheck};

// Arguments between bars, and what they ask for.
static LINES: [(&str, Asked<'static>); 46] = [
    // All is right.
    (
        "one|d|--resolution|10|--step|3|--stop|7",
        One("d", [10, 0, 3, 7, 100]),
    ),
    (
        "one|d|--resolution|10|--step|3|--stop|7|--start|5",
        One("d", [10, 5, 3, 7, 100]),
    ),
    (
        "one|counter|--resolution|1000000000|--step|10|--stop|100",
        One("counter", [1000000000, 0, 10, 100, 100]),
    ),
    (
        "one|../my models/c-1|--resolution|1|--step|1|--stop|0|--start|0",
        One("../my models/c-1", [1, 0, 1, 0, 100]),
    ),
    (
        "one|zähler|--resolution|4611686018427387904|--step|4611686018427387904|--stop|4611686018427387904|--start|4611686018427387904",
        One(
            "zähler",
            [
                4611686018427387904,
                4611686018427387904,
                4611686018427387904,
                4611686018427387904,
                100,
            ],
        ),
    ),
    (
        "one|one|--resolution|20|--step|300|--stop|7",
        One("one", [20, 0, 300, 7, 100]),
    ),
    (
        "run|d|--resolution|10|--step|3|--stop|7",
        Run("d", [10, 0, 3, 7, 100]),
    ),
    (
        "run|d|--resolution|10|--step|3|--stop|7|--start|7",
        Run("d", [10, 7, 3, 7, 100]),
    ),
    (
        "run|run|--resolution|1|--step|4611686018427387904|--stop|0",
        Run("run", [1, 0, 4611686018427387904, 0, 100]),
    ),
    ("check|d|--resolution|1000", Check("d", 1000)),
    (
        "check|../my systems/c-1|--resolution|1",
        Check("../my systems/c-1", 1),
    ),
    (
        "check|check|--resolution|4611686018427387904",
        Check("check", 4611686018427387904),
    ),
    // The most instants at a point.
    (
        "one|d|--resolution|10|--step|3|--stop|7|--max-iterations|1",
        One("d", [10, 0, 3, 7, 1]),
    ),
    (
        "one|d|--max-iterations=7|--resolution|10|--step|3|--stop|7",
        One("d", [10, 0, 3, 7, 7]),
    ),
    (
        "run|d|--resolution|10|--step|3|--stop|7|--max-iterations|10000",
        Run("d", [10, 0, 3, 7, 10000]),
    ),
    (
        "run|d|--resolution|10|--step|3|--stop|7|--start|5|--max-iterations|100",
        Run("d", [10, 5, 3, 7, 100]),
    ),
    // The directory is the name of another command.
    (
        "one|run|--resolution|10|--step|3|--stop|7",
        One("run", [10, 0, 3, 7, 100]),
    ),
    (
        "run|one|--resolution|10|--step|3|--stop|7",
        Run("one", [10, 0, 3, 7, 100]),
    ),
    ("check|run|--resolution|10", Check("run", 10)),
    // Options with `=`, in any order, before the directory and after it.
    (
        "one|d|--resolution=10|--step=3|--stop=7|--start=7",
        One("d", [10, 7, 3, 7, 100]),
    ),
    (
        "one|--start|2|--stop=7|d|--step|3|--resolution=10",
        One("d", [10, 2, 3, 7, 100]),
    ),
    (
        "one|--resolution|10|--step|3|--stop|7|d",
        One("d", [10, 0, 3, 7, 100]),
    ),
    (
        "one|--step|3|--resolution|10|--stop|7|a=b",
        One("a=b", [10, 0, 3, 7, 100]),
    ),
    (
        "run|d|--resolution=10|--step=3|--stop=7|--start=5",
        Run("d", [10, 5, 3, 7, 100]),
    ),
    (
        "run|--start=2|--stop|7|d|--step=3|--resolution|10",
        Run("d", [10, 2, 3, 7, 100]),
    ),
    ("check|d|--resolution=1000", Check("d", 1000)),
    ("check|--resolution|1000|d", Check("d", 1000)),
    ("check|--resolution=1000|a=b", Check("a=b", 1000)),
    ("trace-check|d|t.txt", TraceCheck("d", "t.txt")),
    (
        "trace-check|../my systems/d-1|/tmp/a trace",
        TraceCheck("../my systems/d-1", "/tmp/a trace"),
    ),
    (
        "trace-check|run|trace-check",
        TraceCheck("run", "trace-check"),
    ),
    ("bench|1|1", Bench(1, 1, 1)),
    ("bench|0|256", Bench(0, 256, 1)),
    ("bench|2147483647|2", Bench(2147483647, 2, 1)),
    ("bench|7|256|--workers|8", Bench(7, 256, 8)),
    ("bench|--workers|3|1|2", Bench(1, 2, 3)),
    ("bench|7|--workers=64|256", Bench(7, 256, 64)),
    (
        "checkpoint|d|--resolution|10|--step|3|--stop|7|--at|0",
        Checkpoint("d", [10, 0, 3, 7, 100], 0),
    ),
    (
        "checkpoint|--at=6|d|--resolution|10|--step|3|--stop|7",
        Checkpoint("d", [10, 0, 3, 7, 100], 6),
    ),
    (
        "checkpoint|d|--start|5|--at|5|--resolution|10|--step|3|--stop|7|--max-iterations|9",
        Checkpoint("d", [10, 5, 3, 7, 9], 5),
    ),
    (
        "checkpoint|checkpoint|--resolution|1|--step|1|--stop|4611686018427387904|--at|4611686018427387903",
        Checkpoint(
            "checkpoint",
            [1, 0, 1, 4611686018427387904, 100],
            4611686018427387903,
        ),
    ),
    ("resume|d|k", Resume("d", "k")),
    ("resume|resume|/tmp/a k", Resume("resume", "/tmp/a k")),
    (
        "resume|--workers|64|d|--link=2|k|--host|h",
        Resume("d", "k"),
    ),
    ("resume|d|--host=builtin|a=b", Resume("d", "a=b")),
    ("resume|./-d|./-k", Resume("./-d", "./-k")),
];

// Arguments between bars that are no line.
static OTHERS: [&str; 181] = [
    // A point isn't of the run, or is at its stop; and arguments of the two parts of a run that are missing or too many.
    "checkpoint|d|--resolution|10|--step|3|--stop|7",
    "checkpoint|d|--resolution|10|--step|3|--stop|7|--at|7",
    "checkpoint|d|--resolution|10|--step|3|--stop|7|--at|8",
    "checkpoint|d|--resolution|10|--step|3|--stop|7|--start|5|--at|4",
    "checkpoint|d|--resolution|10|--step|3|--stop|7|--start|7|--at|7",
    "checkpoint|d|--resolution|10|--step|3|--stop|7|--at|4611686018427387905",
    "checkpoint|d|--resolution|10|--step|3|--stop|7|--at|01",
    "checkpoint|d|--resolution|10|--step|3|--stop|7|--at|-1",
    "checkpoint|d|--resolution|10|--step|3|--stop|7|--at|1|--at|1",
    "checkpoint|d|k|--resolution|10|--step|3|--stop|7|--at|1",
    "checkpoint|d|--step|3|--stop|7|--at|1",
    "run|d|--resolution|10|--step|3|--stop|7|--at|1",
    "resume",
    "resume|d",
    "resume|d|k|k",
    "resume|d|k|--resolution|10",
    "resume|d|k|--at|1",
    "resume|d|k|--max-iterations|1",
    "resume|d|k|--workers|65",
    "resume|d|k|--link|3",
    "resume|d|",
    // An argument is missing.
    "",
    "one",
    "one|d",
    "d|--resolution|10|--step|3|--stop|7",
    "one|--resolution|10|--step|3|--stop|7",
    "one|d|--step|3|--stop|7",
    "one|d|--resolution|10|--stop|7",
    "one|d|--resolution|10|--step|3",
    "one|d|--resolution|10|--step|3|7",
    "one|d|--resolution|10|--step|3|--stop",
    "one|d|--resolution|--step|3|--stop|7",
    "one|d|--resolution|10|--step|3|--stop|7|--start",
    "run",
    "run|d",
    "run|--resolution|10|--step|3|--stop|7",
    "run|d|--step|3|--stop|7",
    "run|d|--resolution|10|--stop|7",
    "run|d|--resolution|10|--step|3",
    "check",
    "check|d",
    "check|--resolution|1000",
    "check|d|--resolution",
    "trace-check",
    "trace-check|d",
    "trace-check|--resolution|1000|d",
    // An argument is there twice, or there is one too many.
    "one|d|d|--resolution|10|--step|3|--stop|7",
    "one|d|--resolution|10|--step|3|--stop|7|d",
    "one|d|--resolution|10|--step|3|--stop|7|",
    "one|one|d|--resolution|10|--step|3|--stop|7",
    "one|d|--resolution|10|--resolution|10|--step|3|--stop|7",
    "one|d|--resolution|10|--step|3|--step=3|--stop|7",
    "one|d|--resolution|10|--step|3|--stop|7|--stop|7",
    "one|d|--resolution|10|--step|3|--stop|7|--start=0|--start=0",
    "one|d|--resolution|10|--step|3|--stop|7|--workers|1|--workers|1",
    "run|d|d|--resolution|10|--step|3|--stop|7",
    "run|one|d|--resolution|10|--step|3|--stop|7",
    "run|d|--resolution|10|--step|3|--step|3|--stop|7",
    "run|d|--resolution|10|--step|3|--stop|7|--start=0|--start|0",
    "check|d|d|--resolution|1000",
    "check|d|--resolution|1000|d",
    "check|d|--resolution|1000|--resolution=1000",
    "one|d|--resolution|10|--step|3|--stop|7|--max-iterations|5|--max-iterations|5",
    "run|d|--resolution|10|--step|3|--stop|7|--max-iterations=5|--max-iterations|6",
    "trace-check|d|t|t",
    // The check of a trace has no options.
    "trace-check|d|t|--resolution|1000",
    "trace-check|d|t|--host|h",
    "trace-check|d|t|--",
    // A check has no step, stop or start, and no limit.
    "check|d|--resolution|1000|--step|10",
    "check|d|--resolution|1000|--step=10",
    "check|d|--resolution|1000|--stop|100",
    "check|d|--resolution|1000|--start|0",
    "check|d|--resolution|1000|--step|10|--stop|100",
    "check|d|--resolution|1000|--max-iterations|7",
    "check|d|--resolution|1000|--max-iterations=7",
    // The command is another, or isn't the first argument.
    "two|d|--resolution|10|--step|3|--stop|7",
    "One|d|--resolution|10|--step|3|--stop|7",
    "on|d|--resolution|10|--step|3|--stop|7",
    "Run|d|--resolution|10|--step|3|--stop|7",
    "runs|d|--resolution|10|--step|3|--stop|7",
    "chec|d|--resolution|10",
    "|d|--resolution|10|--step|3|--stop|7",
    "d|one|--resolution|10|--step|3|--stop|7",
    "--resolution|10|one|d|--step|3|--stop|7",
    // There is no help and no version, and nothing ends the options.
    "--help",
    "-h",
    "help",
    "--version",
    "-V",
    "one|--help",
    "one|-h",
    "one|d|--resolution|10|--step|3|--stop|7|--help",
    "check|--help",
    "check|d|--resolution|1000|--",
    "--|one|d|--resolution|10|--step|3|--stop|7",
    "one|--|d|--resolution|10|--step|3|--stop|7",
    "one|d|--resolution|10|--step|3|--stop|7|--",
    "one|d|--resolution|--|10|--step|3|--stop|7",
    "one|d|--resolution|10|--step|3|--stop|--",
    // The name of an option is another.
    "one|d|-resolution|10|--step|3|--stop|7",
    "one|d|--resolution|10|--ste|3|--stop|7",
    "one|d|--res=10|--step|3|--stop|7",
    "one|d|--Resolution|10|--step|3|--stop|7",
    "one|d|--resolution|10|---step|3|--stop|7",
    "one|d|--=10|--resolution|10|--step|3|--stop|7",
    "one|d|--resolution|10|--step|3|--stop|7|--max-iteration|5",
    "one|d|--resolution|10|--step|3|--stop|7|--max_iterations|5",
    "one|d|--resolution|10|--step|3|--stop|7|--Max-Iterations|5",
    // A value is empty or begins with a hyphen.
    "one||--resolution|10|--step|3|--stop|7",
    "one|-|--resolution|10|--step|3|--stop|7",
    "one|-d|--resolution|10|--step|3|--stop|7",
    "one|d|--resolution=|10|--step|3|--stop|7",
    "one|d|--resolution=|--step|3|--stop|7",
    "one|d|--resolution|10|--step||--stop|7",
    "one|d|--resolution|-10|--step|3|--stop|7",
    "one|d|--resolution=-10|--step|3|--stop|7",
    "one|d|--resolution|10|--step|3|--stop|-0",
    "one|d|--resolution|10|--step|3|--stop|-",
    "run||--resolution|10|--step|3|--stop|7",
    "check|-d|--resolution|1000",
    "check|d|--resolution|-1000",
    "trace-check|d|",
    "trace-check|d|-t",
    "one|d|--resolution|10|--step|3|--stop|7|--max-iterations|",
    "one|d|--resolution|10|--step|3|--stop|7|--max-iterations=",
    "one|d|--resolution|10|--step|3|--stop|7|--max-iterations",
    "one|d|--resolution|10|--step|3|--stop|7|--max-iterations|-1",
    // A number is beyond its limits, or the start is above the stop.
    "one|d|--resolution|0|--step|3|--stop|7",
    "one|d|--resolution|10|--step|0|--stop|7",
    "one|d|--resolution|4611686018427387905|--step|3|--stop|7",
    "one|d|--resolution|10|--step|4611686018427387905|--stop|7",
    "one|d|--resolution|10|--step|3|--stop|4611686018427387905",
    "one|d|--resolution|10|--step|3|--stop|7|--start|4611686018427387905",
    "one|d|--resolution|10|--step|3|--stop|18446744073709551616",
    "one|d|--resolution|10|--step|3|--stop|99999999999999999999",
    "one|d|--resolution|10|--step|3|--stop|7|--start|8",
    "run|d|--resolution|0|--step|3|--stop|7",
    "run|d|--resolution|10|--step|0|--stop|7",
    "run|d|--resolution|10|--step|3|--stop|7|--start|8",
    "check|d|--resolution|0",
    "check|d|--resolution=0",
    "check|d|--resolution|4611686018427387905",
    "check|d|--resolution|18446744073709551616",
    "one|d|--resolution|10|--step|3|--stop|7|--max-iterations|0",
    "run|d|--resolution|10|--step|3|--stop|7|--max-iterations=0",
    "one|d|--resolution|10|--step|3|--stop|7|--max-iterations|10001",
    "run|d|--resolution|10|--step|3|--stop|7|--max-iterations|10001",
    "one|d|--resolution|10|--step|3|--stop|7|--max-iterations|18446744073709551617",
    // A number is spelled otherwise.
    "one|d|--resolution|+10|--step|3|--stop|7",
    "one|d|--resolution|010|--step|3|--stop|7",
    "one|d|--resolution|10|--step=03|--stop|7",
    "one|d|--resolution|10|--step|3|--stop|00",
    "one|d|--resolution|10|--step|3|--stop|7|--start|00",
    "one|d|--resolution|1e1|--step|3|--stop|7",
    "one|d|--resolution|0x10|--step|3|--stop|7",
    "one|d|--resolution| 10|--step|3|--stop|7",
    "one|d|--resolution|10 |--step|3|--stop|7",
    "one|d|--resolution|10|--step|٣|--stop|7",
    "one|d|--resolution|10|--step|=3|--stop|7",
    "one|d|--resolution|10|--step|3|--stop|7|--max-iterations|01",
    "one|d|--resolution|10|--step|3|--stop|7|--max-iterations|+1",
    "run|d|--resolution|10|--step|3|--stop|7|--max-iterations=007",
    "one|d|--resolution|10|--step|3|--stop|7|--max-iterations|1.0",
    "check|d|--resolution|01000",
    "check|d|--resolution|+1000",
    "check|d|--resolution|1000.0",
    // The seed is too large, there are no components or too many, or one of the two is missing or spelled otherwise.
    "bench",
    "bench|1",
    "bench|1|2|3",
    "bench|2147483648|1",
    "bench|1|0",
    "bench|1|257",
    "bench|01|1",
    "bench|1|01",
    "bench|-1|1",
    "bench|1|+1",
    "bench|one|1",
    // The run of a generated system has no other option.
    "bench|1|1|--workers|0",
    "bench|1|1|--workers|65",
    "bench|1|1|--host|h",
    "bench|1|1|--resolution|1000",
];

// Arguments between bars, and the host that they ask for.
static HOSTS: [(&str, &str); 12] = [
    ("resume|d|k", "builtin"),
    ("resume|d|k|--host|h", "h"),
    (
        "checkpoint|d|--resolution|10|--step|3|--stop|7|--at|1|--host=h",
        "h",
    ),
    ("one|d|--resolution|10|--step|3|--stop|7", "builtin"),
    ("run|d|--resolution|10|--step|3|--stop|7", "builtin"),
    ("one|d|--resolution|10|--step|3|--stop|7|--host|h", "h"),
    (
        "run|d|--resolution|10|--step|3|--stop|7|--host=../my hosts/h-1",
        "../my hosts/h-1",
    ),
    (
        "run|--host|/usr/bin/fmu_host|d|--resolution|10|--step|3|--stop|7",
        "/usr/bin/fmu_host",
    ),
    (
        "one|--host=zähler|d|--resolution|10|--step|3|--stop|7",
        "zähler",
    ),
    (
        "one|d|--resolution|10|--step|3|--stop|7|--host|builtin",
        "builtin",
    ),
    ("run|d|--resolution|10|--step|3|--stop|7|--host=a=b", "a=b"),
    ("run|d|--resolution|10|--step|3|--stop|7|--host|=", "="),
];

// Arguments between bars with a host that makes them no line.
static OTHER_HOSTS: [&str; 14] = [
    "one|d|--resolution|10|--step|3|--stop|7|--host",
    "run|d|--host|--resolution|10|--step|3|--stop|7",
    "one|d|--resolution|10|--step|3|--stop|7|--host|",
    "run|d|--resolution|10|--step|3|--stop|7|--host=",
    "one|d|--resolution|10|--step|3|--stop|7|--host|-",
    "one|d|--resolution|10|--step|3|--stop|7|--host|-h",
    "run|d|--resolution|10|--step|3|--stop|7|--host=-h",
    "run|d|--resolution|10|--step|3|--stop|7|--host|--",
    "one|d|--resolution|10|--step|3|--stop|7|--host|h|--host|h",
    "run|d|--resolution|10|--step|3|--stop|7|--host=h|--host|builtin",
    "one|d|--resolution|10|--step|3|--stop|7|--Host|h",
    "one|d|--resolution|10|--step|3|--stop|7|-host|h",
    "check|d|--resolution|1000|--host|h",
    "check|d|--resolution|1000|--host=builtin",
];

// Arguments between bars, and the number of workers that they ask for.
static WORKERS: [(&str, u32); 9] = [
    ("resume|d|k", 1),
    ("resume|d|k|--workers|64", 64),
    (
        "checkpoint|d|--resolution|10|--step|3|--stop|7|--at|1|--workers=2",
        2,
    ),
    ("one|d|--resolution|10|--step|3|--stop|7", 1),
    ("run|d|--resolution|10|--step|3|--stop|7", 1),
    ("one|d|--resolution|10|--step|3|--stop|7|--workers|1", 1),
    ("run|d|--resolution|10|--step|3|--stop|7|--workers=2", 2),
    ("run|--workers|64|d|--resolution|10|--step|3|--stop|7", 64),
    ("one|--workers=10|d|--resolution|10|--step|3|--stop|7", 10),
];

// Arguments between bars, and the version of the link that they ask for.
static LINKS: [(&str, u32); 8] = [
    ("resume|d|k", 1),
    ("resume|d|k|--link|2", 2),
    (
        "checkpoint|d|--resolution|10|--step|3|--stop|7|--at|1|--link=2",
        2,
    ),
    ("one|d|--resolution|10|--step|3|--stop|7", 1),
    ("one|d|--resolution|10|--step|3|--stop|7|--link|1", 1),
    ("run|d|--resolution|10|--step|3|--stop|7|--link=2", 2),
    ("run|--link|2|d|--resolution|10|--step|3|--stop|7", 2),
    (
        "one|--link=1|d|--resolution|10|--step|3|--stop|7|--host|h",
        1,
    ),
];

// Arguments between bars with a version of the link that makes them no line.
static OTHER_LINKS: [&str; 10] = [
    "run|d|--resolution|10|--step|3|--stop|7|--link",
    "run|d|--resolution|10|--step|3|--stop|7|--link=",
    "run|d|--resolution|10|--step|3|--stop|7|--link|0",
    "one|d|--resolution|10|--step|3|--stop|7|--link=3",
    "run|d|--resolution|10|--step|3|--stop|7|--link|02",
    "run|d|--resolution|10|--step|3|--stop|7|--link|2|--link|2",
    "one|d|--resolution|10|--step|3|--stop|7|--link|two",
    "check|d|--resolution|1000|--link|2",
    "trace-check|d|t|--link|2",
    "bench|1|1|--link|2",
];

// Arguments between bars with a number of workers that makes them no line.
static OTHER_WORKERS: [&str; 10] = [
    "run|d|--resolution|10|--step|3|--stop|7|--workers",
    "run|d|--resolution|10|--step|3|--stop|7|--workers=",
    "run|d|--resolution|10|--step|3|--stop|7|--workers|0",
    "one|d|--resolution|10|--step|3|--stop|7|--workers=65",
    "run|d|--resolution|10|--step|3|--stop|7|--workers|18446744073709551617",
    "run|d|--resolution|10|--step|3|--stop|7|--workers|02",
    "one|d|--resolution|10|--step|3|--stop|7|--workers|two",
    "run|d|--resolution|10|--step|3|--stop|7|--worker|2",
    "check|d|--resolution|1000|--workers|2",
    "trace-check|d|t|--workers|2",
];

fn split_words(alloc: Global, line: &str) -> Result<Vec<String>, AllocError> {
    let mut words = Vec::new(alloc);
    for word in line.split('|') {
        words.push(String::from_str(alloc, word)?)?;
    }
    Ok(words)
}

fn counts_of(plan: Plan) -> [u64; 5] {
    [
        plan.resolution,
        plan.start,
        plan.step,
        plan.stop,
        plan.limit,
    ]
}

fn read(alloc: Global, words: &[String]) -> Result<Asked<'_>, WordsFault> {
    let asked = match read_words(alloc, words)? {
        Request::System(line) => match line {
            CommandLine::One(options) => One(options.directory, counts_of(options.plan)),
            CommandLine::Run(options) => Run(options.directory, counts_of(options.plan)),
            CommandLine::Check(options) => Check(options.directory, options.resolution),
        },
        Request::TraceCheck(options) => TraceCheck(options.directory, options.file),
        Request::Bench(options) => Bench(options.seed, options.components, options.workers),
        Request::Checkpoint(options) => Checkpoint(
            options.run.directory,
            counts_of(options.run.plan),
            options.at,
        ),
        Request::Resume(options) => Resume(options.directory, options.file),
    };
    Ok(asked)
}

fn host_of<'a>(request: Request<'a>) -> Option<&'a str> {
    match request {
        Request::System(CommandLine::One(options) | CommandLine::Run(options)) => {
            Some(options.host)
        }
        Request::Checkpoint(options) => Some(options.run.host),
        Request::Resume(options) => Some(options.host),
        Request::System(CommandLine::Check(_)) | Request::TraceCheck(_) | Request::Bench(_) => None,
    }
}

fn workers_of(request: Request<'_>) -> Option<u32> {
    match request {
        Request::System(CommandLine::One(options) | CommandLine::Run(options)) => {
            Some(options.plan.workers)
        }
        Request::Checkpoint(options) => Some(options.run.plan.workers),
        Request::Resume(options) => Some(options.workers),
        Request::System(CommandLine::Check(_)) | Request::TraceCheck(_) | Request::Bench(_) => None,
    }
}

fn asks_for(alloc: Global, row: &(&str, Asked<'_>)) -> bool {
    match split_words(alloc, row.0) {
        Ok(words) => read(alloc, &words) == Ok(row.1),
        Err(_) => false,
    }
}

fn is_no_line(alloc: Global, line: &str) -> bool {
    match split_words(alloc, line) {
        Ok(words) => read(alloc, &words) == Err(WordsFault::NoLine),
        Err(_) => false,
    }
}

fn asks_for_host(alloc: Global, words: &[String], host: &str) -> bool {
    match read_words(alloc, words) {
        Ok(request) => host_of(request) == Some(host),
        Err(_) => false,
    }
}

fn has_host(alloc: Global, row: &(&str, &str)) -> bool {
    match split_words(alloc, row.0) {
        Ok(words) => asks_for_host(alloc, &words, row.1),
        Err(_) => false,
    }
}

fn asks_for_workers(alloc: Global, words: &[String], workers: u32) -> bool {
    match read_words(alloc, words) {
        Ok(request) => workers_of(request) == Some(workers),
        Err(_) => false,
    }
}

fn link_of(request: Request<'_>) -> Option<u32> {
    match request {
        Request::System(CommandLine::One(options) | CommandLine::Run(options)) => {
            Some(options.plan.link)
        }
        Request::Checkpoint(options) => Some(options.run.plan.link),
        Request::Resume(options) => Some(options.link),
        Request::System(CommandLine::Check(_)) | Request::TraceCheck(_) | Request::Bench(_) => None,
    }
}

fn asks_for_link(alloc: Global, words: &[String], link: u32) -> bool {
    match read_words(alloc, words) {
        Ok(request) => link_of(request) == Some(link),
        Err(_) => false,
    }
}

fn has_link(alloc: Global, row: &(&str, u32)) -> bool {
    match split_words(alloc, row.0) {
        Ok(words) => asks_for_link(alloc, &words, row.1),
        Err(_) => false,
    }
}

fn has_workers(alloc: Global, row: &(&str, u32)) -> bool {
    match split_words(alloc, row.0) {
        Ok(words) => asks_for_workers(alloc, &words, row.1),
        Err(_) => false,
    }
}

#[test]
fn a_line_gives_its_options(rt: HostRuntime) {
    let alloc = rt.alloc();
    assert_eq!(rt; LINES.iter().position(|row| !asks_for(alloc, row)), None);
}

#[test]
fn other_words_give_none(rt: HostRuntime) {
    let alloc = rt.alloc();
    assert!(rt; read(alloc, &[]) == Err(WordsFault::NoLine));
    assert_eq!(rt;
        OTHERS.iter().position(|line| !is_no_line(alloc, line)),
        None
    );
}

#[test]
fn a_line_gives_its_host(rt: HostRuntime) {
    let alloc = rt.alloc();
    assert_eq!(rt; HOSTS.iter().position(|row| !has_host(alloc, row)), None);
    assert_eq!(rt;
        OTHER_HOSTS.iter().position(|line| !is_no_line(alloc, line)),
        None
    );
}

#[test]
fn a_line_gives_its_link(rt: HostRuntime) {
    let alloc = rt.alloc();
    assert_eq!(rt; LINKS.iter().position(|row| !has_link(alloc, row)), None);
    assert_eq!(rt;
        OTHER_LINKS.iter().position(|line| !is_no_line(alloc, line)),
        None
    );
}

#[test]
fn a_line_gives_its_workers(rt: HostRuntime) {
    let alloc = rt.alloc();
    assert_eq!(rt;
        WORKERS.iter().position(|row| !has_workers(alloc, row)),
        None
    );
    assert_eq!(rt;
        OTHER_WORKERS
            .iter()
            .position(|line| !is_no_line(alloc, line)),
        None
    );
}
