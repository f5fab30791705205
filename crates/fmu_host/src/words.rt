//! The arguments of the command line: a directory, and how many counts a second has.
ghost use Rattle.std.specs.Prelude.{◌≡◌, ℕ, ◌^◌, ◌<◌, ◌≤◌, Some, IfSome, decimal, option_map};
ghost use Rattle.command_line.specs.Line.{texts};
ghost use Rattle.fmu_host.specs.Line.{IsLine, Line, line_of};

use command_line::read_count;
use sim_base::MOST_COUNTS;

/// What the program is asked for: the directory of an FMU, and how many counts a second has.
#[derive(Clone, Copy, Debug)]
pub(crate) struct HostLine<'a> {
    pub directory: &'a str,
    pub resolution: u64,
}

/// What the arguments ask for, where they are a directory and a resolution.
pub(crate) fn read_words(words: &[String]) -> Option<HostLine<'_>>
    ensures ok { IfSome result (λ l. IsLine (texts words.now) (line_of l)) }
    ensures only { (line : Line) → IsLine (texts words.now) line →
        option_map line_of result ≡ Some line }
{
    let [directory, resolution] = words else {
        return None;
    };
    let resolution = read_resolution(resolution.as_str())?;
    if directory.is_empty() {
        None
    } else {
        Some(HostLine {
            directory: directory.as_str(),
            resolution,
        })
    }
}

// A count of a second, from 1 to the most that there may be, in digits without a sign or a leading zero.
fn read_resolution(word: &str) -> Option<u64>
    ensures ok { IfSome result (λ n. (word.now ≡ decimal n) × (1 ≤ n) × (n ≤ 2 ^ 62)) }
    ensures only { (n : ℕ) → word.now ≡ decimal n → 1 ≤ n → n ≤ 2 ^ 62 → result ≡ Some n }
{
    read_count(word, 1, MOST_COUNTS)
}
