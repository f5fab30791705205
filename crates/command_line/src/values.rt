ghost use Rattle.std.specs.Prelude.{◌≡◌, ℕ, ◌<◌, ◌≤◌, ◌^◌, Some, IfSome, decimal, option_map};
ghost use Rattle.clap.specs.Words.{first_of, found_of, rows_of};
ghost use Rattle.command_line.specs.Line.{Counts, Gives, count_row, text_row};

use clap::ArgMatches;
use itoa::Buffer;

/// The count of an option: that of its value, or where it isn't given the default.
pub(crate) fn option_count(
    matches: &ArgMatches<'_>,
    name: &str,
    least: u64,
    most: u64,
    default: Option<u64>,
) -> Option<u64>
    ensures ok { IfSome result (Counts (count_row name.now least most default)
        (first_of name.now (rows_of (found_of matches.now)))) }
    ensures only { (n : ℕ) → Counts (count_row name.now least most default)
        (first_of name.now (rows_of (found_of matches.now))) n → result ≡ Some n }
{
    match value_of(matches, name) {
        Some(word) => read_count(word, least, most),
        None => default,
    }
}

/// The text of an option: its value, or where it isn't given the default.
pub(crate) fn option_text<'a>(matches: &ArgMatches<'a>, name: &str, default: &'a str) -> &'a str
    ensures { Gives (text_row name.now default.entry.now)
        (first_of name.now (rows_of (found_of matches.now))) result.now }
{
    value_of(matches, name).unwrap_or(default)
}

/// The value that a name has.
pub(crate) fn value_of<'a>(matches: &ArgMatches<'a>, name: &str) -> Option<&'a str>
    ensures { option_map (λ s. s.now) result ≡ first_of name.now (rows_of (found_of matches.now)) }
{
    matches.get_str(name)
}

/// A count from the least one to the greatest, in digits without a sign or a leading zero.
pub fn read_count(word: &str, least: u64, most: u64) -> Option<u64>
    ensures ok { IfSome result (λ n. (word.now ≡ decimal n) × (least ≤ n) × (n ≤ most)) }
    ensures only { (n : ℕ) → word.now ≡ decimal n → least ≤ n → n ≤ most → result ≡ Some n }
{
    let count = read_number(word)?;
    if least <= count && count <= most {
        Some(count)
    } else {
        None
    }
}

// A number without a sign or a leading zero: the digits that it is printed as.
fn read_number(word: &str) -> Option<u64>
    ensures ok { IfSome result (λ n. word.now ≡ decimal n) }
    ensures only { (n : ℕ) → word.now ≡ decimal n → n < 2 ^ 64 → result ≡ Some n }
{
    let number = word.parse::<u64>().ok()?;
    if Buffer::new().format(number) == word {
        Some(number)
    } else {
        None
    }
}
