ghost use Rattle.std.specs.Prelude.{◌≡◌, false, Option, option_map};
ghost use Rattle.clap.specs.Lexer.{long_of, name_and_value, strip_byte};
ghost use Rattle.command_line.specs.Form.{are_items, has_form};
ghost use Rattle.command_line.specs.Line.{texts};
ghost use Rattle.command_line.specs.Words.{is_plain};

/// Whether the arguments are a plain one and items after it; clap takes others too.
pub(crate) fn has_line_form(words: &[String]) -> bool
    ensures { result ≡ has_form (texts words.now) }
{
    match words {
        [] => false,
        [name, others @ ..] => is_plain(name.as_str()) && are_items(others),
    }
}

// The arguments spell positionals and options whose values are plain.
fn are_items(words: &[String]) -> bool
    ensures { result ≡ are_items false (texts words.now) }
{
    let mut waiting = false;
    for word in words {
        let word = word.as_str();
        if waiting {
            if !is_plain(word) {
                return false;
            }
            waiting = false;
        } else {
            match split_option(word) {
                Some((_, None)) => waiting = true,
                Some((_, Some(value))) => {
                    if !is_plain(value) {
                        return false;
                    }
                }
                None => {
                    if !is_plain(word) {
                        return false;
                    }
                }
            }
        }
    }
    !waiting
}

// Not empty, and without a hyphen at its start.
fn is_plain(word: &str) -> bool
    ensures { result ≡ is_plain word.now }
{
    match word.as_bytes() {
        [] | [b'-', ..] => false,
        [_, ..] => true,
    }
}

// The name of `--name` or `--name=value`, and the value if there is one.
fn split_option(word: &str) -> Option<(&str, Option<&str>)>
    ensures { option_map (λ p. (p.0.now, option_map (λ s. s.now) p.1)) result ≡ long_of word.now }
{
    let rest = strip_hyphen(strip_hyphen(word)?)?;
    if rest.is_empty() {
        return None;
    }
    Some(split_value(rest))
}

fn strip_hyphen(word: &str) -> Option<&str>
    ensures { option_map (λ s. s.now) result ≡ strip_byte 45 word.now }
{
    word.strip_prefix('-')
}

// What stands before the first `=`, and what comes after it.
fn split_value(text: &str) -> (&str, Option<&str>)
    ensures { (result.0.now, option_map (λ s. s.now) result.1) ≡ name_and_value text.now }
{
    match text.split_once('=') {
        Some((name, value)) => (name, Some(value)),
        None => (text, None),
    }
}
