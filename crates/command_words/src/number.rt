//! Numbers, from their texts.

ghost use Rattle.std.specs.Prelude.{◌≡◌, ◌≤◌, IfSome, None, Some, option_map};
ghost use Rattle.command_words.specs.Commands.{number, number_named};
ghost use Rattle.command_words.specs.Matched.{IsNumberOf};

/// The number of a word, if it is one of 64 bits: 1 to 20 decimal digits.
fn number_of(word: &str) -> Option<u64>
    ensures { IsNumberOf word.now result }
{
    if word.len() > 20 || word.as_bytes().first() == Some(&b'+') {
        return None;
    }
    word.parse::<u64>().ok()
}

/// The number of a word, if it is one from `least` to `most`.
pub fn number(least: u64, most: u64, word: &str) -> Option<u64>
    ensures named { result ≡ number least most word.now }
    ensures within { IfSome result (λ n. n ≤ most) }
{
    let value = number_of(word)?;
    if least <= value && value <= most {
        Some(value)
    } else {
        None
    }
}

/// The number given by an option, up to `most`. The outer None means that its value is refused.
pub fn number_named(most: u64, word: Option<&str>) -> Option<Option<u64>>
    ensures { result ≡ number_named most (option_map (λ text. text.now) word.entry) }
{
    match word {
        Some(text) => Some(Some(number(0, most, text)?)),
        None => Some(None),
    }
}
