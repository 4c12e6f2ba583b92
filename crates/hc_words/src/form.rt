//! The test of the form, word by word.
ghost use Rattle.std.specs.Prelude.{◌≡◌, map, string_bytes, option_map, codes};
ghost use Rattle.hc_words.specs.Form.{awaited as awaited_of, command_word, item_word, joined_number as joined_number_of, joined_seed as joined_seed_word, joined_word, nothing_seen, passes, stepped};
ghost use Rattle.hc_words.specs.Items.{is_between as is_between_text, is_command as is_command_text, is_decimal as is_decimal_text};

/// The number that the next word has to be.
#[derive(Clone, Copy)]
enum Awaits {
    Nothing,
    Workers,
    Seed,
}

/// What the words so far have, and whether the next word has to be a number.
#[derive(Clone, Copy)]
struct Seen {
    command: bool,
    workers: bool,
    seed: bool,
    flat: bool,
    awaits: Awaits,
}

/// Whether a text is 1 to 20 decimal digits.
fn is_decimal(text: &str) -> bool
    ensures { result ≡ is_decimal_text text.now }
{
    let bytes = text.as_bytes();
    if bytes.is_empty() || bytes.len() > 20 {
        return false;
    }
    let mut rest = bytes;
    while let Some((first, tail)) = rest.split_first() {
        if !first.is_ascii_digit() {
            return false;
        }
        rest = tail;
    }
    true
}

/// Whether a text is a number from `low` to `high`.
fn is_between(text: &str, low: u64, high: u64) -> bool
    ensures { result ≡ is_between_text low high text.now }
{
    if !is_decimal(text) {
        return false;
    }
    match text.parse::<u64>() {
        Ok(number) => low <= number && number <= high,
        Err(_) => false,
    }
}

/// Whether a word is a command.
fn is_command(word: &str) -> bool
    ensures { result ≡ is_command_text word.now }
{
    matches!(word, "verilog" | "sim" | "both" | "stat" | "gen")
}

/// What follows a prefix of a word.
fn joined_number<'w>(prefix: &str, word: &'w str) -> Option<&'w str>
    ensures { option_map (λ s. s.now) result ≡ joined_number_of prefix.now word.now }
{
    match word.strip_prefix(prefix) {
        Some(number) => Some(number),
        None => None,
    }
}

/// One more word, where a number has to stand; none where it is refused.
fn awaited(seen: Seen, word: &str, low: u64, high: u64) -> Option<Seen>
    ensures { result ≡ awaited_of low high seen word.now }
{
    if is_between(word, low, high) {
        Some(Seen {
            awaits: Awaits::Nothing,
            ..seen
        })
    } else {
        None
    }
}

/// One more word that is no option; none where it is refused.
fn command(seen: Seen, word: &str) -> Option<Seen>
    ensures { result ≡ command_word seen word.now }
{
    if seen.command || !is_command(word) {
        return None;
    }
    Some(Seen {
        command: true,
        ..seen
    })
}

/// One more word that is no name of an option and no number of workers: a seed or a command; none where it is refused.
fn joined_seed(seen: Seen, word: &str) -> Option<Seen>
    ensures { result ≡ joined_seed_word seen word.now (joined_number_of (codes "--seed=") word.now) }
{
    let Some(number) = joined_number("--seed=", word) else {
        return command(seen, word);
    };
    if seen.seed || !is_between(number, 0, u64::MAX) {
        return None;
    }
    Some(Seen { seed: true, ..seen })
}

/// One more word that is no name of an option: a number of workers, a seed or a command; none where it is refused.
fn joined(seen: Seen, word: &str) -> Option<Seen>
    ensures { result ≡ joined_word seen word.now (joined_number_of (codes "--workers=") word.now) }
{
    let Some(number) = joined_number("--workers=", word) else {
        return joined_seed(seen, word);
    };
    if seen.workers || !is_between(number, 1, 64) {
        return None;
    }
    Some(Seen {
        workers: true,
        ..seen
    })
}

/// One more word, where an item begins; none where it is refused.
fn item(seen: Seen, word: &str) -> Option<Seen>
    ensures { result ≡ item_word seen word.now }
{
    if word == "--workers" {
        if seen.workers {
            return None;
        }
        return Some(Seen {
            workers: true,
            awaits: Awaits::Workers,
            ..seen
        });
    }
    if word == "--seed" {
        if seen.seed {
            return None;
        }
        return Some(Seen {
            seed: true,
            awaits: Awaits::Seed,
            ..seen
        });
    }
    if word == "--flat" {
        if seen.flat {
            return None;
        }
        return Some(Seen { flat: true, ..seen });
    }
    joined(seen, word)
}

/// One more word; none where it is refused.
fn step(seen: Seen, word: &str) -> Option<Seen>
    ensures { result ≡ stepped seen word.now }
{
    match seen.awaits {
        Awaits::Nothing => item(seen, word),
        Awaits::Workers => awaited(seen, word, 1, 64),
        Awaits::Seed => awaited(seen, word, 0, u64::MAX),
    }
}

/// Whether the words are a job's.
pub(crate) fn has_form(words: &[String]) -> bool
    ensures { result ≡ passes nothing_seen (map string_bytes words.now) }
{
    let mut seen = Seen {
        command: false,
        workers: false,
        seed: false,
        flat: false,
        awaits: Awaits::Nothing,
    };
    let mut rest = words;
    while let Some((word, tail)) = rest.split_first() {
        match step(seen, word.as_str()) {
            Some(next) => seen = next,
            None => return false,
        }
        rest = tail;
    }
    seen.command && matches!(seen.awaits, Awaits::Nothing)
}
