//! Which words are those of `run`.

ghost use Rattle.std.specs.Prelude.{◌≡◌, ◌↔◌, [], ◌∷◌, IsTrue, codes, map, string_bytes};
ghost use Rattle.commands.specs.Options.{AreKnown, AreOfRun};
ghost use Rattle.commands.specs.RunWords.{IsDigit, IsJoined, IsSplit};

/// Whether the words are `run` and behind it options: `--each`, and `--background=N` or the two words `--background` and `N`,
/// where N is one digit from 0 to 4. They stand in any order, each at most once.
pub fn are_of_run(words: &[String]) -> bool
    ensures { IsTrue result ↔ AreOfRun (map string_bytes words.now) }
{
    if words.is_empty() || words[0].as_str() != "run" {
        return false;
    }
    match words.len() {
        1 => true,
        2 => is_one(words[1].as_str()),
        3 => are_two(words[1].as_str(), words[2].as_str()),
        4 => are_three(words[1].as_str(), words[2].as_str(), words[3].as_str()),
        _ => false,
    }
}

// Whether one word is an option.
fn is_one(word: &str) -> bool
    ensures { IsTrue result ↔ AreKnown (word.now ∷ []) }
{
    is_each(word) || is_joined(word)
}

// Whether two words are options.
fn are_two(first: &str, second: &str) -> bool
    ensures { IsTrue result ↔ AreKnown (first.now ∷ second.now ∷ []) }
{
    if is_each(first) {
        return is_joined(second);
    }
    if is_each(second) {
        return is_joined(first);
    }
    is_split(first, second)
}

// Whether three words are options.
fn are_three(first: &str, second: &str, third: &str) -> bool
    ensures { IsTrue result ↔ AreKnown (first.now ∷ second.now ∷ third.now ∷ []) }
{
    if is_each(first) {
        return is_split(second, third);
    }
    if is_each(third) {
        return is_split(first, second);
    }
    false
}

// Whether the word asks for the profile of each mark end.
fn is_each(word: &str) -> bool
    ensures { IsTrue result ↔ (word.now ≡ codes "--each") }
{
    word == "--each"
}

// Whether the one word asks for a number of background sweepers.
fn is_joined(word: &str) -> bool
    ensures { IsTrue result ↔ IsJoined word.now }
{
    match word.strip_prefix("--background=") {
        Some(number) => is_number(number),
        None => false,
    }
}

// Whether the two words do.
fn is_split(option: &str, number: &str) -> bool
    ensures { IsTrue result ↔ IsSplit option.now number.now }
{
    option == "--background" && is_number(number)
}

// Whether the word is a digit from 0 to 4.
fn is_number(word: &str) -> bool
    ensures { IsTrue result ↔ IsDigit word.now }
{
    matches!(word, "0" | "1" | "2" | "3" | "4")
}
