//! What the words ask for.
use std::env;
use std::rt::Env;

/// How many stories are played if no word says it: few, because the gate runs the program also as a compiler makes it that doesn't
/// optimise.
const SEEDS: u64 = 1;

/// Which stories are played.
#[derive(Clone, Copy)]
pub(crate) struct Asked {
    /// The first seed.
    pub(crate) seed: u64,
    /// How many seeds.
    pub(crate) seeds: u64,
    /// How many hours; 0: as long as the seeds take.
    pub(crate) hours: u64,
    /// Whether each run is printed.
    pub(crate) shows: bool,
    /// Whether it is printed how many events of each kind were played. The gate's run has no words, and prints nothing that changes with
    /// the number of the program's calls.
    pub(crate) counts: bool,
    /// Which call isn't made, if one isn't; which one is made late; and whether the numbers of calls are printed.
    pub(crate) without: Option<usize>,
    pub(crate) late: Option<usize>,
    pub(crate) lists: bool,
}

/// What is asked for if there are no words.
const USUAL: Asked = Asked {
    seed: 1,
    seeds: SEEDS,
    hours: 0,
    shows: false,
    counts: false,
    without: None,
    late: None,
    lists: false,
};

/// Takes a word, and the number after it. None if there is no such word, or no number.
fn take_word(asked: &mut Asked, word: &str, number: Option<u64>) -> Option<bool> {
    match word {
        "--steps" => {
            asked.shows = true;
            return Some(false);
        }
        "--acts" => {
            asked.lists = true;
            return Some(false);
        }
        "--without" => asked.without = Some(number? as usize),
        "--late" => asked.late = Some(number? as usize),
        "--seed" => {
            asked.seed = number?;
            asked.seeds = 1;
        }
        "--seeds" => asked.seeds = number?,
        "--hours" => asked.hours = number?,
        _ => return None,
    }
    Some(true)
}

/// The number in a word.
fn number_in(word: &String) -> Option<u64> {
    word.as_str().parse().ok()
}

/// What these words ask for. None if they are no such words.
fn read_all(words: &[String]) -> Option<Asked> {
    let mut asked = USUAL;
    asked.counts = words.len() > 1;
    let mut is_number = true;
    for (at, word) in words.iter().enumerate() {
        if is_number {
            is_number = false;
            continue;
        }
        let next = words.get(at.saturating_add(1));
        let number = next.and_then(number_in);
        is_number = take_word(&mut asked, word.as_str(), number)?;
    }
    Some(asked)
}

/// What the words of the command line ask for. None if they are no such words.
pub(crate) fn read_words<R: Env + AllocGlobal>(rt: &R) -> Option<Asked> {
    let words: Vec<String> = env::args(rt).ok()?.collect(rt.alloc()).ok()?;
    read_all(words.as_slice())
}
