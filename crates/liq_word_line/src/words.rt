//! What the words of a command line ask for.

ghost use Rattle.std.specs.Prelude.{◌≡◌, ◌∷◌, [], Some, IsTrue, IfSome, codes, map};
ghost use Rattle.std.specs.String.{string_bytes};
ghost use Rattle.liq_word_line.specs.Words.{Ask, UsesDisks};
ghost use Rattle.liq_word_line.specs.declared.words.Word.{Word};

use liq_text::read_number;

/// The greatest count of drawn calls.
pub const COUNT_MOST: u64 = 1_000_000;

/// What the program is asked to do.
#[derive(Clone, Copy)]
pub enum Word {
    /// Answer the requests of the input.
    Run,
    /// Answer the scripts of the input, each in a session of its own.
    Serve,
    /// Answer the stakers of the input, who share the fees of the commands on the disks.
    Staking,
    /// Tell the rewards of the depositors on the disks, and what the front ends of the input are
    /// given of them.
    Rewards,
    /// Tell what stands.
    State,
    /// Tell what each depositor has beside its exact share.
    Audit,
    /// Tell each trove and deposit as it stands, as one text in JSON.
    Report,
    /// Follow a journal that comes in, and tell what stands at its end.
    Follow,
    /// Carry out a seed's calls, so many of them drawn, and tell where they lead.
    Gen { seed: u64, count: u64 },
}

/// Whether the words ask for something that uses the disks, which is all but `follow` and `gen`. It
/// takes no memory.
pub fn takes_disks(words: &[String]) -> bool
    ensures asks { IsTrue result → (word : Word) × Ask (map string_bytes words.now) word
        × UsesDisks word }
    ensures all { (word : Word) → Ask (map string_bytes words.now) word → UsesDisks word
        → IsTrue result }
{
    matches!(words, [word] if uses_disks(word))
}

/// Whether the name is that of a word that stands alone and uses the disks.
fn uses_disks(name: &str) -> bool
    ensures asks { IsTrue result → (word : Word) × Ask (name.now ∷ []) word × UsesDisks word }
    ensures all { (word : Word) → Ask (name.now ∷ []) word → UsesDisks word → IsTrue result }
{
    match alone(name) {
        Some(Word::Follow) => false,
        Some(_) => true,
        None => false,
    }
}

/// Whether the words ask for something. It takes no memory.
pub fn are_understood(words: &[String]) -> bool
    ensures asks { IsTrue result → (word : Word) × Ask (map string_bytes words.now) word }
    ensures all { (word : Word) → Ask (map string_bytes words.now) word → IsTrue result }
{
    match words {
        [word] => alone(word).is_some(),
        [word, seed, count] => word.as_str() == "gen" && gen_of(seed, count).is_some(),
        _ => false,
    }
}

/// The word that stands alone under this name.
pub fn alone(name: &str) -> Option<Word>
    ensures word { IfSome result (Ask (name.now ∷ [])) }
    ensures only { (word : Word) → Ask (name.now ∷ []) word → result ≡ Some word }
{
    match name {
        "run" => Some(Word::Run),
        "serve" => Some(Word::Serve),
        "staking" => Some(Word::Staking),
        "rewards" => Some(Word::Rewards),
        "state" => Some(Word::State),
        "audit" => Some(Word::Audit),
        "report" => Some(Word::Report),
        "follow" => Some(Word::Follow),
        _ => None,
    }
}

/// The word `gen` with its two numbers, where they are numbers in their ranges.
pub fn gen_of(seed: &str, count: &str) -> Option<Word>
    ensures word { IfSome result (Ask (codes "gen" ∷ seed.now ∷ count.now ∷ [])) }
    ensures only { (word : Word) → Ask (codes "gen" ∷ seed.now ∷ count.now ∷ []) word
        → result ≡ Some word }
{
    let seed = read_number(seed.as_bytes())?;
    let count = read_number(count.as_bytes())?;
    if (1..=COUNT_MOST).contains(&count) {
        Some(Word::Gen { seed, count })
    } else {
        None
    }
}
