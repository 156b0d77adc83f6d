// How many marks a set has, and the lowest of them, a word of 64 marks at a time.
#![tactic(auto)]

ghost use Rattle.std.specs.Prelude.{◌≡◌, ◌≤◌, length};
ghost use Rattle.std.specs.Option.{option_map};
ghost use Rattle.marks.specs.Members.{marks_in, lowest};
ghost use Rattle.marks.specs.Sets.{beyond};
ghost use Rattle.marks.specs.Words.{members};

use marks::{Mark, MarkSet};

// How many marks the set has.
pub fn count(set: &MarkSet) -> u16
    ensures value { result ≡ length (marks_in (members set.now)) }
    ensures low { result ≤ 1024 }
{
    let words = set.words();
    words.iter().map(|word| word.count_ones() as u16).sum()
}

// The lowest mark of the set, or none where the set is empty.
pub fn lowest(set: &MarkSet) -> Option<Mark>
    ensures { option_map (λ (m : Mark). m.number) result ≡ lowest (members set.now) }
{
    let words = set.words();
    let i = words.iter().position(|word| *word != 0)?;
    Mark::new(64 * i as u16 + words[i].trailing_zeros() as u16)
}

// The lowest mark of the set that the other lacks, or none where there is no such mark.
pub fn lowest_beyond(set: &MarkSet, other: &MarkSet) -> Option<Mark>
    ensures { option_map (λ (m : Mark). m.number) result ≡ lowest (beyond (members set.now) (members other.now)) }
{
    lowest(&set.without(other))
}
